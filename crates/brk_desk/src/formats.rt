//! Proofs that commands meet the formats and the limits that an audit checks, and that keys are
//! well-formed: the types of their fields have no malformed values. No function does anything at run
//! time.

ghost use Rattle.std.specs.Prelude.{◌≡◌};
ghost use Rattle.std.specs.List.{AllByRecursion};
ghost use Rattle.brk_trade_plans.specs.Commands as books;
ghost use Rattle.brk_desk_commands.specs.Commands.{abstract_command};
ghost use Rattle.brk_model.specs.Commands.{AddAccount, AddBand, AddBroker, AddCharge, AddCustomer, AddCustomerTax, AddPermission, AddSecurity, AddTaxRate};
ghost use Rattle.brk_ref_orders.specs.Records.{movement_command, abstract_order, abstract_ticks, text_update_command};
ghost use Rattle.brk_ref.specs.Records.{abstract_account, abstract_band, abstract_broker, abstract_charge, abstract_customer, abstract_customer_tax};
ghost use Rattle.brk_ref.specs.Records.{abstract_key, abstract_listing, abstract_permission, abstract_tax_rate};
ghost use Rattle.brk_audit_theorems.specs.InForm.{MeetsAuditFormats, IsWellFormedKey, OrderMeetsAuditFormats, TickMeetsAuditFormats};

use brk_desk_commands::Command;
use brk_ref::{Account, Band, Broker, Charge, Customer, Key, Listing, Permission, Tax};
use brk_ref_orders::{Direction, Movement, Order, Tick, Update};
use brk_trade_plans::Reference;

fn prove_broker(broker: &Broker)
    ensures { MeetsAuditFormats (AddBroker (abstract_broker broker.now)) }
{
    let _ = broker.id.get();
    broker.name.prove_form();
}

fn prove_customer(customer: &Customer)
    ensures { MeetsAuditFormats (AddCustomer (abstract_customer customer.now)) }
{
    let _ = customer.id.get();
    let _ = customer.tier.get();
    customer.tax_id.prove_form();
    customer.last_name.prove_form();
    customer.first_name.prove_form();
}

fn prove_account(account: &Account)
    ensures { MeetsAuditFormats (AddAccount (abstract_account account.now)) }
{
    let _ = account.id.get();
    account.name.prove_form();
    let _ = account.opening.get();
}

fn prove_permission(permission: &Permission)
    ensures { MeetsAuditFormats (AddPermission (abstract_permission permission.now)) }
{
    permission.acl.prove_form();
    permission.tax_id.prove_form();
    permission.last_name.prove_form();
    permission.first_name.prove_form();
}

fn prove_listing(listing: &Listing)
    ensures { MeetsAuditFormats (AddSecurity (abstract_listing listing.now)) }
{
    listing.security.symbol.prove_form();
    listing.security.name.prove_form();
    listing.security.exchange.prove_form();
    listing.security.sector.prove_form();
    let _ = listing.price.get();
}

fn prove_charge(charge: &Charge)
    ensures { MeetsAuditFormats (AddCharge (abstract_charge charge.now)) }
{
    let _ = charge.tier.get();
    let _ = charge.amount.get();
}

fn prove_band(band: &Band)
    ensures { MeetsAuditFormats (AddBand (abstract_band band.now)) }
{
    let _ = band.tier.get();
    band.exchange.prove_form();
    let _ = band.from_qty.get();
    let _ = band.to_qty.get();
    let _ = band.rate.get();
}

fn prove_tax(tax: &Tax)
    ensures { MeetsAuditFormats (AddTaxRate (abstract_tax_rate tax.now)) }
{
    let _ = tax.id.get();
    tax.name.prove_form();
    let _ = tax.rate.get();
}

fn prove_reference(reference: &Reference)
    ensures { MeetsAuditFormats (books.command_adding_record reference.now) }
{
    match reference {
        Reference::Broker(broker) => prove_broker(broker),
        Reference::Customer(customer) => prove_customer(customer),
        Reference::Account(account) => prove_account(account),
        Reference::Permission(permission) => prove_permission(permission),
        Reference::Security(listing) => prove_listing(listing),
        Reference::Charge(charge) => prove_charge(charge),
        Reference::Band(band) => prove_band(band),
        Reference::TaxRate(tax) => prove_tax(tax),
        Reference::CustomerTax(_) => (),
    }
}

fn prove_order(order: &Order)
    ensures { OrderMeetsAuditFormats (abstract_order order.now) }
{
    let _ = order.qty.get();
    if let Some(price) = order.order_type.price() {
        let _ = price.get();
    }
}

fn prove_ticks(ticks: &[Tick])
    ensures { AllByRecursion TickMeetsAuditFormats (abstract_ticks ticks.now) }
{
    for tick in ticks {
        let _ = tick.price.get();
    }
}

// A text update has no field that an audit checks.
fn prove_update(update: &Update)
    ensures { MeetsAuditFormats (text_update_command update.now) }
{
    match update {
        Update::Executors(_) | Update::CashTypes { .. } | Update::CashNames { .. } => (),
    }
}

fn prove_movement(movement: &Movement)
    ensures { MeetsAuditFormats (movement_command movement.now) }
{
    let _ = movement.amount.get();
    match movement.direction {
        Direction::Deposit | Direction::Withdrawal => (),
    }
}

pub fn prove_command(command: &Command)
    ensures { MeetsAuditFormats (abstract_command command.now) }
{
    match command {
        Command::Add(reference) => prove_reference(reference),
        Command::Order(order) => prove_order(order),
        Command::Feed(feed) => prove_ticks(feed.ticks()),
        Command::Cancel(_) => (),
        Command::Complete(completion) => {
            let _ = completion.price.get();
        }
        Command::Update(update) => prove_update(update),
        Command::Move(movement) => prove_movement(movement),
        Command::OneDay(day) => {
            let _ = day.get();
        }
    }
}

pub fn prove_key(key: &Key)
    ensures { IsWellFormedKey (abstract_key key.now) }
{
    key.batch.prove_form();
    let _ = key.n.get();
}
