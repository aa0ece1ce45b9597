//! The rows of commands, as they are stored under idempotency keys: the kind and the other fields,
//! joined by byte 31.
#![tactic(auto, unfolding(brk_model::specs::Rows::row_fields))]

ghost use Rattle.std.specs.Prelude.{◌≡◌, IfOk, OnErr, Err, string_bytes};
ghost use Rattle.brk_trade_plans.specs.Commands as books;
ghost use Rattle.brk_desk_commands.specs.Commands.{abstract_command};
ghost use Rattle.brk_model.specs.Commands.{AddAccount, AddBand, AddBroker, AddCharge, AddCustomer, AddCustomerTax, AddPermission, AddSecurity, AddTaxRate};
ghost use Rattle.brk_model.specs.Rows as model;
ghost use Rattle.brk_money.specs.declared.fault.Fault.TheVariants.{Memory};
ghost use Rattle.brk_ref.specs.Records.{abstract_account, abstract_band, abstract_broker, abstract_charge, abstract_customer};
ghost use Rattle.brk_ref.specs.Records.{abstract_customer_tax, abstract_listing, abstract_permission, abstract_tax_rate};

use crate::command::Command;
use crate::movement_row::{row_of_movement, row_of_oneday};
use crate::trading_row::{row_of_cancel, row_of_feed, row_of_order, row_of_result};
use crate::update_row::row_of_update;
use brk_money::Fault;
use brk_ref::{Account, Band, Broker, Charge, Customer, CustomerTax, Listing, Permission, Tax};
use brk_trade_plans::Reference;
use std::alloc::{AllocError, Global};

fn row_of_broker(alloc: Global, broker: &Broker) -> Result<String, AllocError>
    ensures { IfOk result (λ row. string_bytes row ≡ model.row_text (AddBroker (abstract_broker broker.now))) }
{
    format!(in alloc; "broker\x1f{}\x1f{}", broker.id.get(), broker.name.as_str())
}

fn row_of_customer(alloc: Global, customer: &Customer) -> Result<String, AllocError>
    ensures { IfOk result (λ row. string_bytes row ≡ model.row_text (AddCustomer (abstract_customer customer.now))) }
{
    format!(in alloc;
        "customer\x1f{}\x1f{}\x1f{}\x1f{}\x1f{}",
        customer.id.get(),
        customer.tier.get(),
        customer.tax_id.as_str(),
        customer.last_name.as_str(),
        customer.first_name.as_str()
    )
}

fn row_of_account(alloc: Global, account: &Account) -> Result<String, AllocError>
    ensures { IfOk result (λ row. string_bytes row ≡ model.row_text (AddAccount (abstract_account account.now))) }
{
    format!(in alloc;
        "account\x1f{}\x1f{}\x1f{}\x1f{}\x1f{}\x1f{}",
        account.id.get(),
        account.customer.get(),
        account.broker.get(),
        account.name.as_str(),
        account.tax_status.number(),
        account.opening
    )
}

fn row_of_permission(alloc: Global, permission: &Permission) -> Result<String, AllocError>
    ensures { IfOk result (λ row. string_bytes row ≡ model.row_text (AddPermission (abstract_permission permission.now))) }
{
    format!(in alloc;
        "permission\x1f{}\x1f{}\x1f{}\x1f{}\x1f{}",
        permission.account.get(),
        permission.acl.as_str(),
        permission.tax_id.as_str(),
        permission.last_name.as_str(),
        permission.first_name.as_str()
    )
}

// The row `security`: a security with its first price.
fn row_of_listing(alloc: Global, listing: &Listing) -> Result<String, AllocError>
    ensures { IfOk result (λ row. string_bytes row ≡ model.row_text (AddSecurity (abstract_listing listing.now))) }
{
    let security = &listing.security;
    format!(in alloc;
        "security\x1f{}\x1f{}\x1f{}\x1f{}\x1f{}",
        security.symbol.as_str(),
        security.name.as_str(),
        security.exchange.as_str(),
        security.sector.as_str(),
        listing.price
    )
}

fn row_of_charge(alloc: Global, charge: &Charge) -> Result<String, AllocError>
    ensures { IfOk result (λ row. string_bytes row ≡ model.row_text (AddCharge (abstract_charge charge.now))) }
{
    format!(in alloc;
        "charge\x1f{}\x1f{}\x1f{}",
        charge.kind.code(),
        charge.tier.get(),
        charge.amount
    )
}

// The rate is in hundredths of a percent.
fn row_of_band(alloc: Global, band: &Band) -> Result<String, AllocError>
    ensures { IfOk result (λ row. string_bytes row ≡ model.row_text (AddBand (abstract_band band.now))) }
{
    format!(in alloc;
        "band\x1f{}\x1f{}\x1f{}\x1f{}\x1f{}\x1f{}",
        band.tier.get(),
        band.kind.code(),
        band.exchange.as_str(),
        band.from_qty.get(),
        band.to_qty.get(),
        band.rate.get()
    )
}

// The rate is in hundred-thousandths.
fn row_of_tax_rate(alloc: Global, tax: &Tax) -> Result<String, AllocError>
    ensures { IfOk result (λ row. string_bytes row ≡ model.row_text (AddTaxRate (abstract_tax_rate tax.now))) }
{
    format!(in alloc;
        "taxrate\x1f{}\x1f{}\x1f{}",
        tax.id.get(),
        tax.name.as_str(),
        tax.rate.get()
    )
}

fn row_of_customer_tax(alloc: Global, pays: &CustomerTax) -> Result<String, AllocError>
    ensures { IfOk result (λ row. string_bytes row ≡ model.row_text (AddCustomerTax (abstract_customer_tax pays.now))) }
{
    format!(in alloc; "custtax\x1f{}\x1f{}", pays.customer.get(), pays.tax.get())
}

/// Returns the row that adds a record of reference data.
pub fn row_of_reference(alloc: Global, reference: &Reference) -> Result<String, AllocError>
    ensures { IfOk result (λ row. string_bytes row ≡ model.row_text (books.command_adding_record reference.now)) }
{
    match reference {
        Reference::Broker(broker) => row_of_broker(alloc, broker),
        Reference::Customer(customer) => row_of_customer(alloc, customer),
        Reference::Account(account) => row_of_account(alloc, account),
        Reference::Permission(permission) => row_of_permission(alloc, permission),
        Reference::Security(listing) => row_of_listing(alloc, listing),
        Reference::Charge(charge) => row_of_charge(alloc, charge),
        Reference::Band(band) => row_of_band(alloc, band),
        Reference::TaxRate(tax) => row_of_tax_rate(alloc, tax),
        Reference::CustomerTax(pays) => row_of_customer_tax(alloc, pays),
    }
}

/// `row_text` for a caller that returns an allocation error.
pub fn row_of_command(alloc: Global, command: &Command) -> Result<String, AllocError>
    ensures { IfOk result (λ row. string_bytes row ≡ model.row_text (abstract_command command.now)) }
{
    match command {
        Command::Add(reference) => row_of_reference(alloc, reference),
        Command::Order(order) => row_of_order(alloc, order),
        Command::Feed(feed) => row_of_feed(alloc, feed.ticks()),
        Command::Cancel(trade) => row_of_cancel(alloc, *trade),
        Command::Complete(completion) => row_of_result(alloc, completion),
        Command::Update(update) => row_of_update(alloc, update),
        Command::Move(movement) => row_of_movement(alloc, movement),
        Command::OneDay(day) => row_of_oneday(alloc, *day),
    }
}

/// Returns the row of a command, as it is stored under an idempotency key.
pub fn row_text(alloc: Global, command: &Command) -> Result<String, Fault>
    ensures row { IfOk result (λ row. string_bytes row ≡ model.row_text (abstract_command command.now)) }
    ensures fault { OnErr result (result ≡ Err Memory) }
{
    Ok(row_of_command(alloc, command)?)
}
