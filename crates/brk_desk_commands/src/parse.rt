//! Parsing of the fields of a row, by its kind: here of the rows that set a desk up, in
//! `parse_order`, `parse_update` and `parse_movement` of the others. The kinds are split over five
//! functions, so that each pattern stays within the limits of the prover.

ghost use Rattle.std.specs.Prelude.{◌≡◌, ◌∷◌, ◌++◌, IfOk, OnErr, Err};
ghost use Rattle.brk_model.specs.Parse.{parse_by_first_field, read_account, read_and_wrap, read_commission_band, read_broker, read_charge};
ghost use Rattle.brk_model.specs.Parse.{read_customer, read_customer_tax, read_permission, read_listing, read_tax_rate, order_feed_and_cancel_parsers};
ghost use Rattle.brk_model.specs.Parse.{movement_and_one_day_settlement_row_parsers, other_reference_row_parsers};
ghost use Rattle.brk_model.specs.Parse.{result_row_parsers, row_parsers, update_row_parsers};
ghost use Rattle.brk_money.specs.declared.fault.Fault.TheVariants.{Memory};
ghost use Rattle.brk_model.specs.Commands.{AddAccount, AddBand, AddBroker, AddCharge, AddCustomer, AddCustomerTax, AddPermission, AddSecurity, AddTaxRate};
ghost use Rattle.brk_ref.specs.Fields.{ParsesAs, texts_of_fields};
ghost use Rattle.brk_desk_commands.specs.Commands.{abstract_command};

use crate::command::Command;
use crate::parse_order::parse_kinds_from_order;
use brk_money::{Planned, Refusal};
use brk_ref::{
    check_account, check_band, check_broker, check_charge, check_customer, check_customer_tax,
    check_permission, check_security, check_tax,
};
use brk_trade_plans::Reference;
use std::alloc::{AllocError, Global};

fn broker_command(alloc: Global, fields: &[&[u8]]) -> Planned<Command, AllocError>
    ensures { IfOk result (λ read. ParsesAs abstract_command read (read_and_wrap AddBroker read_broker (texts_of_fields fields.now))) }
{
    match check_broker(alloc, fields) {
        Ok(Ok(broker)) => Ok(Ok(Command::Add(Reference::Broker(broker)))),
        Ok(Err(refusal)) => Ok(Err(refusal)),
        Err(_) => Err(AllocError),
    }
}

fn customer_command(alloc: Global, fields: &[&[u8]]) -> Planned<Command, AllocError>
    ensures { IfOk result (λ read. ParsesAs abstract_command read (read_and_wrap AddCustomer read_customer (texts_of_fields fields.now))) }
{
    match check_customer(alloc, fields) {
        Ok(Ok(customer)) => Ok(Ok(Command::Add(Reference::Customer(customer)))),
        Ok(Err(refusal)) => Ok(Err(refusal)),
        Err(_) => Err(AllocError),
    }
}

fn account_command(alloc: Global, fields: &[&[u8]]) -> Planned<Command, AllocError>
    ensures { IfOk result (λ read. ParsesAs abstract_command read (read_and_wrap AddAccount read_account (texts_of_fields fields.now))) }
{
    match check_account(alloc, fields) {
        Ok(Ok(account)) => Ok(Ok(Command::Add(Reference::Account(account)))),
        Ok(Err(refusal)) => Ok(Err(refusal)),
        Err(_) => Err(AllocError),
    }
}

fn permission_command(alloc: Global, fields: &[&[u8]]) -> Planned<Command, AllocError>
    ensures { IfOk result (λ read. ParsesAs abstract_command read (read_and_wrap AddPermission read_permission (texts_of_fields fields.now))) }
{
    match check_permission(alloc, fields) {
        Ok(Ok(permission)) => Ok(Ok(Command::Add(Reference::Permission(permission)))),
        Ok(Err(refusal)) => Ok(Err(refusal)),
        Err(_) => Err(AllocError),
    }
}

// Parses the row `security`: a security with its first price.
fn listing_command(alloc: Global, fields: &[&[u8]]) -> Planned<Command, AllocError>
    ensures { IfOk result (λ read. ParsesAs abstract_command read (read_and_wrap AddSecurity read_listing (texts_of_fields fields.now))) }
{
    match check_security(alloc, fields) {
        Ok(Ok(security)) => Ok(Ok(Command::Add(Reference::Security(security)))),
        Ok(Err(refusal)) => Ok(Err(refusal)),
        Err(_) => Err(AllocError),
    }
}

fn charge_command(fields: &[&[u8]]) -> Result<Command, Refusal>
    ensures { ParsesAs abstract_command result (read_and_wrap AddCharge read_charge (texts_of_fields fields.now)) }
{
    match check_charge(fields) {
        Ok(charge) => Ok(Command::Add(Reference::Charge(charge))),
        Err(refusal) => Err(refusal),
    }
}

fn band_command(alloc: Global, fields: &[&[u8]]) -> Planned<Command, AllocError>
    ensures { IfOk result (λ read. ParsesAs abstract_command read (read_and_wrap AddBand read_commission_band (texts_of_fields fields.now))) }
{
    match check_band(alloc, fields) {
        Ok(Ok(band)) => Ok(Ok(Command::Add(Reference::Band(band)))),
        Ok(Err(refusal)) => Ok(Err(refusal)),
        Err(_) => Err(AllocError),
    }
}

fn tax_rate_command(alloc: Global, fields: &[&[u8]]) -> Planned<Command, AllocError>
    ensures { IfOk result (λ read. ParsesAs abstract_command read (read_and_wrap AddTaxRate read_tax_rate (texts_of_fields fields.now))) }
{
    match check_tax(alloc, fields) {
        Ok(Ok(tax_rate)) => Ok(Ok(Command::Add(Reference::TaxRate(tax_rate)))),
        Ok(Err(refusal)) => Ok(Err(refusal)),
        Err(_) => Err(AllocError),
    }
}

fn customer_tax_command(fields: &[&[u8]]) -> Result<Command, Refusal>
    ensures { ParsesAs abstract_command result (read_and_wrap AddCustomerTax read_customer_tax (texts_of_fields fields.now)) }
{
    match check_customer_tax(fields) {
        Ok(customer_tax) => Ok(Command::Add(Reference::CustomerTax(customer_tax))),
        Err(refusal) => Err(refusal),
    }
}

// Parses the other rows that set a desk up and, by `parse_kinds_from_order`, all other kinds. Refuses
// `broker`, `customer` and `account` as unknown kinds: the caller has parsed these.
fn parse_kinds_from_permission(
    alloc: Global,
    kind: &[u8],
    fields: &[&[u8]],
) -> Planned<Command, AllocError>
    ensures { IfOk result (λ read. ParsesAs abstract_command read (parse_by_first_field (other_reference_row_parsers ++ order_feed_and_cancel_parsers
        ++ result_row_parsers ++ update_row_parsers ++ movement_and_one_day_settlement_row_parsers) (kind.now
        ∷ texts_of_fields fields.now))) }
{
    if kind == b"permission".as_slice() {
        return permission_command(alloc, fields);
    }
    if kind == b"security".as_slice() {
        return listing_command(alloc, fields);
    }
    if kind == b"charge".as_slice() {
        return Ok(charge_command(fields));
    }
    if kind == b"band".as_slice() {
        return band_command(alloc, fields);
    }
    if kind == b"taxrate".as_slice() {
        return tax_rate_command(alloc, fields);
    }
    if kind == b"custtax".as_slice() {
        return Ok(customer_tax_command(fields));
    }
    parse_kinds_from_order(alloc, kind, fields)
}

fn parse_any_kind(alloc: Global, kind: &[u8], fields: &[&[u8]]) -> Planned<Command, AllocError>
    ensures { IfOk result (λ read. ParsesAs abstract_command read (parse_by_first_field row_parsers (kind.now ∷ texts_of_fields fields.now))) }
{
    if kind == b"broker".as_slice() {
        return broker_command(alloc, fields);
    }
    if kind == b"customer".as_slice() {
        return customer_command(alloc, fields);
    }
    if kind == b"account".as_slice() {
        return account_command(alloc, fields);
    }
    parse_kinds_from_permission(alloc, kind, fields)
}

/// Parses the command of a row from its fields, the kind first.
///
/// Refuses an unknown kind, or no field at all, with `BadText` (18). Otherwise refuses with the
/// first that applies of `BadText` (18), also for a wrong number of fields and for a trade id that
/// `upname` names twice; `BadQty` (8), also if FROM of a band is greater than TO; `BadPrice` (9),
/// also for a price that does not fit the type of an order; `BadType` (7); and `TooMany` (20) for
/// more than 20 ticks or trade ids.
pub fn parse_row(alloc: Global, fields: &[&[u8]]) -> Planned<Command>
    ensures read { IfOk result (λ read. ParsesAs abstract_command read (parse_by_first_field row_parsers (texts_of_fields fields.now))) }
    ensures fault { OnErr result (result ≡ Err Memory) }
{
    let [kind, fields @ ..] = fields else {
        return Ok(Err(Refusal::BadText));
    };
    Ok(parse_any_kind(alloc, kind, fields)?)
}
