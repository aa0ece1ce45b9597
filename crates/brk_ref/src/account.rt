ghost use Rattle.std.specs.Prelude.{◌≡◌, ◌∷◌, [], IfOk, OnErr, Err};
ghost use Rattle.brk_model.specs.Parse.{read_account};
ghost use Rattle.brk_money.specs.declared.fault.Fault.TheVariants.{Memory};
ghost use Rattle.brk_ref.specs.Records.{abstract_account};
ghost use Rattle.brk_ref.specs.Fields.{ParsesAs, texts_of_fields};

use crate::name::Name;
use crate::numbers::{parse_balance, parse_id, parse_tax_status};
use brk_money::{Cents, Id, Planned, Refusal, TaxStatus};
use std::alloc::{AllocError, Global};

/// An account of a customer at a broker.
#[derive(Clone, Drop)]
pub struct Account {
    pub id: Id,
    pub customer: Id,
    pub broker: Id,
    pub name: Name,
    pub tax_status: TaxStatus,
    /// The balance at the opening of the account, in cents.
    pub opening: Cents,
}

/// A row of CUSTOMER_ACCOUNT: an account with its balance in cents.
#[derive(Drop)]
pub struct AccountRow {
    pub account: Account,
    pub balance: Cents,
}

fn parse_account(
    alloc: Global,
    id: &[u8],
    customer: &[u8],
    broker: &[u8],
    name: &[u8],
    tax_status: &[u8],
    opening: &[u8],
) -> Planned<Account, AllocError>
    ensures { IfOk result (λ read. ParsesAs abstract_account read (read_account (id.now ∷ customer.now ∷ broker.now ∷ name.now ∷ tax_status.now
        ∷ opening.now ∷ []))) }
{
    let Some(id) = parse_id(id) else {
        return Ok(Err(Refusal::BadText));
    };
    let Some(customer) = parse_id(customer) else {
        return Ok(Err(Refusal::BadText));
    };
    let Some(broker) = parse_id(broker) else {
        return Ok(Err(Refusal::BadText));
    };
    let Some(tax_status) = parse_tax_status(tax_status) else {
        return Ok(Err(Refusal::BadText));
    };
    let Some(opening) = parse_balance(opening) else {
        return Ok(Err(Refusal::BadText));
    };
    let Some(name) = Name::parse(alloc, name)? else {
        return Ok(Err(Refusal::BadText));
    };
    Ok(Ok(Account {
        id,
        customer,
        broker,
        name,
        tax_status,
        opening,
    }))
}

/// Parses the fields ID, CUSTOMER, BROKER, NAME, TAXST and OPENING. Refuses with `BadText` (18).
pub fn check_account(alloc: Global, fields: &[&[u8]]) -> Planned<Account>
    ensures read { IfOk result (λ read. ParsesAs abstract_account read (read_account (texts_of_fields fields.now))) }
    ensures fault { OnErr result (result ≡ Err Memory) }
{
    let [id, customer, broker, name, tax_status, opening] = fields else {
        return Ok(Err(Refusal::BadText));
    };
    Ok(parse_account(alloc, id, customer, broker, name, tax_status, opening)?)
}
