ghost use Rattle.std.specs.Prelude.{◌≡◌, ◌∷◌, [], IfOk, OnErr, Err};
ghost use Rattle.brk_model.specs.Parse.{read_customer};
ghost use Rattle.brk_money.specs.declared.fault.Fault.TheVariants.{Memory};
ghost use Rattle.brk_ref.specs.Records.{abstract_customer};
ghost use Rattle.brk_ref.specs.Fields.{ParsesAs, texts_of_fields};

use crate::name::Name;
use crate::numbers::parse_id;
use crate::tax_id::TaxId;
use crate::tier::Tier;
use brk_money::{Id, Planned, Refusal};
use std::alloc::{AllocError, Global};

/// A customer. A tax id belongs to at most one customer.
#[derive(Clone, Drop)]
pub struct Customer {
    pub id: Id,
    pub tier: Tier,
    pub tax_id: TaxId,
    pub last_name: Name,
    pub first_name: Name,
}

fn parse_customer_fields(
    alloc: Global,
    id: &[u8],
    tier: &[u8],
    tax_id: &[u8],
    last_name: &[u8],
    first_name: &[u8],
) -> Planned<Customer, AllocError>
    ensures { IfOk result (λ read. ParsesAs abstract_customer read (read_customer (id.now ∷ tier.now ∷ tax_id.now ∷ last_name.now ∷ first_name.now
        ∷ []))) }
{
    let Some(id) = parse_id(id) else {
        return Ok(Err(Refusal::BadText));
    };
    let Some(tier) = Tier::parse(tier) else {
        return Ok(Err(Refusal::BadText));
    };
    let Some(tax_id) = TaxId::parse(alloc, tax_id)? else {
        return Ok(Err(Refusal::BadText));
    };
    let Some(last_name) = Name::parse(alloc, last_name)? else {
        return Ok(Err(Refusal::BadText));
    };
    let Some(first_name) = Name::parse(alloc, first_name)? else {
        return Ok(Err(Refusal::BadText));
    };
    Ok(Ok(Customer {
        id,
        tier,
        tax_id,
        last_name,
        first_name,
    }))
}

/// Parses the fields ID, TIER, TAXID, LAST and FIRST. Refuses with `BadText` (18).
pub fn check_customer(alloc: Global, fields: &[&[u8]]) -> Planned<Customer>
    ensures read { IfOk result (λ read. ParsesAs abstract_customer read (read_customer (texts_of_fields fields.now))) }
    ensures fault { OnErr result (result ≡ Err Memory) }
{
    let [id, tier, tax_id, last_name, first_name] = fields else {
        return Ok(Err(Refusal::BadText));
    };
    Ok(parse_customer_fields(alloc, id, tier, tax_id, last_name, first_name)?)
}
