ghost use Rattle.std.specs.Prelude.{◌≡◌, ◌∷◌, [], IfOk, OnErr, Err};
ghost use Rattle.brk_model.specs.Parse.{read_tax_rate};
ghost use Rattle.brk_money.specs.declared.fault.Fault.TheVariants.{Memory};
ghost use Rattle.brk_ref.specs.Records.{abstract_tax_rate};
ghost use Rattle.brk_ref.specs.Fields.{ParsesAs, texts_of_fields};

use crate::name::Name;
use crate::numbers::{parse_id, parse_tax_rate};
use brk_money::{Id, Planned, Refusal, TaxRate};
use std::alloc::{AllocError, Global};

/// A tax with its rate, in hundred-thousandths (a row of TAXRATE).
#[derive(Clone, Drop)]
pub struct Tax {
    pub id: Id,
    pub name: Name,
    pub rate: TaxRate,
}

fn parse_tax(alloc: Global, id: &[u8], name: &[u8], rate: &[u8]) -> Planned<Tax, AllocError>
    ensures { IfOk result (λ read. ParsesAs abstract_tax_rate read (read_tax_rate (id.now ∷ name.now ∷ rate.now ∷ []))) }
{
    let Some(id) = parse_id(id) else {
        return Ok(Err(Refusal::BadText));
    };
    let Some(rate) = parse_tax_rate(rate) else {
        return Ok(Err(Refusal::BadText));
    };
    let Some(name) = Name::parse(alloc, name)? else {
        return Ok(Err(Refusal::BadText));
    };
    Ok(Ok(Tax { id, name, rate }))
}

/// Parses the fields ID, NAME and RATE, the rate in hundred-thousandths. Refuses with `BadText`
/// (18).
pub fn check_tax(alloc: Global, fields: &[&[u8]]) -> Planned<Tax>
    ensures read { IfOk result (λ read. ParsesAs abstract_tax_rate read (read_tax_rate (texts_of_fields fields.now))) }
    ensures fault { OnErr result (result ≡ Err Memory) }
{
    let [id, name, rate] = fields else {
        return Ok(Err(Refusal::BadText));
    };
    Ok(parse_tax(alloc, id, name, rate)?)
}
