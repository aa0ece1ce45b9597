ghost use Rattle.std.specs.Prelude.{◌≡◌, ◌∷◌, [], IfOk, OnErr, Err};
ghost use Rattle.brk_model.specs.Parse.{read_broker};
ghost use Rattle.brk_money.specs.declared.fault.Fault.TheVariants.{Memory};
ghost use Rattle.brk_ref.specs.Records.{abstract_broker};
ghost use Rattle.brk_ref.specs.Fields.{ParsesAs, texts_of_fields};

use crate::name::Name;
use crate::numbers::parse_id;
use brk_money::{Id, Planned, Refusal};
use std::alloc::{AllocError, Global};

/// A broker, without its totals.
#[derive(Clone, Drop)]
pub struct Broker {
    pub id: Id,
    pub name: Name,
}

/// A row of BROKER: a broker with the number of the completed trades of its accounts and the sum of
/// their commissions, in cents.
#[derive(Drop)]
pub struct BrokerRow {
    pub broker: Broker,
    pub trades: i64,
    pub commissions: u64,
}

fn parse_broker(alloc: Global, id: &[u8], name: &[u8]) -> Planned<Broker, AllocError>
    ensures { IfOk result (λ read. ParsesAs abstract_broker read (read_broker (id.now ∷ name.now ∷ []))) }
{
    let Some(id) = parse_id(id) else {
        return Ok(Err(Refusal::BadText));
    };
    let Some(name) = Name::parse(alloc, name)? else {
        return Ok(Err(Refusal::BadText));
    };
    Ok(Ok(Broker { id, name }))
}

/// Parses the fields ID and NAME. Refuses with `BadText` (18).
pub fn check_broker(alloc: Global, fields: &[&[u8]]) -> Planned<Broker>
    ensures read { IfOk result (λ read. ParsesAs abstract_broker read (read_broker (texts_of_fields fields.now))) }
    ensures fault { OnErr result (result ≡ Err Memory) }
{
    let [id, name] = fields else {
        return Ok(Err(Refusal::BadText));
    };
    Ok(parse_broker(alloc, id, name)?)
}
