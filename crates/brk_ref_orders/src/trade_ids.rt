ghost use Rattle.std.specs.Prelude.{◌≡◌, ◌==◌, IfOk};
ghost use Rattle.brk_model.specs.Forms.{one_to_twenty_distinct_ids, read_each_text, read_id, read_distinct_ids};
ghost use Rattle.brk_model.specs.Lists.{all_distinct, contains_number};
ghost use Rattle.brk_ref_orders.specs.Records.{ids_of_vector};
ghost use Rattle.brk_ref.specs.Fields.{ParsesAs, texts_of_fields};

use brk_money::{Id, Planned, Refusal};
use brk_ref::parse_id;
use std::alloc::{AllocError, Global};
use std::marker::Model;

/// The 1 to 20 different ids of trades that a row names, in the sequence of the row.
#[derive(Drop)]
pub struct TradeIds {
    ids: Vec<Id>,
}

impl Model for TradeIds {
    ghost use Rattle.std.specs.Prelude.{ℕ, List, length, ◌≤◌, ◌≡◌, true};
    ghost use Rattle.brk_model.specs.Lists.{all_distinct};

    ghost Value = { List ℕ };

    ghost view = { λ trades. trades.ids.items };

    ghost invariant = { λ trades. (1 ≤ length trades.ids.items) × (length trades.ids.items ≤ 20) × (all_distinct trades.ids.items ≡ true) };
}

impl TradeIds {
    /// The greatest number of trades that one row names.
    pub const MOST: usize = 20;

    /// Refuses with `BadText` (18) if `ids` is empty or an id occurs twice, otherwise with
    /// `TooMany` (20) if there are more than 20.
    pub fn new(ids: Vec<Id>) -> Result<TradeIds, Refusal>
        ensures { ParsesAs (λ trades. trades) result (one_to_twenty_distinct_ids ids.items) }
    {
        if !has_distinct_ids(&ids) {
            return Err(Refusal::BadText);
        }
        if ids.is_empty() {
            return Err(Refusal::BadText);
        }
        if ids.len() > TradeIds::MOST {
            return Err(Refusal::TooMany);
        }
        Ok(TradeIds { ids })
    }

    pub fn ids(&self) -> &[Id]
        ensures { result.now ≡ self.now }
    {
        &self.ids
    }
}

fn is_among_ids(id: Id, ids: &[Id]) -> bool
    ensures { result ≡ contains_number id ids.now }
{
    ids.iter().any(|other| *other == id)
}

fn has_distinct_ids(ids: &[Id]) -> bool
    ensures { result ≡ all_distinct ids.now }
{
    for i in 0..ids.len() {
        if is_among_ids(ids[i], &ids[i + 1..]) {
            return false;
        }
    }
    true
}

fn parse_ids(alloc: Global, fields: &[&[u8]]) -> Planned<Vec<Id>, AllocError>
    ensures read { IfOk result (λ read. ParsesAs ids_of_vector read (read_each_text read_id (texts_of_fields fields.now))) }
{
    let mut ids = Vec::new(alloc);
    for field in fields {
        let Some(id) = parse_id(field) else {
            return Ok(Err(Refusal::BadText));
        };
        ids.push(id)?;
    }
    Ok(Ok(ids))
}

/// Parses an id from each field. Refuses with `BadText` (18), also without fields or if an id
/// occurs twice, otherwise with `TooMany` (20) above 20 fields.
pub fn parse_trade_ids(alloc: Global, fields: &[&[u8]]) -> Planned<TradeIds, AllocError>
    ensures read { IfOk result (λ read. ParsesAs (λ trades. trades) read (read_distinct_ids (texts_of_fields fields.now))) }
{
    match parse_ids(alloc, fields)? {
        Ok(ids) => Ok(TradeIds::new(ids)),
        Err(refusal) => Ok(Err(refusal)),
    }
}
