ghost use Rattle.std.specs.Prelude.{◌≡◌, ◌≤◌, IfOk, length, true};
ghost use Rattle.brk_model.specs.Forms.{one_to_twenty_distinct_ids, read_distinct_ids};
ghost use Rattle.brk_model.specs.Lists.{all_distinct};
ghost use Rattle.brk_ref.specs.Fields.{ParsesAs, texts_of_fields};

use brk_money::{Id, Planned, Refusal};
use brk_ref_orders::{TradeIds, parse_trade_ids};
use std::alloc::{AllocError, Global};

/// The 1 to 20 different ids of trades that a query names.
#[derive(Drop)]
pub struct NamedTrades {
    pub trades: TradeIds,
    ghost distinct: { all_distinct trades ≡ true },
    ghost few: { length trades ≤ 20 },
}

impl NamedTrades {
    /// Refuses with `BadText` (18) if an id occurs twice or there is no id, and otherwise with
    /// `TooMany` (20) if there are more than 20.
    pub fn new(ids: Vec<Id>) -> Result<NamedTrades, Refusal>
        ensures { ParsesAs (λ named. named.trades) result (one_to_twenty_distinct_ids ids.items) }
    {
        match TradeIds::new(ids) {
            Ok(trades) => Ok(NamedTrades { trades }),
            Err(refusal) => Err(refusal),
        }
    }
}

/// Parses the ids, one from each field. Refuses a malformed field with `BadText` (18), and
/// otherwise as `NamedTrades::new` does.
pub fn parse_named_trades(alloc: Global, fields: &[&[u8]]) -> Planned<NamedTrades, AllocError>
    ensures read { IfOk result (λ read. ParsesAs (λ named. named.trades) read (read_distinct_ids (texts_of_fields fields.now))) }
{
    match parse_trade_ids(alloc, fields)? {
        Ok(trades) => Ok(Ok(NamedTrades { trades })),
        Err(refusal) => Ok(Err(refusal)),
    }
}
