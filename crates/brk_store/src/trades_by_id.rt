//! Reads of trades by their ids.

ghost use Rattle.std.specs.Prelude.{◌≡◌, MatchOption, is_none, true};
ghost use Rattle.std.specs.List.{list_any};
ghost use Rattle.brk_model.specs.Joins.{trade_row_with_id};
ghost use Rattle.brk_store_reads.specs.ReadSequences.{ReadSequencePost};
ghost use Rattle.brk_trade_books.specs.TradeReads.{AreTradesWithIds};

use crate::Store;
use brk_money::{CallFault, Id};
use brk_ref::TradeRow;
use sqlite::Alter;
use std::alloc::Global;

/// Returns the trades with the ids, in the order of `ids`, or `None` if one of them does not exist.
pub fn read_trades_by_ids<S: Alter>(
    alloc: Global,
    store: &mut Store<S>,
    ids: &[Id],
) -> Result<Option<Vec<TradeRow>>, CallFault>
    ensures read { ReadSequencePost S.Store store.old store.new result (λ found t.
        MatchOption found (list_any (λ id. is_none (trade_row_with_id t id)) ids.now ≡ true) (λ trades. AreTradesWithIds t ids.now trades.items)) }
{
    let mut trades = Vec::new(alloc);
    for id in ids {
        match store.trade(*id)? {
            Some(trade) => trades.push(trade)?,
            None => return Ok(None),
        }
    }
    Ok(Some(trades))
}
