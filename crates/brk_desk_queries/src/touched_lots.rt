//! The view of the changes of the lots that a trade touched.

ghost use Rattle.std.specs.Prelude.{◌≡◌, ◌==◌, filter, map};
ghost use Rattle.brk_desk_queries.specs.QueryResults.{AnswersQueryAsModel};
ghost use Rattle.brk_desk_queries.specs.Touched.{AreTouchedLotsOfTrade, last_status_stamp};
ghost use Rattle.brk_model.specs.Queries.{LotsTouched};
ghost use Rattle.brk_store_transactions.specs.Holds.{ReadPost};
ghost use Rattle.brk_view_rows.specs.Lots.{stamped_lot_change};

use brk_money::{CallFault, Id, Planned, Refusal, Stamp};
use brk_store::Store;
use brk_view_rows::{LotTouch, TouchedLots, View, lookup_lots, merge_touches};
use sqlite::Alter;
use std::alloc::Global;

// Fails with `Store` also if the trade does not exist.
fn require_stamp<S: Alter>(store: &mut Store<S>, trade: Id) -> Result<Stamp, CallFault>
    ensures { ReadPost S.Store store.old store.new result (λ stamp t. stamp ≡ last_status_stamp t trade) }
{
    match store.trade(trade)? {
        Some(row) => Ok(row.stamp),
        None => Err(CallFault::Store),
    }
}

// Returns the changes of a lot, each with the stamp of the last status of the trade that made it.
// Fails with `Store` also if one of these trades does not exist.
fn stamped_lot_changes<S: Alter>(
    alloc: Global,
    store: &mut Store<S>,
    lot: Id,
) -> Result<Vec<LotTouch>, CallFault>
    ensures { ReadPost S.Store store.old store.new result (λ touches t. touches.items
        ≡ map (stamped_lot_change t) (filter (λ r. r.lot == lot) t.holding_history)) }
{
    let rows = store.lot_changes_of_lot(alloc, lot)?;
    let mut touches = Vec::new(alloc);
    for row in &rows {
        let stamp = require_stamp(store, row.trade)?;
        touches.push(LotTouch {
            change: *row,
            stamp,
        })?;
    }
    Ok(touches)
}

// Returns the first 20 changes, by any trade, of the lots that `trade` touched. Merges lot by lot,
// so that no more than 20 changes are kept.
fn touched_lots_of_trade<S: Alter>(
    alloc: Global,
    store: &mut Store<S>,
    trade: Id,
) -> Result<TouchedLots, CallFault>
    ensures { ReadPost S.Store store.old store.new result (AreTouchedLotsOfTrade trade) }
{
    let mut rest = store.lot_changes_by_trade(alloc, trade)?;
    let mut kept = Vec::new(alloc);
    while let Some(change) = rest.pop() {
        let touches = stamped_lot_changes(alloc, store, change.lot)?;
        merge_touches(&mut kept, touches)?;
    }
    Ok(TouchedLots {
        trade,
        changes: kept,
    })
}

/// Returns the view of the lots that one trade of an account touched: the trade whose last status
/// has the least stamp that is `first` or later; of several, the one with the least id. The view
/// has its id and the first 20 changes of these lots, by any trade, sorted by stamp, then by lot,
/// ascending; it has no record if there is no such trade. Refuses an unknown account with
/// `NoAccount`. Fails with `Store` also if a trade that made one of the changes does not exist.
pub fn touched_lots_view<S: Alter>(
    alloc: Global,
    store: &mut Store<S>,
    account: Id,
    first: Stamp,
) -> Planned<View, CallFault>
    ensures { ReadPost S.Store store.old store.new result (AnswersQueryAsModel (LotsTouched account first)) }
{
    let Some(_row) = store.account(account)? else {
        return Ok(Err(Refusal::NoAccount));
    };
    let Some(trade) = store.first_trade_of_account_since(account, first)? else {
        return Ok(Ok(lookup_lots(None)));
    };
    let lots = touched_lots_of_trade(alloc, store, trade.id)?;
    Ok(Ok(lookup_lots(Some(lots))))
}
