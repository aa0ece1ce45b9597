//! The view of an account's last trades and their statuses.

ghost use Rattle.std.specs.Prelude.{◌≡◌, ◌++◌, OnOk, flat_map, map};
ghost use Rattle.brk_ref.specs.Rows.{abstract_history_row, abstract_trade_row};
ghost use Rattle.brk_desk_queries.specs.QueryResults.{AnswersQueryAsModel};
ghost use Rattle.brk_model.specs.Joins.{history_rows_with_trade_id};
ghost use Rattle.brk_model.specs.PositionView.{last_ten_trade_rows};
ghost use Rattle.brk_model.specs.Queries.{RecentOf};
ghost use Rattle.brk_store_transactions.specs.Holds.{ReadPost};

use brk_money::{CallFault, Id, Planned, Refusal};
use brk_ref::{HistoryRow, TradeRow};
use brk_store::Store;
use brk_view_rows::{View, recent};
use sqlite::Alter;
use std::alloc::{AllocError, Global};

fn append_history_rows(history: &mut Vec<HistoryRow>, rows: &[HistoryRow]) -> Result<(), AllocError>
    ensures { OnOk result (history.new.items ≡ history.old.items ++ rows.now) }
{
    for row in rows {
        history.push(*row)?;
    }
    Ok(())
}

// Returns the last ten trades, and the status changes of all of them.
fn recent_trades_with_history<S: Alter>(
    alloc: Global,
    store: &mut Store<S>,
    account: Id,
) -> Result<(Vec<TradeRow>, Vec<HistoryRow>), CallFault>
    ensures { ReadPost S.Store store.old store.new result (λ found t.
        (map abstract_trade_row found.0.items ≡ last_ten_trade_rows t account)
        × (map abstract_history_row found.1.items ≡ flat_map (λ row. history_rows_with_trade_id t row.id) (last_ten_trade_rows t account))) }
{
    let trades = store.last_ten_trades(alloc, account)?;
    let mut history = Vec::new(alloc);
    for trade in &trades {
        let rows = store.history_of_trade(alloc, trade.id)?;
        append_history_rows(&mut history, &rows)?;
    }
    Ok((trades, history))
}

/// Returns the view of an account's last ten trades, sorted by the stamp of the last status, then
/// by id, descending, and of their status changes, sorted by stamp, then by trade id, descending.
/// Refuses an unknown account with `NoAccount`.
pub fn recent_view<S: Alter>(
    alloc: Global,
    store: &mut Store<S>,
    account: Id,
) -> Planned<View, CallFault>
    ensures { ReadPost S.Store store.old store.new result (AnswersQueryAsModel (RecentOf account)) }
{
    let Some(found) = store.account(account)? else {
        return Ok(Err(Refusal::NoAccount));
    };
    let (trades, history) = recent_trades_with_history(alloc, store, account)?;
    match recent(alloc, trades, history) {
        Ok(view) => Ok(Ok(view)),
        Err(_) => Err(CallFault::Memory),
    }
}
