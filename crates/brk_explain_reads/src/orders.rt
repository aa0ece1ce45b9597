//! A trade as ordered, with the rows that it names.

ghost use Rattle.std.specs.Prelude.{◌≡◌, map};
ghost use Rattle.brk_ref.specs.Rows.{abstract_history_row};
ghost use Rattle.brk_model_explain.specs.Trades.{sorted_statuses_of_trade};
ghost use Rattle.brk_explain_reads.specs.Found.{IsOrderOfTrade};
ghost use Rattle.brk_store_transactions.specs.Holds.{ReadPost};

use crate::ordering::sort_by_age;
use brk_explain_rows::OrderDetails;
use brk_money::{CallFault, Id};
use brk_ref::{HistoryRow, TradeRow};
use brk_store::Store;
use brk_store_required::{require_account, require_security};
use sqlite::Alter;
use std::alloc::Global;

// Returns the oldest first.
fn read_statuses<S: Alter>(
    alloc: Global,
    store: &mut Store<S>,
    trade: Id,
) -> Result<Vec<HistoryRow>, CallFault>
    ensures { ReadPost S.Store store.old store.new result (λ statuses t. map abstract_history_row statuses.items ≡ sorted_statuses_of_trade t trade) }
{
    let history = store.history_of_trade(alloc, trade)?;
    let statuses = sort_by_age(alloc, history)?;
    Ok(statuses)
}

pub(crate) fn read_order_details<S: Alter>(
    alloc: Global,
    store: &mut Store<S>,
    trade: TradeRow,
) -> Result<OrderDetails, CallFault>
    ensures { ReadPost S.Store store.old store.new result (λ order t. IsOrderOfTrade trade order t) }
{
    let account = require_account(store, trade.account)?;
    let security = require_security(store, &trade.symbol)?;
    let statuses = read_statuses(alloc, store, trade.id)?;
    Ok(OrderDetails {
        trade,
        account,
        security,
        statuses,
    })
}
