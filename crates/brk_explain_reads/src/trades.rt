//! The facts that the explanation of a trade reads.

ghost use Rattle.std.specs.Prelude.{◌≡◌};
ghost use Rattle.brk_explain_rows.specs.Details.{AreDetailsOfTrade};
ghost use Rattle.brk_money.specs.Kinds.{is_same_trade_status};
ghost use Rattle.brk_money.specs.declared.status.Status.TheVariants.{Completed};
ghost use Rattle.brk_store_transactions.specs.Holds.{ReadPost};

use crate::orders::read_order_details;
use crate::results::read_result_details;
use brk_explain_rows::TradeDetails;
use brk_money::{CallFault, Id, Status};
use brk_ref::TradeRow;
use brk_store::Store;
use sqlite::Alter;
use std::alloc::Global;

fn is_completed(trade: &TradeRow) -> bool
    ensures { result ≡ is_same_trade_status trade.now.status Completed }
{
    trade.status == Status::Completed
}

/// Returns a trade with its account, security and status changes, and with its results if it is
/// completed, or `None` if it does not exist. Fails with `Store` also if a row or a price that the
/// explanation requires is missing, or if the number or the sum of the account's cash rows before
/// the trade overflows.
pub fn gather_trade<S: Alter>(
    alloc: Global,
    store: &mut Store<S>,
    trade: Id,
) -> Result<Option<TradeDetails>, CallFault>
    ensures { ReadPost S.Store store.old store.new result (AreDetailsOfTrade trade) }
{
    let Some(row) = store.trade(trade)? else {
        return Ok(None);
    };
    let order = read_order_details(alloc, store, row)?;
    if !is_completed(&order.trade) {
        return Ok(Some(TradeDetails {
            order,
            result: None,
        }));
    }
    let outcome = read_result_details(alloc, store, &order)?;
    Ok(Some(TradeDetails {
        order,
        result: Some(outcome),
    }))
}
