//! The results of a completed trade.

ghost use Rattle.brk_explain_reads.specs.Found.{IsResultOfOrder};
ghost use Rattle.brk_store_transactions.specs.Holds.{ReadPost};

use crate::cash::cash_sum_before;
use crate::settled::read_settlement;
use crate::terms::read_tax_rates_with_band;
use crate::trade_lots::read_trade_lots;
use brk_explain_rows::{OrderDetails, ResultDetails};
use brk_money::CallFault;
use brk_store::Store;
use sqlite::Alter;
use std::alloc::Global;

// The clause says something only if `order` has the rows and the status changes of its trade.
pub(crate) fn read_result_details<S: Alter>(
    alloc: Global,
    store: &mut Store<S>,
    order: &OrderDetails,
) -> Result<ResultDetails, CallFault>
    ensures { ReadPost S.Store store.old store.new result (λ details t. IsResultOfOrder order.now details t) }
{
    let lots = read_trade_lots(alloc, store, &order.trade)?;
    let Some(price) = order.trade.price else {
        return Err(CallFault::Store);
    };
    let terms = read_tax_rates_with_band(alloc, store, order)?;
    let settled = read_settlement(store, order.trade.id)?;
    let cash = cash_sum_before(store, order.trade.account, order.trade.stamp)?;
    Ok(ResultDetails {
        price,
        closings: lots.closings,
        own_lot: lots.own_lot,
        rates: terms.rates,
        band: terms.band,
        settlement: settled.settlement,
        cash: settled.cash,
        cash_before: cash.total,
        cash_rows: cash.rows,
        rule: settled.rule,
    })
}
