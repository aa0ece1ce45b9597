//! The settlement of a trade, its cash row, and the first day of one-day settlement.

ghost use Rattle.brk_explain_reads.specs.Found.{IsSettlementAndCashOfTrade};
ghost use Rattle.brk_store_transactions.specs.Holds.{ReadPost};

use brk_money::{CallFault, Day, Id};
use brk_ref::{CashRow, SettlementRow};
use brk_store::Store;
use brk_store_required::require_settlement;
use sqlite::Alter;

/// The settlement and the cash row of a trade, and the first day of one-day settlement.
#[derive(Drop)]
pub struct SettlementAndCash {
    pub settlement: SettlementRow,
    /// The cash row of the trade, or `None` if it has none.
    pub cash: Option<CashRow>,
    /// The first day whose completions settle after one day, if it is set (SR_DAY).
    pub rule: Option<Day>,
}

// Reads also the cash row of the trade, and the first day of one-day settlement.
pub(crate) fn read_settlement<S: Alter>(
    store: &mut Store<S>,
    trade: Id,
) -> Result<SettlementAndCash, CallFault>
    ensures { ReadPost S.Store store.old store.new result (λ settled t. IsSettlementAndCashOfTrade t trade settled) }
{
    let settlement = require_settlement(store, trade)?;
    let cash = store.cash_row(trade)?;
    let rule = store.one_day_start()?;
    Ok(SettlementAndCash {
        settlement,
        cash,
        rule,
    })
}
