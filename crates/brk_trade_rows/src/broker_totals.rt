use crate::trade_count::TradeCount;
use brk_money::Amount;

/// The totals of a broker over the completed trades of its accounts.
#[derive(Clone, Copy, PartialEq, Eq)]
pub struct BrokerTotals {
    /// The number of these trades (B_NUM_TRADES).
    pub trades: TradeCount,
    /// The sum of their commissions, in cents (B_COMM_TOTAL).
    pub commissions: Amount,
}
