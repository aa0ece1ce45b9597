//! The facts of the explanation of a trade: the trade as ordered, and its results.

use crate::closing::Closing;
use brk_money::{Day, Price, Wide};
use brk_ref::{
    AccountRow, Band, CashRow, HistoryRow, LotChange, Security, SettlementRow, Tax, TradeRow,
};

/// A trade as ordered, with the rows of its account and its security, and its status changes.
#[derive(Drop)]
pub struct OrderDetails {
    pub trade: TradeRow,
    pub account: AccountRow,
    pub security: Security,
    /// The status changes, oldest first.
    pub statuses: Vec<HistoryRow>,
}

/// The results of a completed trade.
#[derive(Drop)]
pub struct ResultDetails {
    pub price: Price,
    /// The lots of which the trade closed shares, in the order of closing.
    pub closings: Vec<Closing>,
    /// The change with which the trade opened a lot, or `None` if it opened none.
    pub own_lot: Option<LotChange>,
    /// The tax rates of the trade's customer, as they are now.
    pub rates: Vec<Tax>,
    /// The commission band of the trade, as it is now, if there is one.
    pub band: Option<Band>,
    pub settlement: SettlementRow,
    /// The cash row of the trade, if it has one.
    pub cash: Option<CashRow>,
    /// The sum of the account's cash rows before the completion of the trade, in cents.
    pub cash_before: Wide,
    /// The number of the account's cash rows before the completion of the trade.
    pub cash_rows: u64,
    /// The first day whose completions settle after one day, as it is now.
    pub rule: Option<Day>,
}

/// The facts that the explanation of a trade reads: the trade as ordered, and its results if it is
/// completed.
#[derive(Drop)]
pub struct TradeDetails {
    pub order: OrderDetails,
    pub result: Option<ResultDetails>,
}
