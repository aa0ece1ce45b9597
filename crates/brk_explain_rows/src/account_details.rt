use brk_money::Price;
use brk_ref::{AccountRow, SummaryRow};

/// A holding summary, with the last price of its symbol.
#[derive(Drop)]
pub struct PricedHolding {
    pub summary: SummaryRow,
    pub price: Price,
}

/// The row of an account, and its holding summaries with their last prices.
#[derive(Drop)]
pub struct AccountDetails {
    pub account: AccountRow,
    /// Its holding summaries, sorted by symbol, ascending.
    pub held: Vec<PricedHolding>,
}
