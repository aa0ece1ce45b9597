use crate::symbol::Symbol;
use brk_money::Id;

/// The number of shares of a security that an account holds in all, below 0 if they were sold short
/// (a row of HOLDING_SUMMARY).
#[derive(Drop)]
pub struct SummaryRow {
    pub account: Id,
    pub symbol: Symbol,
    pub qty: i64,
}
