use crate::symbol::Symbol;
use brk_money::{Id, Price, Stamp};

/// A lot: the remaining shares that a trade opened (a row of HOLDING).
///
/// The quantity is below 0 if the shares were sold short. The price, in cents, and the stamp
/// come from the completion of the trade.
#[derive(Drop)]
pub struct HoldingRow {
    pub trade: Id,
    pub account: Id,
    pub symbol: Symbol,
    pub stamp: Stamp,
    pub price: Price,
    pub qty: i64,
}
