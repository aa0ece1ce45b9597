use crate::symbol::Symbol;
use brk_money::{Id, Price, Qty, TradeType};

/// The request of a pending trade (a row of TRADE_REQUEST).
#[derive(Drop)]
pub struct RequestRow {
    pub trade: Id,
    pub kind: TradeType,
    pub symbol: Symbol,
    pub qty: Qty,
    pub bid: Price,
    pub broker: Id,
}
