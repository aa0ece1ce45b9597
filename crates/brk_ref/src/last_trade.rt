use crate::symbol::Symbol;
use crate::volume::Volume;
use brk_money::{Price, Stamp};

/// The last trade of a security on the market (a row of LAST_TRADE).
#[derive(Drop)]
pub struct LastTrade {
    pub symbol: Symbol,
    pub stamp: Stamp,
    pub price: Price,
    pub volume: Volume,
}
