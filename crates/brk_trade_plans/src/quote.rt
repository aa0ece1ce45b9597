use brk_ref::{LastTrade, RequestRow};

/// The last trade of one security on the market, and its pending requests, sorted by trade,
/// ascending.
#[derive(Drop)]
pub struct Quote {
    pub last: LastTrade,
    pub requests: Vec<RequestRow>,
}
