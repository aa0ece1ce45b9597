use brk_money::{Id, Stamp, Status};

/// A status that a trade reached, with the stamp at which it did (a row of TRADE_HISTORY).
#[derive(Clone, Copy)]
pub struct HistoryRow {
    pub trade: Id,
    pub status: Status,
    pub stamp: Stamp,
}
