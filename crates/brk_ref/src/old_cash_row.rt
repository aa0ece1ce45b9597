use brk_money::{Cents, Id, Stamp};

/// A row of CASH_TRANSACTION, which has rows in schema 1 only: the cash that a completed cash trade
/// moved on its account, with a text that describes the trade.
#[derive(Drop)]
pub struct OldCashRow {
    pub trade: Id,
    pub stamp: Stamp,
    pub amount: Cents,
    pub name: String,
}
