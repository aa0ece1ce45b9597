use brk_money::{Cents, Id, MoveId, Stamp};

/// A row of CASH_MOVE: cash that was posted to an account by a completed cash trade, with a text
/// that describes the trade, or by a deposit or a withdrawal, which have no trade.
#[derive(Drop)]
pub struct CashRow {
    /// Its position among the cash rows of all accounts, from 1 (CM_ID).
    pub id: MoveId,
    pub account: Id,
    pub trade: Option<Id>,
    pub stamp: Stamp,
    pub amount: Cents,
    pub name: String,
}
