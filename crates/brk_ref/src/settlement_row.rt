use crate::cash_type::CashType;
use brk_money::{Cents, Day, Id};

/// The amount that a completed trade settles for, and the day (a row of SETTLEMENT). The amount is
/// below 0 if the account pays.
#[derive(Clone, Copy)]
pub struct SettlementRow {
    pub trade: Id,
    pub cash_type: CashType,
    pub due_day: Day,
    pub amount: Cents,
}
