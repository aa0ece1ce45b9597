//! The trades whose texts a text update replaces, and what the new texts are formed from.

use brk_money::{Id, Qty, TradeType};
use brk_ref::{CashType, Name, TradeRow};

/// A completed trade with its settlement text (SE_CASH_TYPE). `is_cash` is true for a cash trade
/// and false for a margin trade.
#[derive(Clone, Copy)]
pub struct SettlementText {
    pub trade: Id,
    pub is_cash: bool,
    pub cash_type: CashType,
}

/// A completed cash trade with the text of its cash row (CM_NAME), and the type and the quantity
/// from which its new text is formed.
#[derive(Drop)]
pub struct CashText {
    pub trade: Id,
    pub kind: TradeType,
    pub qty: Qty,
    pub name: String,
}

/// The trades whose text a text update replaces, in sequence, with the present texts and the values
/// from which the new ones are formed.
#[derive(Drop)]
pub enum TextUpdate {
    /// Trades whose executors' names are updated.
    Executors(Vec<TradeRow>),
    /// Trades whose settlement texts are updated.
    CashTypes(Vec<SettlementText>),
    /// Trades whose cash texts are updated. The name equals that of their security.
    CashNames(Name, Vec<CashText>),
}
