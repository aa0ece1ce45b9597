use brk_money::{Id, Price, Qty, Side, Stamp};

/// The effect of a completed trade on the position of its account and security: side, quantity,
/// price, and which lots it closes first.
#[derive(Clone, Copy, PartialEq, Eq)]
pub struct Deal {
    pub trade: Id,
    pub side: Side,
    pub qty: Qty,
    pub price: Price,
    /// The stamp of the completion.
    pub stamp: Stamp,
    /// True if it closes the newest lots first, false if the oldest.
    pub lifo: bool,
}
