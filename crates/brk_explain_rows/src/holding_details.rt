use brk_money::{Id, Price, Stamp};
use brk_ref::{AccountRow, Security, TradeRow};

/// A change of a lot by a trade after the one that opened the lot. The quantities are below 0 if
/// the lot was sold short.
#[derive(Clone, Copy)]
pub struct PricedLotChange {
    /// The trade that changed the lot.
    pub trade: Id,
    /// The stamp at which that trade was completed.
    pub stamp: Stamp,
    /// The price of that trade.
    pub price: Price,
    pub before: i64,
    pub after: i64,
}

/// A lot that a completed trade opened.
#[derive(Drop)]
pub struct LotDetails {
    /// The trade that opened the lot.
    pub trade: TradeRow,
    /// The number of shares that the trade opened, below 0 if it sold short.
    pub opened: i64,
    /// The changes of the lot by trades after that one, in the order of their completion.
    pub changes: Vec<PricedLotChange>,
}

/// The facts that the explanation of the holding of an account in a security reads.
#[derive(Drop)]
pub struct HoldingDetails {
    pub account: AccountRow,
    pub security: Security,
    /// The completed trades of the account in the security, in the order of completion.
    pub done: Vec<TradeRow>,
    /// The lots that these trades opened, in the order of opening.
    pub lots: Vec<LotDetails>,
    /// The number of shares that the account holds, below 0 if they were sold short.
    pub shares: i64,
    /// The last price of the security.
    pub price: Price,
}
