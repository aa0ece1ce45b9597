//! Lots and their changes, and the side and the sign of a number of shares.

ghost use Rattle.std.specs.Prelude.{◌≡◌, ◌≤◌, ◌-◌};
ghost use Rattle.std.specs.Int.RustNames.{unsigned_abs};
ghost use Rattle.brk_money.specs.Kinds.{is_same_side};
ghost use Rattle.brk_model.specs.Shares.{signed_by_side};
ghost use Rattle.brk_lots.specs.Lots.{side_of_qty};

use brk_money::{Id, Price, Side, Stamp};

/// The remaining shares that one trade opened (HOLDING). The quantity is above 0 if they were
/// bought, and below 0 if they were sold short.
#[derive(Clone, Copy, PartialEq, Eq)]
pub struct Lot {
    /// The trade that opened it.
    pub trade: Id,
    pub price: Price,
    pub qty: i64,
    /// The stamp of the trade's completion.
    pub stamp: Stamp,
}

/// A change of a lot by a trade that reduced, closed or opened it (HOLDING_HISTORY): the lot's
/// quantity before and after.
#[derive(Clone, Copy, PartialEq, Eq)]
pub struct Touch {
    /// The trade that opened the lot.
    pub lot: Id,
    /// The signed quantity of the lot before the change and after it.
    pub before: i64,
    pub after: i64,
}

impl Lot {
    pub fn side(&self) -> Side
        ensures { result ≡ side_of_qty self.now.qty }
    {
        if self.qty < 0 { Side::Sell } else { Side::Buy }
    }

    pub fn share_count(&self) -> u64
        ensures { result ≡ unsigned_abs self.now.qty }
    {
        self.qty.unsigned_abs()
    }

    fn qty_after_closing(&self, shares: u32) -> i64
        requires { shares ≤ unsigned_abs self.now.qty }
        ensures { result ≡ signed_by_side (side_of_qty self.now.qty) (unsigned_abs self.now.qty - shares) }
    {
        if self.qty < 0 {
            self.qty + i64::from(shares)
        } else {
            self.qty - i64::from(shares)
        }
    }

    pub(crate) fn closing_touch(&self, shares: u32) -> Touch
        requires { shares ≤ unsigned_abs self.now.qty }
        ensures { result
            ≡ record { lot = self.now.trade; before = self.now.qty; after = signed_by_side (side_of_qty self.now.qty) (unsigned_abs self.now.qty - shares) } }
    {
        Touch {
            lot: self.trade,
            before: self.qty,
            after: self.qty_after_closing(shares),
        }
    }
}

pub fn are_same_side(a: Side, b: Side) -> bool
    ensures { result ≡ is_same_side a b }
{
    match (a, b) {
        (Side::Buy, Side::Buy) | (Side::Sell, Side::Sell) => true,
        _ => false,
    }
}

/// Returns `shares` for a purchase and `-shares` for a sale.
pub fn signed_qty(side: Side, shares: u32) -> i64
    ensures { result ≡ signed_by_side side shares }
{
    match side {
        Side::Buy => i64::from(shares),
        Side::Sell => -i64::from(shares),
    }
}
