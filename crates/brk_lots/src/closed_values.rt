//! The buy value and the sell value of the shares that a trade closes.

ghost use Rattle.std.specs.Prelude.{◌≡◌, ◌*◌, ◌≤◌};
ghost use Rattle.brk_model.specs.Limits.{greatest_amount};
ghost use Rattle.brk_lots.specs.ClosedValues.{closing_values_by_side};

use brk_money::{Amount, Price, Side};

/// Buy value and sell value of shares that a trade closes, in cents.
#[derive(Clone, Copy, PartialEq, Eq)]
pub struct Values {
    pub buy_value: Amount,
    pub sell_value: Amount,
}

/// Returns the values of `shares` shares that a trade closes at `price` and that were opened at the
/// value `opened`, in cents: a purchase closes shares that were sold for `opened`, a sale shares
/// that were bought for it.
pub fn share_values(side: Side, shares: u32, price: Price, opened: u64) -> Values
    requires traded { shares * price ≤ greatest_amount }
    requires opened { opened ≤ greatest_amount }
    ensures { result ≡ closing_values_by_side side (shares * price) opened }
{
    let traded = Amount::new(u64::from(shares) * u64::from(price.get())).unwrap();
    let opened = Amount::new(opened).unwrap();
    match side {
        Side::Buy => Values {
            buy_value: traded,
            sell_value: opened,
        },
        Side::Sell => Values {
            buy_value: opened,
            sell_value: traded,
        },
    }
}
