//! Amounts that are never negative, and the absolute value of `Cents` as such an amount.

ghost use Rattle.std.specs.Prelude.{◌≡◌, ℕ, ◌≤◌, Some, SomeIff, nat_abs, pos};
ghost use Rattle.brk_money.specs.Spelling.{cents_text};
ghost use Rattle.brk_money.specs.declared.amount.TheConstants.Amount;

use crate::cents::Cents;
use crate::wide::Wide;
use std::fmt;
use std::marker::Model;

/// An amount that is never negative, such as a commission, a tax or the value of shares: whole
/// cents, 0 to 10^17, both included.
#[derive(Clone, Copy, PartialEq, Eq)]
pub struct Amount(u64);

impl Model for Amount {
    ghost Value = { ℕ };

    ghost view = { λ amount. amount.0 };

    ghost inverse = { λ n. record { 0 = n } };

    ghost invariant = { λ amount. amount.0 ≤ Amount.GREATEST };
}

impl Amount {
    /// The greatest amount, in cents.
    pub const GREATEST: u64 = 100_000_000_000_000_000;

    pub fn new(cents: u64) -> Option<Amount>
        ensures { SomeIff result (cents ≤ Amount.GREATEST) cents }
    {
        if cents <= Amount::GREATEST {
            Some(Amount(cents))
        } else {
            None
        }
    }

    pub fn get(self) -> u64
        ensures value { result ≡ self }
        ensures high { self ≤ Amount.GREATEST }
    {
        self.0
    }
}

impl Cents {
    pub fn unsigned_abs(self) -> Amount
        ensures { result ≡ nat_abs self }
    {
        Amount(self.get().unsigned_abs())
    }
}

impl From<Amount> for Wide {
    ghost from_gives = { λ amount wide. wide ≡ pos amount };

    fn from(amount: Amount) -> Wide {
        Wide::new(i128::from(amount.get()))
    }
}

/// Writes the canonical text of an amount, such as `12.05`.
impl fmt::Display for Amount {
    ghost output = { λ amount. Some (cents_text (pos amount)) };

    fn fmt<W: fmt::Write>(&self, f: &mut fmt::Formatter<W>) -> fmt::Result {
        fmt::Display::fmt(&Wide::from(*self), f)
    }
}
