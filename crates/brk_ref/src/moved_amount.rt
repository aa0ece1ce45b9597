ghost use Rattle.std.specs.Prelude.{◌≡◌, ℕ, ◌≤◌, pos, Some, SomeIff};
ghost use Rattle.brk_money.specs.Spelling.{cents_text};
ghost use Rattle.brk_ref.specs.declared.moved_amount.TheConstants.MovedAmount;

use brk_money::Wide;
use std::fmt;
use std::marker::Model;

/// The amount of a deposit or a withdrawal, in cents, 1 to 10^17, both included.
#[derive(Clone, Copy, Debug, PartialEq, Eq)]
pub struct MovedAmount(u64);

impl Model for MovedAmount {
    ghost Value = { ℕ };

    ghost view = { λ amount. amount.0 };

    ghost inverse = { λ n. record { 0 = n } };

    ghost invariant = { λ amount. (1 ≤ amount.0) × (amount.0 ≤ MovedAmount.GREATEST) };
}

impl MovedAmount {
    /// The greatest amount, in cents.
    pub const GREATEST: u64 = 100_000_000_000_000_000;

    pub fn new(cents: u64) -> Option<MovedAmount>
        ensures { SomeIff result ((1 ≤ cents) × (cents ≤ MovedAmount.GREATEST)) cents }
    {
        if 1 <= cents && cents <= MovedAmount::GREATEST {
            Some(MovedAmount(cents))
        } else {
            None
        }
    }

    pub fn get(self) -> u64
        ensures value { result ≡ self }
        ensures low { 1 ≤ self }
        ensures high { self ≤ MovedAmount.GREATEST }
    {
        self.0
    }
}

/// Writes the canonical text of an amount, such as `12.05`.
impl fmt::Display for MovedAmount {
    ghost output = { λ amount. Some (cents_text (pos amount)) };

    fn fmt<W: fmt::Write>(&self, f: &mut fmt::Formatter<W>) -> fmt::Result {
        fmt::Display::fmt(&Wide::new(i128::from(self.get())), f)
    }
}
