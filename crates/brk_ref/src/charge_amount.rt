ghost use Rattle.std.specs.Prelude.{◌≡◌, ℕ, ◌≤◌, pos, Some, SomeIff};
ghost use Rattle.brk_money.specs.Spelling.{cents_text};
ghost use Rattle.brk_ref.specs.declared.charge_amount.TheConstants.ChargeAmount;

use brk_money::Wide;
use std::fmt;
use std::marker::Model;

/// The cost of an order in addition to its commission (CH_CHRG), in cents, 0 to 1,000,000.
#[derive(Clone, Copy, Debug, PartialEq, Eq)]
pub struct ChargeAmount(u32);

impl Model for ChargeAmount {
    ghost Value = { ℕ };

    ghost view = { λ amount. amount.0 };

    ghost inverse = { λ n. record { 0 = n } };

    ghost invariant = { λ amount. amount.0 ≤ ChargeAmount.GREATEST };
}

impl ChargeAmount {
    /// The greatest charge, in cents.
    pub const GREATEST: u32 = 1_000_000;

    pub fn new(cents: u32) -> Option<ChargeAmount>
        ensures { SomeIff result (cents ≤ ChargeAmount.GREATEST) cents }
    {
        if cents <= ChargeAmount::GREATEST {
            Some(ChargeAmount(cents))
        } else {
            None
        }
    }

    pub fn get(self) -> u32
        ensures value { result ≡ self }
        ensures high { self ≤ ChargeAmount.GREATEST }
    {
        self.0
    }
}

/// Writes the canonical text of a charge, such as `12.05`.
impl fmt::Display for ChargeAmount {
    ghost output = { λ amount. Some (cents_text (pos amount)) };

    fn fmt<W: fmt::Write>(&self, f: &mut fmt::Formatter<W>) -> fmt::Result {
        fmt::Display::fmt(&Wide::new(i128::from(self.get())), f)
    }
}
