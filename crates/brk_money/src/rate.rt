ghost use Rattle.std.specs.Prelude.{◌≡◌, ◌≤◌, ℕ, SomeIff};
ghost use Rattle.brk_money.specs.declared.rate.TheConstants.Rate;

use std::marker::Model;

/// A commission rate in hundredths of a percent: 0 to 10,000, both included (CR_RATE).
#[derive(Clone, Copy, Debug, PartialEq, Eq)]
pub struct Rate(u32);

impl Model for Rate {
    ghost Value = { ℕ };

    ghost view = { λ rate. rate.0 };

    ghost inverse = { λ n. record { 0 = n } };

    ghost invariant = { λ rate. rate.0 ≤ Rate.GREATEST };
}

impl Rate {
    /// The greatest rate, 100 percent: the commission is the whole value of the trade.
    pub const GREATEST: u32 = 10_000;

    pub fn new(hundredths: u32) -> Option<Rate>
        ensures { SomeIff result (hundredths ≤ Rate.GREATEST) hundredths }
    {
        if hundredths <= Rate::GREATEST {
            Some(Rate(hundredths))
        } else {
            None
        }
    }

    pub fn get(self) -> u32
        ensures value { result ≡ self }
        ensures high { self ≤ Rate.GREATEST }
    {
        self.0
    }
}
