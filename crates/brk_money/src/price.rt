ghost use Rattle.std.specs.Prelude.{◌≡◌, ◌≤◌, ℕ, SomeIff};
ghost use Rattle.brk_money.specs.declared.price.TheConstants.Price;

use std::marker::Model;

/// The price of one share in cents: 1 to 9,999,999, both included.
#[derive(Clone, Copy, Debug, PartialEq, Eq)]
pub struct Price(u32);

impl Model for Price {
    ghost Value = { ℕ };

    ghost view = { λ price. price.0 };

    ghost inverse = { λ n. record { 0 = n } };

    ghost invariant = { λ price. (1 ≤ price.0) × (price.0 ≤ Price.GREATEST) };
}

impl Price {
    /// The greatest price, in cents.
    pub const GREATEST: u32 = 9_999_999;

    pub fn new(cents: u32) -> Option<Price>
        ensures { SomeIff result ((1 ≤ cents) × (cents ≤ Price.GREATEST)) cents }
    {
        if 1 <= cents && cents <= Price::GREATEST {
            Some(Price(cents))
        } else {
            None
        }
    }

    pub fn get(self) -> u32
        ensures value { result ≡ self }
        ensures low { 1 ≤ self }
        ensures high { self ≤ Price.GREATEST }
    {
        self.0
    }
}
