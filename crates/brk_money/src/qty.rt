ghost use Rattle.std.specs.Prelude.{◌≡◌, ◌≤◌, ℕ, SomeIff};
ghost use Rattle.brk_money.specs.declared.qty.TheConstants.Qty;

use std::marker::Model;

/// The quantity of an order, a band or a tick: 1 to 9,999,999 shares, both included.
#[derive(Clone, Copy, Debug, PartialEq, Eq)]
pub struct Qty(u32);

impl Model for Qty {
    ghost Value = { ℕ };

    ghost view = { λ qty. qty.0 };

    ghost inverse = { λ n. record { 0 = n } };

    ghost invariant = { λ qty. (1 ≤ qty.0) × (qty.0 ≤ Qty.GREATEST) };
}

impl Qty {
    /// The greatest quantity.
    pub const GREATEST: u32 = 9_999_999;

    pub fn new(shares: u32) -> Option<Qty>
        ensures { SomeIff result ((1 ≤ shares) × (shares ≤ Qty.GREATEST)) shares }
    {
        if 1 <= shares && shares <= Qty::GREATEST {
            Some(Qty(shares))
        } else {
            None
        }
    }

    pub fn get(self) -> u32
        ensures value { result ≡ self }
        ensures low { 1 ≤ self }
        ensures high { self ≤ Qty.GREATEST }
    {
        self.0
    }
}
