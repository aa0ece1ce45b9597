ghost use Rattle.std.specs.Prelude.{◌≡◌, ℕ, ◌≤◌, ◌^◌, SomeIff};
ghost use Rattle.brk_money.specs.declared.id.TheConstants.Id;

use std::marker::Model;

/// The number of a customer, an account, a broker, a trade or a tax rate: 1 to 10^12, both
/// included.
#[derive(Clone, Copy, Debug, PartialEq, Eq)]
pub struct Id(u64);

impl Model for Id {
    ghost Value = { ℕ };

    ghost view = { λ id. id.0 };

    ghost inverse = { λ n. record { 0 = n } };

    ghost invariant = { λ id. (1 ≤ id.0) × (id.0 ≤ Id.GREATEST) };
}

impl Id {
    /// The greatest id.
    pub const GREATEST: u64 = 1_000_000_000_000;

    pub fn new(number: u64) -> Option<Id>
        ensures { SomeIff result ((1 ≤ number) × (number ≤ Id.GREATEST)) number }
    {
        if 1 <= number && number <= Id::GREATEST {
            Some(Id(number))
        } else {
            None
        }
    }

    pub fn get(self) -> u64
        ensures value { result ≡ self }
        ensures low { 1 ≤ self }
        ensures high { self ≤ Id.GREATEST }
    {
        self.0
    }
}
