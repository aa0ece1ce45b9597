ghost use Rattle.std.specs.Prelude.{◌≡◌, ℕ, ◌≤◌, SomeIff};
ghost use Rattle.brk_ref.specs.declared.row_number.TheConstants.RowNumber;

use std::marker::Model;

/// The number of a row within its batch (K_N), 1 to 10^12.
#[derive(Clone, Copy)]
pub struct RowNumber(u64);

impl Model for RowNumber {
    ghost Value = { ℕ };

    ghost view = { λ number. number.0 };

    ghost inverse = { λ n. record { 0 = n } };

    ghost invariant = { λ number. (1 ≤ number.0) × (number.0 ≤ RowNumber.GREATEST) };
}

impl RowNumber {
    /// The greatest number of a row.
    pub const GREATEST: u64 = 1_000_000_000_000;

    pub fn new(number: u64) -> Option<RowNumber>
        ensures { SomeIff result ((1 ≤ number) × (number ≤ RowNumber.GREATEST)) number }
    {
        if 1 <= number && number <= RowNumber::GREATEST {
            Some(RowNumber(number))
        } else {
            None
        }
    }

    pub fn get(self) -> u64
        ensures value { result ≡ self }
        ensures low { 1 ≤ self }
        ensures high { self ≤ RowNumber.GREATEST }
    {
        self.0
    }
}
