ghost use Rattle.std.specs.Int.RustNames.{unsigned_abs};
ghost use Rattle.std.specs.Prelude.{◌≡◌, ◌+◌, ◌≤◌, ◌≤ℤ◌, ℕ, pos, IfSome, SomeIff, option_map};
ghost use Rattle.brk_money.specs.Moments as spec;

use crate::stamp::Stamp;
use std::marker::Model;

/// A day as the number of days since 1970-01-01, up to 9999-12-31: 0 to 2932896, both included
/// (SE_CASH_DUE_DATE).
#[derive(Clone, Copy, Debug, PartialEq, Eq)]
pub struct Day(i32);

impl Model for Day {
    ghost use Rattle.std.specs.Prelude.{ℕ, pos, ◌≤ℤ◌};
    ghost use Rattle.std.specs.Int.RustNames.{unsigned_abs};
    ghost use Rattle.std.proofs.Common.{arith};
    ghost use Rattle.brk_money.specs.Moments.{greatest_day};

    ghost Value = { ℕ };

    ghost view = { λ a. unsigned_abs a.0 };

    ghost inverse = { λ n. record { 0 = pos n } };

    ghost invariant = { λ a. (pos 0 ≤ℤ a.0) × (a.0 ≤ℤ pos greatest_day) };
}

impl Day {
    /// The greatest day: 9999-12-31.
    pub const GREATEST: i32 = 2_932_896;

    pub fn new(days: i32) -> Option<Day>
        ensures found { IfSome result (λ day. days ≡ pos day) }
        ensures limits { SomeIff (option_map (λ day. pos day) result) ((pos 0 ≤ℤ days) × (days ≤ℤ pos spec.greatest_day)) days }
    {
        if 0 <= days && days <= Day::GREATEST {
            Some(Day(days))
        } else {
            None
        }
    }

    pub fn get(self) -> i32
        ensures value { result ≡ pos self }
        ensures high { self ≤ spec.greatest_day }
    {
        self.0
    }

    /// Returns the day `days` days after this one, or `None` if it is after 9999-12-31.
    pub fn days_later(self, days: u16) -> Option<Day>
        ensures { SomeIff result (self + days ≤ spec.greatest_day) (self + days) }
    {
        Day::new(self.0 + i32::from(days))
    }
}

/// Returns the UTC day of a stamp.
pub fn day_of(stamp: Stamp) -> Day
    ensures { result ≡ spec.day_of stamp }
{
    Day((stamp.get() / 86_400_000) as i32)
}
