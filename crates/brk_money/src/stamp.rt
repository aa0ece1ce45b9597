ghost use Rattle.std.specs.Int.RustNames.{unsigned_abs};
ghost use Rattle.std.specs.Prelude.{◌≡◌, ◌≤◌, ◌≤ℤ◌, ℕ, pos, IfSome, SomeIff, option_map};
ghost use Rattle.brk_money.specs.Moments as spec;

use std::marker::Model;

/// A timestamp in milliseconds since 1970-01-01 UTC, up to the last of 9999-12-31: 0 to
/// 253402300799999, both included.
#[derive(Clone, Copy, Debug, PartialEq, Eq)]
pub struct Stamp(i64);

impl Model for Stamp {
    ghost use Rattle.std.specs.Prelude.{ℕ, pos, ◌≤ℤ◌};
    ghost use Rattle.std.specs.Int.RustNames.{unsigned_abs};
    ghost use Rattle.std.proofs.Common.{arith};
    ghost use Rattle.brk_money.specs.Moments.{greatest_stamp};

    ghost Value = { ℕ };

    ghost view = { λ a. unsigned_abs a.0 };

    ghost inverse = { λ n. record { 0 = pos n } };

    ghost invariant = { λ a. (pos 0 ≤ℤ a.0) × (a.0 ≤ℤ pos greatest_stamp) };
}

impl Stamp {
    /// The greatest stamp: the last millisecond of 9999-12-31 UTC.
    pub const GREATEST: i64 = 253_402_300_799_999;

    pub fn new(millis: i64) -> Option<Stamp>
        ensures found { IfSome result (λ stamp. millis ≡ pos stamp) }
        ensures limits { SomeIff (option_map (λ stamp. pos stamp) result) ((pos 0 ≤ℤ millis) × (millis ≤ℤ pos spec.greatest_stamp)) millis }
    {
        if 0 <= millis && millis <= Stamp::GREATEST {
            Some(Stamp(millis))
        } else {
            None
        }
    }

    /// Returns the stamp `millis` milliseconds after 1970-01-01 UTC, or the first or last stamp if
    /// that is out of range.
    pub fn nearest(millis: i64) -> Stamp
        ensures within { pos 0 ≤ℤ millis → millis ≤ℤ pos spec.greatest_stamp → pos result ≡ millis }
        ensures below { millis ≤ℤ pos 0 → result ≡ 0 }
        ensures above { pos spec.greatest_stamp ≤ℤ millis → result ≡ spec.greatest_stamp }
    {
        Stamp(millis.max(0).min(Stamp::GREATEST))
    }

    pub fn get(self) -> i64
        ensures value { result ≡ pos self }
        ensures high { self ≤ spec.greatest_stamp }
    {
        self.0
    }
}

/// Returns the stamp of an accepted command: the clock's reading `now`, or the millisecond after
/// `last` if that is later. Returns `None` if `last` is the greatest stamp.
pub fn stamp_after(last: Option<Stamp>, now: Stamp) -> Option<Stamp>
    ensures { result ≡ spec.stamp_after last now }
{
    let Some(last) = last else {
        return Some(now);
    };
    if last.0 == Stamp::GREATEST {
        return None;
    }
    Some(Stamp(now.0.max(last.0 + 1)))
}
