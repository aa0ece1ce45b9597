//! The first and the last stamp of a day, in milliseconds since 1970-01-01 UTC.

ghost use Rattle.std.specs.Prelude.{◌≡◌, ◌+◌, ◌-◌, ◌*◌};
ghost use Rattle.brk_money.specs.Moments.{milliseconds_per_day};

use brk_money::{Day, Stamp};

const MILLISECONDS_PER_DAY: i64 = 86_400_000;

pub fn start_of_day(day: Day) -> Stamp
    ensures { result ≡ day * milliseconds_per_day }
{
    Stamp::nearest(i64::from(day.get()) * MILLISECONDS_PER_DAY)
}

pub fn end_of_day(day: Day) -> Stamp
    ensures { result ≡ day * milliseconds_per_day + (milliseconds_per_day - 1) }
{
    Stamp::nearest(i64::from(day.get()) * MILLISECONDS_PER_DAY + (MILLISECONDS_PER_DAY - 1))
}
