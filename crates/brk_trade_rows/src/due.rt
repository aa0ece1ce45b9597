//! The day on which a completed trade settles.

ghost use Rattle.std.specs.Prelude.{◌≡◌, ◌≤◌, SomeIff};
ghost use Rattle.brk_money.specs.Moments.{greatest_day};
ghost use Rattle.brk_model.specs.Derived as derived;

use brk_money::{Day, Stamp, day_of};

/// Returns 1 if `day`, the UTC day of the completion, is on or after `rule`, the first day of one-day
/// settlement, otherwise 2.
pub fn days_to_settlement(rule: Option<Day>, day: Day) -> u16
    ensures { result ≡ derived.days_to_settlement rule day }
{
    match rule {
        Some(first) => { if first.get() <= day.get() { 1 } else { 2 } }
        None => 2,
    }
}

/// Returns the day on which a trade that is completed at `stamp` settles, or `None` if it is after
/// 9999-12-31.
pub fn completion_due_day(rule: Option<Day>, stamp: Stamp) -> Option<Day>
    ensures { SomeIff result (derived.due_day_of_completion_stamp rule stamp ≤ greatest_day) (derived.due_day_of_completion_stamp rule stamp) }
{
    let day = day_of(stamp);
    day.days_later(days_to_settlement(rule, day))
}
