//! Decisions on commands that set the first day of one-day settlement.

ghost use Rattle.brk_trade_theorems.specs.Decisions.{DecidesCommand};
ghost use Rattle.brk_model.specs.Commands.{SetOneDay};
ghost use Rattle.brk_store_transactions.specs.Holds.{ReadPost};

use brk_money::{CallFault, Day, Planned, Stamp};
use brk_store::Store;
use brk_trade::{Plan, plan_oneday};
use sqlite::Alter;
use std::alloc::Global;

/// Decides on `day` as the first day whose completions settle after one day, at the clock reading
/// `now`: returns the plan that sets it, or the refusal.
pub fn decide_oneday<S: Alter>(
    alloc: Global,
    store: &mut Store<S>,
    now: Stamp,
    day: Day,
) -> Planned<Plan, CallFault>
    ensures { ReadPost S.Store store.old store.new result (DecidesCommand now (SetOneDay day)) }
{
    // The value is not needed: the call shows that the stamp is at most the greatest stamp.
    let _moment = now.get();
    let last = store.last_stamp()?;
    let rule = store.one_day_start()?;
    plan_oneday(alloc, day, rule, last, now).map_err(|_| CallFault::Memory)
}
