ghost use Rattle.std.specs.Prelude.{◌≡◌, ◌∷◌, [], IfOk, OnErr, Err, MatchResult, Some};
ghost use Rattle.brk_trade_rows.specs.declared.change.Change.TheVariants as change;
ghost use Rattle.brk_model.specs.Tests.{first_refusal};
ghost use Rattle.brk_money.specs.declared.fault.Fault.TheVariants.{Memory};
ghost use Rattle.brk_trade_plans.specs.OneDay.{IsOneDaySettlementPlan, one_day_settlement_checks};

use crate::plan::Plan;
use crate::reply::Reply;
use brk_money::{Day, Planned, Refusal, Stamp, day_of, stamp_after};
use brk_trade_rows::Change;
use std::alloc::{AllocError, Global};

fn one_day_changes(alloc: Global, day: Day, stamp: Stamp) -> Result<Vec<Change>, AllocError>
    ensures changes { IfOk result (λ changes. changes.items ≡ change.SetOneDaySettlementStart day ∷ change.SetLastStamp stamp ∷ []) }
{
    let mut changes = Vec::new(alloc);
    changes.push(Change::SetOneDaySettlementStart(day))?;
    changes.push(Change::SetLastStamp(stamp))?;
    Ok(changes)
}

/// Plans to set `day` as the first day of one-day settlement. `rule` is the day that is set
/// already, if any, `last` the stamp of the last accepted command, if any, and `now` the clock
/// reading.
///
/// Refuses with the first that applies of `Exists` (a day is set), `ClockEnd` (no stamp later than
/// `last` exists) and `TooEarly` (`day` is not later than the UTC day of the command's stamp).
/// Fails with `Memory` only.
pub fn plan_oneday(
    alloc: Global,
    day: Day,
    rule: Option<Day>,
    last: Option<Stamp>,
    now: Stamp,
) -> Planned<Plan>
    ensures planned { IfOk result (λ planned. MatchResult planned
        (IsOneDaySettlementPlan day rule last now)
        (λ refusal. first_refusal (one_day_settlement_checks day rule last now) ≡ Some refusal)) }
    ensures fault { OnErr result (result ≡ Err Memory) }
{
    if rule.is_some() {
        return Ok(Err(Refusal::Exists));
    }
    let Some(stamp) = stamp_after(last, now) else {
        return Ok(Err(Refusal::ClockEnd));
    };
    if day.get() <= day_of(stamp).get() {
        return Ok(Err(Refusal::TooEarly));
    }
    let changes = one_day_changes(alloc, day, stamp)?;
    Ok(Ok(Plan {
        changes,
        reply: Reply::Booked(stamp),
    }))
}
