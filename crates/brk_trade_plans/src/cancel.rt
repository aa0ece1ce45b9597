ghost use Rattle.std.specs.Prelude.{◌≡◌, ◌∷◌, ◌++◌, [], IfOk, OnErr, Err, MatchResult, Some};
ghost use Rattle.brk_model.specs.Tests.{first_refusal};
ghost use Rattle.brk_money.specs.declared.fault.Fault.TheVariants.{Memory};
ghost use Rattle.brk_trade_plans.specs.Cancel.{IsCancelPlan, row_changes_of_cancel, cancel_checks};
ghost use Rattle.brk_trade_plans.specs.Reference.{later_stamp_check};

use crate::plan::Plan;
use crate::reply::Reply;
use crate::waiting::append_status_after_pending;
use brk_money::{Id, Planned, Refusal, Stamp, Status, stamp_after};
use brk_trade_rows::Change;
use std::alloc::{AllocError, Global};

fn refusal_of_cancel(found: Option<Status>) -> Option<Refusal>
    ensures { result ≡ first_refusal (cancel_checks found) }
{
    match found {
        None => Some(Refusal::NoTrade),
        Some(Status::Pending) => None,
        Some(status) => Some(Refusal::WrongStatus(status)),
    }
}

fn cancel_changes(alloc: Global, trade: Id, stamp: Stamp) -> Result<Vec<Change>, AllocError>
    ensures changes { IfOk result (λ changes. changes.items ≡ row_changes_of_cancel trade stamp) }
{
    let mut changes = Vec::new(alloc);
    append_status_after_pending(trade, Status::Canceled, stamp, &mut changes)?;
    changes.push(Change::SetLastStamp(stamp))?;
    Ok(changes)
}

/// Plans the cancel of a pending trade. `found` is its status, or `None` if there is no such trade,
/// `last` the stamp of the last accepted command, if any, and `now` the clock reading.
///
/// Refuses with the first that applies of `NoTrade`, `WrongStatus` and `ClockEnd` (no stamp later
/// than `last` exists). Fails with `Memory` only.
pub fn plan_cancel(
    alloc: Global,
    trade: Id,
    found: Option<Status>,
    last: Option<Stamp>,
    now: Stamp,
) -> Planned<Plan>
    ensures planned { IfOk result (λ planned. MatchResult planned
        (IsCancelPlan trade found last now)
        (λ refusal. first_refusal (cancel_checks found ++ later_stamp_check last now ∷ []) ≡ Some refusal)) }
    ensures fault { OnErr result (result ≡ Err Memory) }
{
    if let Some(refusal) = refusal_of_cancel(found) {
        return Ok(Err(refusal));
    }
    let Some(stamp) = stamp_after(last, now) else {
        return Ok(Err(Refusal::ClockEnd));
    };
    let changes = cancel_changes(alloc, trade, stamp)?;
    Ok(Ok(Plan {
        changes,
        reply: Reply::Canceled(stamp),
    }))
}
