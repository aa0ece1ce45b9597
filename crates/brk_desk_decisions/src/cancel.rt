//! Decisions on cancels of trades.

ghost use Rattle.std.specs.Prelude.{◌≡◌, option_map};
ghost use Rattle.brk_trade_theorems.specs.Decisions.{DecidesCommand};
ghost use Rattle.brk_model.specs.Commands.{CancelTrade};
ghost use Rattle.brk_model.specs.Joins.{trade_row_with_id};
ghost use Rattle.brk_store_transactions.specs.Holds.{ReadPost};

use brk_money::{CallFault, Id, Planned, Stamp, Status};
use brk_store::Store;
use brk_trade::{Plan, plan_cancel};
use sqlite::Alter;
use std::alloc::Global;

fn read_status<S: Alter>(store: &mut Store<S>, trade: Id) -> Result<Option<Status>, CallFault>
    ensures { ReadPost S.Store store.old store.new result (λ status t. status ≡ option_map (λ r. r.status) (trade_row_with_id t trade)) }
{
    match store.trade(trade)? {
        Some(row) => Ok(Some(row.status)),
        None => Ok(None),
    }
}

/// Decides on the cancel of a trade at the clock reading `now`: returns its plan, or the refusal.
pub fn decide_cancel<S: Alter>(
    alloc: Global,
    store: &mut Store<S>,
    now: Stamp,
    trade: Id,
) -> Planned<Plan, CallFault>
    ensures { ReadPost S.Store store.old store.new result (DecidesCommand now (CancelTrade trade)) }
{
    // The value is not needed: the call shows that the stamp is at most the greatest stamp.
    let _moment = now.get();
    let last = store.last_stamp()?;
    let status = read_status(store, trade)?;
    plan_cancel(alloc, trade, status, last, now).map_err(|_| CallFault::Memory)
}
