//! Decisions on deposits and withdrawals.

ghost use Rattle.brk_trade_theorems.specs.Decisions.{DecidesCommand};
ghost use Rattle.brk_ref_orders.specs.Records.{movement_command};
ghost use Rattle.brk_store_transactions.specs.Holds.{ReadPost};

use crate::movement_finding::movement_facts;
use brk_money::{CallFault, Planned, Stamp};
use brk_ref_orders::Movement;
use brk_store::Store;
use brk_trade::{Plan, plan_move};
use sqlite::Alter;
use std::alloc::Global;

/// Decides on a deposit or a withdrawal at the clock reading `now`: returns its plan, or the
/// refusal. Fails with `Store` also if no number is left for a cash row.
pub fn decide_movement<S: Alter>(
    alloc: Global,
    store: &mut Store<S>,
    now: Stamp,
    movement: &Movement,
) -> Planned<Plan, CallFault>
    ensures { ReadPost S.Store store.old store.new result (DecidesCommand now (movement_command movement.now)) }
{
    // The value is not needed: the call shows that the stamp is at most the greatest stamp.
    let _moment = now.get();
    let last = store.last_stamp()?;
    let found = movement_facts(store, movement)?;
    plan_move(alloc, movement, &found, last, now).map_err(|_| CallFault::Memory)
}
