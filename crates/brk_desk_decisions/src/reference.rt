//! Decisions on commands that add a reference record.

ghost use Rattle.brk_trade_plans.specs.Commands.{command_adding_record};
ghost use Rattle.brk_trade_theorems.specs.Decisions.{DecidesCommand};
ghost use Rattle.brk_store_transactions.specs.Holds.{ReadPost};

use crate::reference_finding::reference_facts;
use brk_money::{CallFault, Planned, Stamp};
use brk_store::Store;
use brk_trade::{Plan, Reference, plan_reference};
use sqlite::Alter;
use std::alloc::Global;

/// Decides on a new reference record, such as a broker or a charge, at the clock reading `now`:
/// returns its plan, or the refusal. Fails with `Store` also if the record is a tax of a customer
/// who already pays a tax that does not exist.
pub fn decide_reference_record<S: Alter>(
    alloc: Global,
    store: &mut Store<S>,
    now: Stamp,
    reference: &Reference,
) -> Planned<Plan, CallFault>
    ensures { ReadPost S.Store store.old store.new result (DecidesCommand now (command_adding_record reference.now)) }
{
    // The value is not needed: the call shows that the stamp is at most the greatest stamp.
    let _moment = now.get();
    let last = store.last_stamp()?;
    let found = reference_facts(alloc, store, reference)?;
    plan_reference(alloc, reference, found, last, now).map_err(|_| CallFault::Memory)
}
