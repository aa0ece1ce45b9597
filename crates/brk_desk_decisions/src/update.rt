//! Decisions on text updates, and the facts for them by the kind of update, which `update_finding`
//! reads.

ghost use Rattle.brk_trade_theorems.specs.Decisions.{DecidesCommand};
ghost use Rattle.brk_ref_orders.specs.Records.{text_update_command};
ghost use Rattle.brk_store_transactions.specs.Holds.{ReadPost};
ghost use Rattle.brk_store_reads.specs.ReadSequences.{ReadSequencePost};
ghost use Rattle.brk_trade_theorems.specs.Corrections.{UpdateFactsMatchTables};

use crate::update_finding::{cash_name_facts, cash_type_facts, executor_facts};
use brk_money::{CallFault, Planned, Stamp};
use brk_ref_orders::Update;
use brk_store::Store;
use brk_trade::{Plan, TextUpdate, plan_update};
use sqlite::Alter;
use std::alloc::Global;

// Returns `None` if the update names a trade, an account or a security that does not exist.
fn update_facts<S: Alter>(
    alloc: Global,
    store: &mut Store<S>,
    update: &Update,
) -> Result<Option<TextUpdate>, CallFault>
    ensures { ReadSequencePost S.Store store.old store.new result (λ found t. UpdateFactsMatchTables t update.now found) }
{
    match update {
        Update::Executors(trades) => executor_facts(alloc, store, trades),
        Update::CashTypes { account, span } => cash_type_facts(alloc, store, *account, *span),
        Update::CashNames { symbol, span } => cash_name_facts(alloc, store, symbol, *span),
    }
}

/// Decides on a text update at the clock reading `now` (Trade-Update): returns its plan, or the
/// refusal. Fails with `Store` also if a selected trade has no settlement, in an update of cash
/// types, or no cash row, in an update of cash names.
pub fn decide_update<S: Alter>(
    alloc: Global,
    store: &mut Store<S>,
    now: Stamp,
    update: &Update,
) -> Planned<Plan, CallFault>
    ensures { ReadPost S.Store store.old store.new result (DecidesCommand now (text_update_command update.now)) }
{
    // The value is not needed: the call shows that the stamp is at most the greatest stamp.
    let _moment = now.get();
    let last = store.last_stamp()?;
    let found = update_facts(alloc, store, update)?;
    plan_update(alloc, update, found, last, now).map_err(|_| CallFault::Memory)
}
