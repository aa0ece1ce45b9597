//! Decisions on orders.

ghost use Rattle.std.specs.Prelude.{◌≡◌, ◌+◌, ◌++◌, ◌∷◌, [], false, Some, IfOk, OnErr, MatchResult};
ghost use Rattle.brk_trade_theorems.specs.Decisions.{DecidesCommand};
ghost use Rattle.brk_desk_decisions.specs.LotReads.{AreLotsBeforeReads};
ghost use Rattle.brk_lots.specs.Against.{is_trade_closing_lots};
ghost use Rattle.brk_model.specs.Commands.{PlaceOrder};
ghost use Rattle.brk_model.specs.Tests.{first_refusal};
ghost use Rattle.brk_ref_orders.specs.Records.{abstract_order};
ghost use Rattle.brk_trade_plans.specs.Reference.{later_stamp_check};
ghost use Rattle.brk_store_transactions.specs.Holds.{ReadPost};
ghost use Rattle.brk_store_reads.specs.ReadSequences.{IsUnchangedByReads};
ghost use Rattle.brk_store.specs.RemainingLots.{borrowed_store, number_of_rows_read};
ghost use Rattle.brk_trade.specs.Estimates.{OrderReadsAtMostOneLotMore};
ghost use Rattle.brk_trade.specs.Orders.{IsOrderPlan, order_checks, terms_of_order, free_trade_id_check};

use crate::faults::call_fault;
use crate::order_finding::order_facts;
use brk_money::{CallFault, Planned, Stamp};
use brk_ref_orders::Order;
use brk_store::{LotPages, Store};
use brk_trade::{OrderPlanFacts, Plan, plan_order};
use sqlite::Alter;
use std::alloc::Global;

// `last` is the stamp of the last accepted command. Fails with `Store` also if a lot that it reads
// has no shares, or if the number of lots read exceeds 32 bits.
fn plan_order_over_lots<S: Alter>(
    alloc: Global,
    order: &Order,
    found: &OrderPlanFacts,
    lots: &mut LotPages<'_, S>,
    last: Option<Stamp>,
    now: Stamp,
) -> Planned<Plan, CallFault>
    // The source borrows the same store. The reads change none of its rows; if the database is
    // still open after them, it is unchanged; and a crash after them exposes only states that a
    // crash before them could expose.
    ensures same_reference { (borrowed_store lots.new).ghost_name ≡ (borrowed_store lots.old).ghost_name }
    ensures store_unchanged { IsUnchangedByReads S.Store (borrowed_store lots.old).now (borrowed_store lots.new).now }

    // At `Ok` the plan, or the first refusal, for which no lot is read.
    ensures planned { IfOk result (λ planned. MatchResult planned
        (IsOrderPlan order.now found.now (AreLotsBeforeReads S.Store lots.old lots.new) last now)
        (λ refusal. first_refusal (order_checks found.now ++ free_trade_id_check found.now.last_trade ∷ later_stamp_check last now ∷ []) ≡ Some refusal)) }
    ensures refused { IfOk result (λ planned. OnErr planned (lots.new ≡ lots.old)) }

    // The number of lots read, also if the call fails. Lots are read 4 at a time: hence the 3.
    ensures few_rows_read { OrderReadsAtMostOneLotMore (terms_of_order order.now found.now)
        (AreLotsBeforeReads S.Store lots.old lots.new) (number_of_rows_read lots.old + 3) (number_of_rows_read lots.new) }
    ensures no_lot_read { is_trade_closing_lots (terms_of_order order.now found.now).side (terms_of_order order.now found.now).held ≡ false
        → lots.new ≡ lots.old }
{
    plan_order(alloc, order, found, lots, last, now).map_err(call_fault)
}

/// Decides on an order at the clock reading `now` (Trade-Order): returns its plan, or the refusal.
///
/// Fails with `Store` also if the account's customer or one of the customer's taxes does not exist,
/// the tax rates total more than the greatest rate, a held symbol has no last price, a sum
/// overflows, a lot that it reads has no shares, or the number of lots read exceeds 32 bits.
pub fn decide_order<S: Alter>(
    alloc: Global,
    store: &mut Store<S>,
    now: Stamp,
    order: &Order,
) -> Planned<Plan, CallFault>
    ensures { ReadPost S.Store store.old store.new result (DecidesCommand now (PlaceOrder (abstract_order order.now))) }
{
    // The value is not needed: the call shows that the stamp is at most the greatest stamp.
    let _moment = now.get();
    let last = store.last_stamp()?;
    let found = order_facts(alloc, store, order)?;
    let mut lots = store.lot_pages(alloc, order.account, &order.symbol, order.is_lifo);
    plan_order_over_lots(alloc, order, &found, &mut lots, last, now)
}
