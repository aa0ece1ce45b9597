//! Decisions on results of trades.

ghost use Rattle.std.specs.Prelude.{◌≡◌, ◌+◌, Some, IfOk, MatchResult};
ghost use Rattle.sqlite.specs.Held.{state};
ghost use Rattle.sqlite.specs.State.{HasCleanDisk};
ghost use Rattle.brk_trade_theorems.specs.Decisions.{DecidesCommand};
ghost use Rattle.brk_desk_decisions.specs.LotReads.{AreLotsBeforeReads};
ghost use Rattle.brk_desk_decisions.specs.ResultFactReads.{AreLotsOfTradedPosition};
ghost use Rattle.brk_model.specs.Commands.{CompleteTrade};
ghost use Rattle.brk_model.specs.Tables.{Tables};
ghost use Rattle.brk_money.specs.Moments as moments;
ghost use Rattle.brk_store_transactions.specs.Holds.{HoldsRows, ReadPost};
ghost use Rattle.brk_store_reads.specs.ReadSequences.{IsUnchangedByReads};
ghost use Rattle.brk_store.specs.RemainingLots.{borrowed_store, number_of_rows_read};
ghost use Rattle.brk_trade.specs.Results.{ResultReadsAtMostOneLotMore, CompletesExistingTrade, IsResultRefusal, ClosesNoHeldShares, stamp_or_clock_reading};

use crate::faults::call_fault;
use crate::result_finding::facts_of_result;
use brk_lots::Position;
use brk_money::{CallFault, Planned, Price, Stamp};
use brk_ref_orders::Completion;
use brk_store::{LotPages, Store};
use brk_trade::{Plan, ResultPlanFacts, plan_result};
use sqlite::Alter;
use std::alloc::Global;

// `last` is the stamp of the last accepted command. Fails with `Store` also if a lot that it reads
// has no shares, or if the number of lots read exceeds 32 bits.
fn plan_result_over_lots<S: Alter>(
    alloc: Global,
    found: &ResultPlanFacts,
    price: Price,
    lots: &mut LotPages<'_, S>,
    last: Option<Stamp>,
    now: Stamp,
) -> Planned<Plan, CallFault>
    // The source borrows the same store. The reads change none of its rows; if the database is
    // still open after them, it is unchanged; and a crash after them exposes only states that a
    // crash before them could expose.
    ensures same_reference { (borrowed_store lots.new).ghost_name ≡ (borrowed_store lots.old).ghost_name }
    ensures store_unchanged { IsUnchangedByReads S.Store (borrowed_store lots.old).now (borrowed_store lots.new).now }

    // At `Ok` the plan, or the refusal.
    ensures planned { IfOk result (λ planned. MatchResult planned
        (CompletesExistingTrade (Some found.now) price (AreLotsBeforeReads S.Store lots.old lots.new) last now)
        (IsResultRefusal (Some found.now) price (AreLotsBeforeReads S.Store lots.old lots.new) last now)) }

    // The number of lots read, also if the call fails. Lots are read 4 at a time: hence the 3.
    ensures few_rows_read { ResultReadsAtMostOneLotMore (Some found.now) price (stamp_or_clock_reading (moments.stamp_after last now) now)
        (AreLotsBeforeReads S.Store lots.old lots.new) (number_of_rows_read lots.old + 3) (number_of_rows_read lots.new) }
    ensures no_lot_read { ClosesNoHeldShares found.now → lots.new ≡ lots.old }
{
    plan_result(alloc, Some(found), price, lots, last, now).map_err(call_fault)
}

// If the trade does not exist, `found` is `None`, and the refusal is `NoTrade` (5).
fn plan_result_from_facts<S: Alter>(
    alloc: Global,
    store: &mut Store<S>,
    found: Option<ResultPlanFacts>,
    price: Price,
    last: Option<Stamp>,
    now: Stamp,
) -> Planned<Plan, CallFault>
    ensures store_unchanged { IsUnchangedByReads S.Store store.old store.new }
    ensures planned { HasCleanDisk (state S.Store store.new) → IfOk result (λ planned. (t : Tables) → HoldsRows S.Store store.old t → MatchResult planned
        (CompletesExistingTrade found price (AreLotsOfTradedPosition t found) last now)
        (IsResultRefusal found price (AreLotsOfTradedPosition t found) last now)) }
{
    match found {
        Some(found) => {
            let trade = &found.trade;
            let mut lots = store.lot_pages(alloc, trade.account, &trade.symbol, trade.is_lifo);
            plan_result_over_lots(alloc, &found, price, &mut lots, last, now)
        }
        None => {
            let none = Position::new(alloc);
            let mut lots = none.from_end(false);
            plan_result(alloc, None, price, &mut lots, last, now).map_err(|_| CallFault::Memory)
        }
    }
}

/// Decides on the result of a trade at the clock reading `now` (Trade-Result): returns its plan, or
/// the refusal.
///
/// Fails with `Store` also if the trade exists and its account, customer, broker or security or one
/// of the customer's taxes does not, the tax rates total more than the greatest rate, a total of
/// the broker is out of range, no number is left for a cash row, a lot that it reads has no shares,
/// or the number of lots read exceeds 32 bits.
pub fn decide_result<S: Alter>(
    alloc: Global,
    store: &mut Store<S>,
    now: Stamp,
    completion: &Completion,
) -> Planned<Plan, CallFault>
    ensures { ReadPost S.Store store.old store.new result (DecidesCommand now (CompleteTrade completion.now.trade completion.now.price)) }
{
    // The value is not needed: the call shows that the stamp is at most the greatest stamp.
    let _moment = now.get();
    let last = store.last_stamp()?;
    let found = facts_of_result(alloc, store, completion.trade)?;
    plan_result_from_facts(alloc, store, found, completion.price, last, now)
}
