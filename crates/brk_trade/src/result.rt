ghost use Rattle.std.specs.Prelude.{◌≡◌, ◌⊎◌, ◌+◌, ◌*◌, ◌≤◌, ℕ, List, drop, length, option_map, IfOk, IfErr, IfSome, MatchResult};
ghost use Rattle.brk_lots.specs.declared.lot.Lot.{Lot};
ghost use Rattle.brk_lots.specs.Closing.{IsEffectOfDealOnLots};
ghost use Rattle.brk_lots.specs.Lots.{shares_of_lots};
ghost use Rattle.brk_lots.specs.Sources.{AreLotsOfFaithfulSource, RequestsLots};
ghost use Rattle.brk_model.specs.Limits.{greatest_price};
ghost use Rattle.brk_model.specs.Shares.{touches_of_existing_lots};
ghost use Rattle.brk_money.specs.Moments as moments;
ghost use Rattle.brk_money.specs.declared.fault.Fault.{Fault};
ghost use Rattle.brk_trade.specs.Outcomes.{deal_of_trade_row};
ghost use Rattle.brk_trade.specs.Results as spec;
ghost use Rattle.brk_trade.specs.Results.{AreLotsBeforeTrade, ResultReadsAtMostOneLotMore, CompletesExistingTrade};
ghost use Rattle.brk_trade.specs.Results.{IsResultRefusal, ClosesNoHeldShares, HasBrokerCountOutOfRange, stamp_or_clock_reading};

use crate::completion::result_changes;
use crate::outcome::{check_after_lots, check_before_lots, shares_held_before_trade};
use crate::result_found::ResultPlanFacts;
use crate::settling::trade_count_after_result;
use brk_lots::{ClosedLots, LotSource, close_lots, is_trade_closing_lots, opening_effect};
use brk_money::{Fault, Planned, Price, Refusal, Stamp, stamp_after};
use brk_trade_plans::{Plan, Reply};
use std::alloc::Global;

fn effect_of_trade_on_lots<L: LotSource>(
    alloc: Global,
    source: &mut L,
    found: &ResultPlanFacts,
    price: Price,
    stamp: Stamp,
) -> Result<ClosedLots, Fault>
    ensures source { RequestsLots L.leads L.reads_faithfully L.remaining L.asked L.faulted L.fails (λ fault. fault ≡ Fault.Memory) found.now.trade.qty source.old source.new result }

    // At `Ok` the effect of the trade on the lots, and the limit of the sell value.
    ensures closed { IfOk result (λ closed. (ls : List Lot)
        → AreLotsBeforeTrade (AreLotsOfFaithfulSource (L.reads_faithfully source.new) (L.remaining source.old)) found.now ls →
        IsEffectOfDealOnLots (deal_of_trade_row found.now.trade price stamp) ls closed) }
    ensures sold { IfOk result (λ closed. closed.values.sell_value ≤ found.now.trade.qty * greatest_price) }

    // The number of lots requested, also if the call fails.
    ensures asked { (ls : List Lot) → AreLotsBeforeTrade (AreLotsOfFaithfulSource (L.reads_faithfully source.new) (L.remaining source.old)) found.now ls →
        L.asked source.new ≤ L.asked source.old + length (touches_of_existing_lots (deal_of_trade_row found.now.trade price stamp) (shares_of_lots ls)) + 1 }
    ensures reads_no_lot { ClosesNoHeldShares found.now → source.new ≡ source.old }
{
    let trade = &found.trade;
    let side = trade.kind.side();
    if is_trade_closing_lots(side, shares_held_before_trade(found)) {
        close_lots(alloc, source, side, trade.qty, trade.id, price, stamp)
    } else {
        Ok(opening_effect(alloc, side, trade.qty, trade.id, price, stamp))
    }
}

fn stamp_or_clock_reading(stamp: &Option<Stamp>, now: Stamp) -> Stamp
    ensures { result ≡ spec.stamp_or_clock_reading stamp.now now }
{
    match stamp {
        Some(stamp) => *stamp,
        None => now,
    }
}

/// Plans the result of a trade at `price` (Trade-Result): the completed trade, the lots that it
/// closes, reduces or opens with their changes, the summary, the broker totals, the settlement and,
/// for a cash trade, the cash row and the balance. `found` is `None` if there is no such trade,
/// `source` returns the lots of its account and symbol in the sequence in which the trade closes
/// them, `last` is the stamp of the last accepted command, if any, and `now` the clock reading.
///
/// Refuses with the first that applies of `NoTrade`, `WrongStatus` (the trade is not submitted),
/// `NoRate`, `Range(Summary)` (above 9,999,999,999 shares, held or sold short), `Range(Balance)`,
/// `Range(Broker)` (the balance after a cash trade, or the broker's commissions, above 10^17 cents
/// in absolute value) and `ClockEnd` (no stamp later than `last` exists, or the due day is after
/// 9999-12-31). If none of the first four applies, the refusal, or the changes of lots and the
/// values of the closed shares, are specified only over the lots of a position, none of them opened
/// by this trade, whose quantities sum to the shares held, and only under the disk assumption.
/// Fails with `Memory` or a fault of the source.
pub fn plan_result<L: LotSource>(
    alloc: Global,
    found: Option<&ResultPlanFacts>,
    price: Price,
    source: &mut L,
    last: Option<Stamp>,
    now: Stamp,
) -> Planned<Plan>
    ensures leads { L.leads source.old source.new }
    ensures planned { IfOk result (λ planned. MatchResult planned
        (CompletesExistingTrade (option_map (λ f. f.now) found.entry) price
        (AreLotsOfFaithfulSource (L.reads_faithfully source.new) (L.remaining source.old)) last now)
        (IsResultRefusal (option_map (λ f. f.now) found.entry) price
        (AreLotsOfFaithfulSource (L.reads_faithfully source.new) (L.remaining source.old)) last now)) }
    // It reads at most one lot more than the trade would close or reduce, also if it fails.
    ensures asked { ResultReadsAtMostOneLotMore (option_map (λ f. f.now) found.entry) price (stamp_or_clock_reading (moments.stamp_after last now) now)
        (AreLotsOfFaithfulSource (L.reads_faithfully source.new) (L.remaining source.old)) (L.asked source.old) (L.asked source.new) }
    // It reads no lot if the account holds no shares that the trade would close.
    ensures reads_no_lot { IfSome (option_map (λ f. f.now) found.entry) (λ f. ClosesNoHeldShares f → source.new ≡ source.old) }
    // At `Ok` the source counted no fault; a fault is `Memory` or that of a call of the source.
    ensures faulted { IfOk result (λ planned. L.faulted source.new ≡ L.faulted source.old) }
    ensures fault { IfErr result (λ fault. (fault ≡ Fault.Memory) ⊎ (((before : L) × L.fails before fault source.new)
        ⊎ ((fault ≡ Fault.Store) × IfSome (option_map (λ f. f.now) found.entry) HasBrokerCountOutOfRange))) }
    // Under the disk assumption, the lots that it did not take remain in the source.
    ensures rest { (ls : List Lot) → AreLotsOfFaithfulSource (L.reads_faithfully source.new) (L.remaining source.old) ls
        → (n : ℕ) × L.remaining source.new (drop n ls) }
{
    let Some(found) = found else {
        return Ok(Err(Refusal::NoTrade));
    };
    let Some(trades) = trade_count_after_result(&found.parties.broker) else {
        return Err(Fault::Store);
    };
    let known = match check_before_lots(found) {
        Ok(known) => known,
        Err(refusal) => return Ok(Err(refusal)),
    };
    // The balance and the broker totals are checked before the clock. The stamp does not affect
    // their check.
    let moved = stamp_after(last, now);
    let at = stamp_or_clock_reading(&moved, now);
    let closed = effect_of_trade_on_lots(alloc, source, found, price, at)?;
    let outcome = match check_after_lots(found, price, &known, &closed, trades, moved) {
        Ok(outcome) => outcome,
        Err(refusal) => return Ok(Err(refusal)),
    };
    let changes = result_changes(alloc, found, price, &closed, &outcome)?;
    let reply = Reply::Completed(outcome.completed);
    Ok(Ok(Plan { changes, reply }))
}
