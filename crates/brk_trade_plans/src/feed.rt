//! The plan of a market feed: the last trades after its ticks, and the pending trades that their
//! prices trigger.

ghost use Rattle.std.specs.Prelude.{◌≡◌, ◌∷◌, ◌++◌, ℕ, [], IfOk, IfErr, OnOk, OnErr, Err, MatchResult, Some, true, false};
ghost use Rattle.std.specs.List.{list_any};
ghost use Rattle.brk_model.specs.Feed as definition;
ghost use Rattle.brk_model.specs.Tests.{first_refusal};
ghost use Rattle.brk_money.specs.declared.fault.Fault.TheVariants.{Memory};
ghost use Rattle.brk_money.specs.declared.refusal.Limit.TheVariants as limit;
ghost use Rattle.brk_money.specs.declared.refusal.Refusal.TheVariants.{Range};
ghost use Rattle.brk_trade_plans.specs.Feed as spec;
ghost use Rattle.brk_trade_plans.specs.Feed.{IsFeedPlan, row_changes_of_tick, row_changes_of_ticks, has_volume_above_limit, feed_checks, states_of_quotes};
ghost use Rattle.brk_trade_plans.specs.Feed.{state_of_quote, trades_triggered_by_tick, trades_triggered_by_ticks, is_state_of_symbol};
ghost use Rattle.brk_trade_plans.specs.Feed.{last_trade_after_tick, has_no_state_of_symbol, states_after_ticks, states_after_tick};
ghost use Rattle.brk_trade_plans.specs.Feed.{row_changes_of_submissions, trades_triggered_at_price, requests_not_triggered_at_price};
ghost use Rattle.brk_trade_plans.specs.Reference.{later_stamp_check};
ghost use Rattle.brk_trade_rows.specs.declared.change.Change.TheVariants.{SetLastTrade};

use crate::plan::Plan;
use crate::quote::Quote;
use crate::reply::Reply;
use crate::waiting::append_status_after_pending;
use brk_money::{Id, Limit, Planned, Price, Refusal, Stamp, Status, TradeType, stamp_after};
use brk_ref::{LastTrade, RequestRow, Symbol, Volume};
use brk_ref_orders::{Feed, Tick};
use brk_trade_rows::Change;
use std::alloc::{AllocError, Global};

/// Returns true if the market price `price` triggers a pending trade with the requested price `bid`
/// (Market-Feed): a stop loss or a limit buy at `bid` or below, a limit sell at `bid` or above, a
/// market type never.
pub fn is_triggered_at_price(kind: TradeType, bid: Price, price: Price) -> bool
    ensures { result ≡ definition.is_triggering_price kind bid price }
{
    match kind {
        TradeType::StopLoss => bid.get() >= price.get(),
        TradeType::LimitSell => bid.get() <= price.get(),
        TradeType::LimitBuy => bid.get() >= price.get(),
        TradeType::MarketBuy | TradeType::MarketSell => false,
    }
}

fn is_quote_of_symbol(quote: &Quote, symbol: &Symbol) -> bool
    ensures { result ≡ is_state_of_symbol symbol.now (state_of_quote quote.now) }
{
    quote.last.symbol.as_str() == symbol.as_str()
}

/// Returns true if none of the quotes has the symbol of the tick.
pub fn has_no_quote_of_symbol(quotes: &[Quote], tick: &Tick) -> bool
    ensures { result ≡ has_no_state_of_symbol (states_of_quotes quotes.now) tick.now }
{
    !quotes
        .iter()
        .any(|quote| is_quote_of_symbol(quote, &tick.symbol))
}

fn has_tick_without_quote(quotes: &[Quote], ticks: &[Tick]) -> bool
    ensures { result ≡ list_any (has_no_state_of_symbol (states_of_quotes quotes.now)) ticks.now }
{
    ticks
        .iter()
        .any(|tick| has_no_quote_of_symbol(quotes, tick))
}

fn last_trade_after_tick(stamp: Stamp, tick: &Tick, last: LastTrade) -> Result<LastTrade, Refusal>
    ensures after { IfOk result (λ after. after ≡ spec.last_trade_after_tick stamp tick.now last) }
    ensures refusal { IfErr result (λ refusal. (refusal ≡ Range limit.Volume)
        × (has_volume_above_limit (record { last = spec.last_trade_after_tick stamp tick.now last; requests = [] }) ≡ true)) }
{
    let shares = last.volume.get() + u64::from(tick.qty.get());
    let Some(volume) = Volume::new(shares) else {
        return Err(Refusal::Range(Limit::Volume));
    };
    Ok(LastTrade {
        symbol: last.symbol,
        stamp,
        price: tick.price,
        volume,
    })
}

fn last_trade_change(last: &LastTrade) -> Result<Change, AllocError>
    ensures change { IfOk result (λ change. change ≡ SetLastTrade last.now) }
{
    Ok(Change::SetLastTrade(LastTrade {
        symbol: last.symbol.clone()?,
        stamp: last.stamp,
        price: last.price,
        volume: last.volume,
    }))
}

fn submit_triggered(
    stamp: Stamp,
    price: Price,
    requests: &[RequestRow],
    changes: &mut Vec<Change>,
    ids: &mut Vec<Id>,
) -> Result<(), AllocError>
    ensures changes { OnOk result (changes.new.items ≡ changes.old.items ++ row_changes_of_submissions stamp (trades_triggered_at_price price requests.now)) }
    ensures ids { OnOk result (ids.new.items ≡ ids.old.items ++ trades_triggered_at_price price requests.now) }
{
    for request in requests {
        if is_triggered_at_price(request.kind, request.bid, price) {
            append_status_after_pending(request.trade, Status::Submitted, stamp, changes)?;
            ids.push(request.trade)?;
        }
    }
    Ok(())
}

fn untriggered_requests(
    alloc: Global,
    price: Price,
    requests: Vec<RequestRow>,
) -> Result<Vec<RequestRow>, AllocError>
    ensures waiting { IfOk result (λ waiting. waiting.items ≡ requests_not_triggered_at_price price requests.items) }
{
    let mut waiting = Vec::new(alloc);
    for request in requests {
        if !is_triggered_at_price(request.kind, request.bid, price) {
            waiting.push(request)?;
        }
    }
    Ok(waiting)
}

// Appends the change to the last trade `last`, the submissions of the trades that its price
// triggers, and their ids.
fn append_market_trade(
    last: &LastTrade,
    requests: &[RequestRow],
    changes: &mut Vec<Change>,
    ids: &mut Vec<Id>,
) -> Result<(), AllocError>
    ensures changes { OnOk result (changes.new.items ≡ changes.old.items ++ SetLastTrade last.now
        ∷ row_changes_of_submissions last.now.stamp (trades_triggered_at_price last.now.price requests.now)) }
    ensures ids { OnOk result (ids.new.items ≡ ids.old.items ++ trades_triggered_at_price last.now.price requests.now) }
{
    changes.push(last_trade_change(last)?)?;
    submit_triggered(last.stamp, last.price, requests, changes, ids)
}

// Returns the quote unchanged if the tick has another symbol.
fn apply_tick_to_quote(
    alloc: Global,
    stamp: Stamp,
    tick: &Tick,
    quote: Quote,
    changes: &mut Vec<Change>,
    ids: &mut Vec<Id>,
) -> Planned<Quote, AllocError>
    // If the tick is not refused: the quote after it, and what is appended to `changes` and `ids`.
    ensures quote { IfOk result (λ taken. IfOk taken (λ after. state_of_quote after ∷ [] ≡ states_after_tick stamp (state_of_quote quote ∷ []) tick.now)) }
    ensures changes { IfOk result (λ taken. IfOk taken (λ _. changes.new.items
        ≡ changes.old.items ++ row_changes_of_tick stamp tick.now (state_of_quote quote ∷ []))) }
    ensures ids { IfOk result (λ taken. IfOk taken (λ _. ids.new.items ≡ ids.old.items ++ trades_triggered_by_tick tick.now (state_of_quote quote ∷ []))) }

    // The volume after the tick is within its limit, or the tick is refused.
    ensures within { IfOk result (λ taken. IfOk taken (λ after. has_volume_above_limit (state_of_quote after) ≡ false)) }
    ensures refusal { IfOk result (λ taken. IfErr taken (λ refusal. (refusal ≡ Range limit.Volume)
        × (list_any has_volume_above_limit (states_after_tick stamp (state_of_quote quote ∷ []) tick.now) ≡ true))) }
{
    if !is_quote_of_symbol(&quote, &tick.symbol) {
        return Ok(Ok(quote));
    }
    let Quote { last, requests } = quote;
    let last = match last_trade_after_tick(stamp, tick, last) {
        Ok(last) => last,
        Err(refusal) => return Ok(Err(refusal)),
    };
    append_market_trade(&last, &requests, changes, ids)?;
    let requests = untriggered_requests(alloc, tick.price, requests)?;
    Ok(Ok(Quote { last, requests }))
}

fn apply_tick_to_quotes(
    alloc: Global,
    stamp: Stamp,
    tick: &Tick,
    quotes: Vec<Quote>,
    changes: &mut Vec<Change>,
    ids: &mut Vec<Id>,
) -> Planned<Vec<Quote>, AllocError>
    // If the tick is not refused: the quotes after it, and what is appended to `changes` and `ids`.
    ensures quotes { IfOk result (λ taken. IfOk taken (λ after. states_of_quotes after.items
        ≡ states_after_tick stamp (states_of_quotes quotes.items) tick.now)) }
    ensures changes { IfOk result (λ taken. IfOk taken (λ _. changes.new.items
        ≡ changes.old.items ++ row_changes_of_tick stamp tick.now (states_of_quotes quotes.items))) }
    ensures ids { IfOk result (λ taken. IfOk taken (λ _. ids.new.items ≡ ids.old.items ++ trades_triggered_by_tick tick.now (states_of_quotes quotes.items))) }

    // Each volume after the tick is within its limit, or the tick is refused.
    ensures within { IfOk result (λ taken. IfOk taken (λ after. list_any has_volume_above_limit (states_of_quotes after.items) ≡ false)) }
    ensures refusal { IfOk result (λ taken. IfErr taken (λ refusal. (refusal ≡ Range limit.Volume)
        × (list_any has_volume_above_limit (states_after_tick stamp (states_of_quotes quotes.items) tick.now) ≡ true))) }
{
    let mut after = Vec::new(alloc);
    for quote in quotes {
        match apply_tick_to_quote(alloc, stamp, tick, quote, changes, ids)? {
            Ok(quote) => after.push(quote)?,
            Err(refusal) => return Ok(Err(refusal)),
        }
    }
    Ok(Ok(after))
}

// Brings the limit of each volume, which its type has, into the proof. Changes nothing.
fn prove_volumes(quotes: &[Quote])
    ensures { list_any has_volume_above_limit (states_of_quotes quotes.now) ≡ false }
{
    for quote in quotes {
        let _volume = quote.last.volume.get();
    }
}

// If it refuses or fails, a part of the row changes and of the ids may be appended.
fn apply_ticks(
    alloc: Global,
    stamp: Stamp,
    ticks: &[Tick],
    quotes: Vec<Quote>,
    changes: &mut Vec<Change>,
    ids: &mut Vec<Id>,
) -> Planned<(), AllocError>
    // If the ticks are not refused: what is appended to `changes` and `ids`.
    ensures changes { IfOk result (λ taken. OnOk taken (changes.new.items
        ≡ changes.old.items ++ row_changes_of_ticks stamp ticks.now (states_of_quotes quotes.items))) }
    ensures ids { IfOk result (λ taken. OnOk taken (ids.new.items
        ≡ ids.old.items ++ trades_triggered_by_ticks stamp ticks.now (states_of_quotes quotes.items))) }

    // Each volume after the ticks is within its limit, or the ticks are refused.
    ensures within { IfOk result (λ taken. OnOk taken (list_any has_volume_above_limit (states_after_ticks stamp ticks.now (states_of_quotes quotes.items))
        ≡ false)) }
    ensures refusal { IfOk result (λ taken. IfErr taken (λ refusal. (refusal ≡ Range limit.Volume)
        × (list_any has_volume_above_limit (states_after_ticks stamp ticks.now (states_of_quotes quotes.items)) ≡ true))) }
{
    prove_volumes(&quotes);
    let mut current = quotes;
    for tick in ticks {
        current = match apply_tick_to_quotes(alloc, stamp, tick, current, changes, ids)? {
            Ok(after) => after,
            Err(refusal) => return Ok(Err(refusal)),
        };
    }
    Ok(Ok(()))
}

/// Plans a feed: each tick in sequence sets the last trade of its symbol and submits the trades
/// that its price triggers. `quotes` has the quote of each listed symbol of the feed, `last` is the
/// stamp of the last accepted command, if any, and `now` the clock reading. The reply has the ids
/// of the triggered trades, tick by tick.
///
/// Refuses with the first that applies of `NoSecurity` (a symbol has no quote), `Range(Volume)` (a
/// volume exceeds 10^17 shares after all ticks) and `ClockEnd` (no stamp later than `last` exists).
/// Fails with `Memory` only.
pub fn plan_feed(
    alloc: Global,
    feed: &Feed,
    quotes: Vec<Quote>,
    last: Option<Stamp>,
    now: Stamp,
) -> Planned<Plan>
    ensures planned { IfOk result (λ planned. MatchResult planned
        (IsFeedPlan feed.now (states_of_quotes quotes.items) last now)
        (λ refusal. (stamp : ℕ)
        → first_refusal (feed_checks stamp feed.now (states_of_quotes quotes.items) ++ later_stamp_check last now ∷ []) ≡ Some refusal)) }
    ensures fault { OnErr result (result ≡ Err Memory) }
{
    let ticks = feed.ticks();
    if has_tick_without_quote(&quotes, ticks) {
        return Ok(Err(Refusal::NoSecurity));
    }
    // The volumes are checked before the clock. The stamp does not affect their check.
    let moved = stamp_after(last, now);
    let mut changes = Vec::new(alloc);
    let mut ids = Vec::new(alloc);
    let at = match moved {
        Some(stamp) => stamp,
        None => now,
    };
    let taken = apply_ticks(alloc, at, ticks, quotes, &mut changes, &mut ids)?;
    if let Err(refusal) = taken {
        return Ok(Err(refusal));
    }
    let Some(stamp) = moved else {
        return Ok(Err(Refusal::ClockEnd));
    };
    changes.push(Change::SetLastStamp(stamp))?;
    Ok(Ok(Plan {
        changes,
        reply: Reply::Ticked(stamp, ids),
    }))
}
