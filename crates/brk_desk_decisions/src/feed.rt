//! Decisions on market feeds.

ghost use Rattle.std.specs.Prelude.{◌≡◌, IfSome, option_map};
ghost use Rattle.brk_trade_theorems.specs.TradePlans.{AreQuotesOfTicks, IsQuoteOfTick};
ghost use Rattle.brk_trade_books.specs.TradeReads.{last_trade_row_of_symbol};
ghost use Rattle.brk_trade_theorems.specs.Decisions.{DecidesCommand};
ghost use Rattle.brk_model.specs.Commands.{FeedTicks};
ghost use Rattle.brk_ref_orders.specs.Records.{abstract_ticks};
ghost use Rattle.brk_ref.specs.Records.{abstract_last_trade_row};
ghost use Rattle.brk_store_transactions.specs.Holds.{ReadPost};
ghost use Rattle.brk_trade_plans.specs.Feed.{states_of_quotes, state_of_quote};

use brk_money::{CallFault, Planned, Stamp};
use brk_ref_orders::{Feed, Tick};
use brk_store::Store;
use brk_trade::{Plan, Quote, first_symbol_price_span, has_no_quote_of_symbol, plan_feed};
use sqlite::Alter;
use std::alloc::Global;

// One quote serves all ticks of its symbol: its requests are those that a price in the span of
// these ticks can trigger.
fn read_tick_quote<S: Alter>(
    alloc: Global,
    store: &mut Store<S>,
    tick: &Tick,
    ticks: &[Tick],
) -> Result<Option<Quote>, CallFault>
    ensures { ReadPost S.Store store.old store.new result (λ quote t.
        (option_map (λ q. abstract_last_trade_row q.last) quote ≡ last_trade_row_of_symbol t tick.now.symbol)
        × IfSome quote (λ q. IsQuoteOfTick t tick.now ticks.now (state_of_quote q))) }
{
    let Some(last) = store.last_trade(&tick.symbol)? else {
        return Ok(None);
    };
    let span = first_symbol_price_span(tick, ticks);
    let mut requests = store.requests_of_symbol(alloc, &tick.symbol)?;
    requests.retain(|request| span.can_trigger(request.kind, request.bid));
    Ok(Some(Quote { last, requests }))
}

// Returns the stamp of the last accepted command, and one quote for each symbol of `ticks` that has
// a last trade.
fn feed_facts<S: Alter>(
    alloc: Global,
    store: &mut Store<S>,
    ticks: &[Tick],
) -> Result<(Option<Stamp>, Vec<Quote>), CallFault>
    ensures { ReadPost S.Store store.old store.new result (λ market t. (market.0 ≡ t.last)
        × AreQuotesOfTicks t ticks.now ticks.now (states_of_quotes market.1.items)) }
{
    let last = store.last_stamp()?;
    let mut quotes = Vec::new(alloc);
    for tick in ticks {
        if has_no_quote_of_symbol(&quotes, tick) {
            if let Some(quote) = read_tick_quote(alloc, store, tick, ticks)? {
                quotes.push(quote)?;
            }
        }
    }
    Ok((last, quotes))
}

/// Decides on a feed of ticks at the clock reading `now` (Market-Feed): returns its plan, or the
/// refusal.
pub fn decide_feed<S: Alter>(
    alloc: Global,
    store: &mut Store<S>,
    now: Stamp,
    feed: &Feed,
) -> Planned<Plan, CallFault>
    ensures { ReadPost S.Store store.old store.new result (DecidesCommand now (FeedTicks (abstract_ticks feed.now))) }
{
    // The value is not needed: the call shows that the stamp is at most the greatest stamp.
    let _moment = now.get();
    let (last, quotes) = feed_facts(alloc, store, feed.ticks())?;
    plan_feed(alloc, feed, quotes, last, now).map_err(|_| CallFault::Memory)
}
