//! The lowest and the highest price of the ticks of a symbol, and what they can trigger.

ghost use Rattle.std.specs.Prelude.{◌≡◌};
ghost use Rattle.brk_trade_plans.specs.Feed as spec;

use brk_money::{Price, TradeType};
use brk_ref_orders::Tick;

/// The lowest and the highest of some prices, in cents.
#[derive(Clone, Copy, Drop)]
pub struct PriceSpan {
    pub lowest: Price,
    pub highest: Price,
}

impl PriceSpan {
    /// Returns true if a market price of the span can trigger a pending trade: a stop loss or a
    /// limit buy if the lowest is at most its bid, a limit sell if the highest is at least its bid,
    /// a market type never.
    pub fn can_trigger(self, kind: TradeType, bid: Price) -> bool
        ensures { result ≡ spec.is_request_triggered_in_span self kind bid }
    {
        match kind {
            TradeType::StopLoss | TradeType::LimitBuy => self.lowest.get() <= bid.get(),
            TradeType::LimitSell => bid.get() <= self.highest.get(),
            TradeType::MarketBuy | TradeType::MarketSell => false,
        }
    }
}

fn widen_span(span: PriceSpan, price: Price) -> PriceSpan
    ensures { result ≡ spec.span_including_price price span }
{
    let lowest = if price.get() < span.lowest.get() {
        price
    } else {
        span.lowest
    };
    let highest = if span.highest.get() < price.get() {
        price
    } else {
        span.highest
    };
    PriceSpan { lowest, highest }
}

/// Returns the price span of `first` and of those ticks of `others` that have its symbol.
pub fn first_symbol_price_span(first: &Tick, others: &[Tick]) -> PriceSpan
    ensures { result ≡ spec.price_span_of_first_symbol first.now others.now }
{
    let mut span = PriceSpan {
        lowest: first.price,
        highest: first.price,
    };
    for tick in others {
        if tick.symbol.as_str() == first.symbol.as_str() {
            span = widen_span(span, tick.price);
        }
    }
    span
}
