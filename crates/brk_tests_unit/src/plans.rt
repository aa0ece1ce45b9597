//! Plans at limits that no desk of the tests reaches: the greatest volume and the last number of a
//! trade.

use crate::planned_reply::expect_planned_reply;
use crate::texts::parse_text;
use crate::{Results, run_test};
use brk_lots::Position;
use brk_money::{Id, Price, Qty, Rate, Stamp, TaxRate, TaxStatus, TradeType, Wide};
use brk_ref::{ChargeAmount, LastTrade, RequestRow, Volume};
use brk_ref_orders::{parse_market_feed, parse_trade_order};
use brk_trade::{OrderAccount, OrderPlanFacts, Quote, plan_feed, plan_order};
use std::alloc::Global;
use std::test::Fail;

// Returns the last trade of ABC, at 10.00, after which 100 more shares may be traded up to the
// limit of the volume.
fn last_trade_100_shares_below_volume_limit(alloc: Global) -> Result<LastTrade, Fail> {
    Ok(LastTrade {
        symbol: parse_text(alloc, "ABC")?,
        stamp: Stamp::nearest(1_709_251_200_018),
        price: Price::new(1_000).unwrap(),
        volume: Volume::new(99_999_999_999_999_900).unwrap(),
    })
}

// Returns the request of trade 2, a limit buy of 10 shares of ABC at 10.00.
fn pending_limit_buy(alloc: Global) -> Result<RequestRow, Fail> {
    Ok(RequestRow {
        trade: Id::new(2).unwrap(),
        kind: TradeType::LimitBuy,
        symbol: parse_text(alloc, "ABC")?,
        qty: Qty::new(10).unwrap(),
        bid: Price::new(1_000).unwrap(),
        broker: Id::new(1).unwrap(),
    })
}

// Returns a list with one quote, of these two.
fn quote_with_pending_limit_buy(alloc: Global) -> Result<Vec<Quote>, Fail> {
    let requests = vec![in alloc; pending_limit_buy(alloc)?]?;
    let last = last_trade_100_shares_below_volume_limit(alloc)?;
    Ok(vec![in alloc; Quote { last, requests }]?)
}

// Checks that the reply to a feed with the fields `ticks`, the symbol, price and quantity of each
// tick, on the quote of `quote_with_pending_limit_buy`, or `no,` and the refusal of the feed, is
// the text `wanted`. There is no last stamp, and the clock reading is 1709251200019.
fn expect_feed_reply(alloc: Global, ticks: &[&[u8]], wanted: &str) -> Result<(), Fail> {
    let now = Stamp::nearest(1_709_251_200_019);
    let feed = parse_market_feed(alloc, ticks)??;
    let quotes = quote_with_pending_limit_buy(alloc)?;
    let planned = plan_feed(alloc, &feed, quotes, None, now);
    expect_planned_reply(alloc, planned, wanted)
}

// Feeds, each with its fields and the text of its reply.
const FEEDS: [(&[&[u8]], &str); 4] = [
    (&[b"ABC", b"9.50", b"100"], "1709251200019,2"),
    (&[b"ABC", b"9.50", b"101"], "no,14,volume"),
    (
        &[b"ABC", b"9.50", b"60", b"ABC", b"9.60", b"41"],
        "no,14,volume",
    ),
    (&[b"ABC", b"9.50", b"101", b"QQQ", b"1.00", b"1"], "no,4"),
];

// Checks that a feed up to the limit of the volume is accepted and triggers a limit buy, that feeds
// of one and of two ticks beyond the limit are refused with `Range` (14), `volume`, and that a feed
// beyond the limit with an unknown symbol is refused with `NoSecurity` (4).
fn a_feed_beyond_volume_limit_is_refused(alloc: Global) -> Result<(), Fail> {
    for (ticks, wanted) in &FEEDS {
        expect_feed_reply(alloc, ticks, wanted)?;
    }
    Ok(())
}

/// Returns the facts of the tables on which the plan for a purchase of ABC depends: an account of
/// the broker 1 with the tax status `Withheld`, an executor who is permitted, a last price of
/// 10.00, a charge of 5.00, a commission rate of one percent, tax rates of 20 percent in all,
/// assets of 10000.00, no shares held, and `trades` as the last trade id, or no trade if it is not
/// within the limits of an id.
pub fn purchase_facts(trades: u64) -> OrderPlanFacts {
    let account = OrderAccount {
        broker: Id::new(1).unwrap(),
        tax_status: TaxStatus::Withheld,
    };
    OrderPlanFacts {
        account: Some(account),
        last_price: Price::new(1_000),
        is_permitted: true,
        charge: ChargeAmount::new(500),
        rate: Rate::new(100),
        rates: TaxRate::new(20_000).unwrap(),
        assets: Wide::new(1_000_000),
        summary: None,
        last_trade: Id::new(trades),
    }
}

/// The fields of an order for 100 shares of ABC at the market.
pub const PURCHASE: [&[u8]; 10] = [
    b"100", b"TMB", b"ABC", b"100", b"", b"cash", b"fifo", b"Ann", b"Lee", b"T10",
];

// Checks that the reply to the order `PURCHASE` with `trades` as the last trade id
// (`purchase_facts`), on a position without lots, or `no,` and the refusal of the order, is the
// text `wanted`. There is no last stamp, and the clock reading is 1709251200020.
fn expect_purchase_reply(alloc: Global, trades: u64, wanted: &str) -> Result<(), Fail> {
    let found = purchase_facts(trades);
    let order = parse_trade_order(alloc, &PURCHASE)??;
    let position = Position::new(alloc);
    let mut end = position.from_end(false);
    let now = Stamp::nearest(1_709_251_200_020);
    let planned = plan_order(alloc, &order, &found, &mut end, None, now);
    expect_planned_reply(alloc, planned, wanted)
}

// Checks that an order after 10^12 - 1 trades is accepted as the trade with the greatest id, 10^12,
// and that an order after 10^12 trades is refused with `Range` (14), `trades`.
fn an_order_beyond_greatest_trade_id_is_refused(alloc: Global) -> Result<(), Fail> {
    let last = "1709251200020,1000000000000,SBMT,10.00,0.00,0.00,0.00,10.00,5.00,10000.00";
    expect_purchase_reply(alloc, 999_999_999_999, last)?;
    expect_purchase_reply(alloc, 1_000_000_000_000, "no,14,trades")
}

pub fn run_tests(rt: &HostRuntime, results: &mut Results) {
    let alloc = rt.alloc();
    run_test!(rt, results, a_feed_beyond_volume_limit_is_refused(alloc));
    run_test!(
        rt,
        results,
        an_order_beyond_greatest_trade_id_is_refused(alloc)
    );
}
