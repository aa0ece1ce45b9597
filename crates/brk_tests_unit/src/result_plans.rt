use crate::expect::expect_some;
use crate::planned_reply::expect_planned_reply;
use crate::texts::parse_text;
use crate::{Results, run_test};
use brk_lots::Position;
use brk_money::{Cents, Id, MoveId, Planned, Price, Qty, Rate, Stamp, Status, TaxRate, TradeType};
use brk_ref::{
    AccountRow, BrokerRow, ChargeAmount, Listing, Tier, check_account, check_broker, check_security,
};
use brk_trade::{
    Amount, Plan, Posting, ResultPlanFacts, SummaryRow, TradeParties, TradeRow, TradedSecurity,
    plan_result,
};
use std::alloc::Global;
use std::test::Fail;

/// A trade of ABC before its result: its type, quantity, cash or margin, status and commission rate
/// in hundredths of a percent, the shares held, the balance in cents, the broker's completed trades
/// and its commissions in cents, and the last stamp in milliseconds.
#[derive(Clone, Copy)]
pub struct Case {
    kind: TradeType,
    qty: u32,
    is_cash: bool,
    status: Status,
    rate: Option<u32>,
    held: Option<i64>,
    balance: i64,
    trades: i64,
    commissions: u64,
    last: i64,
}

/// The case of a submitted cash purchase of 100 shares at a balance of 10000.00, with a commission
/// rate of one percent, without shares held and without earlier trades and commissions.
pub const SUBMITTED_CASH_PURCHASE: Case = Case {
    kind: TradeType::MarketBuy,
    qty: 100,
    is_cash: true,
    status: Status::Submitted,
    rate: Some(100),
    held: None,
    balance: 1_000_000,
    trades: 0,
    commissions: 0,
    last: 1_709_251_200_016,
};

/// Returns the TRADE row of the trade of a case, with the id 1, the account 100, a bid of 10.00, a
/// charge of 5.00, a commission of 10.00, a tax of 0 and no price, which closes the oldest lots
/// first.
pub fn trade_row_of_case(alloc: Global, case: &Case) -> Result<TradeRow, Fail> {
    let (id, account) = (Id::new(1).unwrap(), Id::new(100).unwrap());
    let bid = Price::new(1_000).unwrap();
    let charge = ChargeAmount::new(500).unwrap();
    let (commission, tax) = (Amount::new(1_000).unwrap(), Amount::new(0).unwrap());
    let qty = expect_some(Qty::new(case.qty), "quantity")?;
    Ok(TradeRow {
        id,
        stamp: Stamp::nearest(1_709_251_200_016),
        status: case.status,
        kind: case.kind,
        is_cash: case.is_cash,
        symbol: parse_text(alloc, "ABC")?,
        qty,
        bid,
        account,
        executor: String::from_str(alloc, "Ann Lee")?,
        price: None,
        charge,
        commission,
        tax,
        is_lifo: false,
    })
}

// Returns the row of account 100, with broker 1, the tax status `Withheld`, and the balance of the
// case.
fn account_of_case(alloc: Global, case: &Case) -> Result<AccountRow, Fail> {
    let fields: [&[u8]; 6] = [b"100", b"10", b"1", b"Acc", b"1", b"10000.00"];
    let balance = expect_some(Cents::new(case.balance), "balance")?;
    let account = check_account(alloc, &fields)??;
    Ok(AccountRow { account, balance })
}

// Returns the row of broker 1 before the result of a case.
fn broker_of_case(alloc: Global, case: &Case) -> Result<BrokerRow, Fail> {
    Ok(BrokerRow {
        broker: check_broker(alloc, &[b"1", b"Bo"])??,
        trades: case.trades,
        commissions: case.commissions,
    })
}

// Returns the account and the broker of a case, with a customer of tier 1 whose tax rates are 20
// percent in all.
fn parties_of_case(alloc: Global, case: &Case) -> Result<TradeParties, Fail> {
    Ok(TradeParties {
        account: account_of_case(alloc, case)?,
        broker: broker_of_case(alloc, case)?,
        tier: Tier::new(1).unwrap(),
        rates: TaxRate::new(20_000).unwrap(),
    })
}

// Returns the summary of ABC in account 100 with the shares held in a case, if any.
fn summary_of_case(alloc: Global, case: &Case) -> Result<Option<SummaryRow>, Fail> {
    let Some(qty) = case.held else {
        return Ok(None);
    };
    Ok(Some(SummaryRow {
        account: Id::new(100).unwrap(),
        symbol: parse_text(alloc, "ABC")?,
        qty,
    }))
}

// Returns the security ABC with the rate of a case, if any.
fn security_of_case(alloc: Global, case: &Case) -> Result<TradedSecurity, Fail> {
    let fields: [&[u8]; 5] = [b"ABC", b"Acme", b"NYSE", b"Tech", b"10.00"];
    let rate = match case.rate {
        Some(rate) => Some(expect_some(Rate::new(rate), "rate")?),
        None => None,
    };
    let Listing { security, .. } = check_security(alloc, &fields)??;
    Ok(TradedSecurity { security, rate })
}

/// Returns the facts of the tables on which the plan for the result of a case depends, with tax
/// rates of 20 percent in all, no first day of one-day settlement, and 1 as the number of the next
/// cash row.
pub fn result_facts(alloc: Global, case: &Case) -> Result<ResultPlanFacts, Fail> {
    Ok(ResultPlanFacts {
        trade: trade_row_of_case(alloc, case)?,
        parties: parties_of_case(alloc, case)?,
        summary: summary_of_case(alloc, case)?,
        listed: security_of_case(alloc, case)?,
        posting: Posting {
            rule: None,
            next: MoveId::new(1).unwrap(),
        },
    })
}

/// Returns what is planned for a result at 10.10 with the facts `found`, on a position without
/// lots, at the clock reading 1709251200000 and after the last stamp `last`, if any. If `found` is
/// `None`, the trade does not exist.
pub fn plan_of_result(
    alloc: Global,
    found: Option<&ResultPlanFacts>,
    last: Option<Stamp>,
) -> Planned<Plan> {
    let price = Price::new(1_010).unwrap();
    let position = Position::new(alloc);
    let mut end = position.from_end(false);
    let now = Stamp::nearest(1_709_251_200_000);
    plan_result(alloc, found, price, &mut end, last, now)
}

// Checks that the reply to a result (`plan_of_result`), or `no,` and the refusal of the result, or
// the name of its fault, is the text `wanted`.
fn expect_result_reply(
    alloc: Global,
    found: Option<&ResultPlanFacts>,
    last: Option<Stamp>,
    wanted: &str,
) -> Result<(), Fail> {
    let planned = plan_of_result(alloc, found, last);
    expect_planned_reply(alloc, planned, wanted)
}

// Checks that the reply to the result of the trade of a case, or `no,` and the refusal of the
// result, or the name of its fault, is the text `wanted`. If the last stamp of the case is not
// within its limits, there is none.
fn expect_case_reply(alloc: Global, case: &Case, wanted: &str) -> Result<(), Fail> {
    let found = result_facts(alloc, case)?;
    expect_result_reply(alloc, Some(&found), Stamp::new(case.last), wanted)
}

// Checks that a result for a trade that does not exist is refused with `NoTrade` (5).
fn a_result_without_a_trade_is_refused(alloc: Global) -> Result<(), Fail> {
    expect_result_reply(alloc, None, None, "no,5")
}

// The case of `SUBMITTED_CASH_PURCHASE` on a desk whose last stamp is the greatest one. Each of the
// next cases has one more cause to be refused.
const WITHOUT_LATER_STAMP: Case = Case {
    last: Stamp::GREATEST,
    ..SUBMITTED_CASH_PURCHASE
};

// `WITHOUT_LATER_STAMP` with the broker's commissions at their limit, so that the commission of the
// trade exceeds it.
const BEYOND_BROKER_LIMIT: Case = Case {
    commissions: 100_000_000_000_000_000,
    ..WITHOUT_LATER_STAMP
};

// `BEYOND_BROKER_LIMIT` with the balance at its lower limit, so that the purchase would lower the
// balance below the limit, and with the shares held 100 below their limit, which 100 more reach.
const BEYOND_BALANCE_LIMIT: Case = Case {
    held: Some(9_999_999_899),
    balance: -100_000_000_000_000_000,
    ..BEYOND_BROKER_LIMIT
};

// `BEYOND_BALANCE_LIMIT` with the shares held 99 below their limit, so that 100 more exceed it.
const BEYOND_SUMMARY_LIMIT: Case = Case {
    held: Some(9_999_999_900),
    ..BEYOND_BALANCE_LIMIT
};

// `BEYOND_SUMMARY_LIMIT` without a commission band for the trade.
const WITHOUT_COMMISSION_BAND: Case = Case {
    rate: None,
    ..BEYOND_SUMMARY_LIMIT
};

/// The text of the reply to the result of `SUBMITTED_CASH_PURCHASE`.
pub const REPLY_TO_RESULT: &str = "1709251200017,10.10,0.00,-1025.10,2024-03-03,0.00,0.00,8974.90";

// The cases above, and `WITHOUT_COMMISSION_BAND` with the trade in four other statuses, each with
// the text of its reply.
const CAUSES: [(Case, &str); 10] = [
    (SUBMITTED_CASH_PURCHASE, REPLY_TO_RESULT),
    (WITHOUT_LATER_STAMP, "no,21"),
    (BEYOND_BROKER_LIMIT, "no,14,broker"),
    (BEYOND_BALANCE_LIMIT, "no,14,balance"),
    (BEYOND_SUMMARY_LIMIT, "no,14,summary"),
    (WITHOUT_COMMISSION_BAND, "no,11"),
    (
        Case {
            status: Status::Completed,
            ..WITHOUT_COMMISSION_BAND
        },
        "no,13,CMPT",
    ),
    (
        Case {
            status: Status::Pending,
            ..WITHOUT_COMMISSION_BAND
        },
        "no,13,PNDG",
    ),
    (
        Case {
            status: Status::Canceled,
            ..WITHOUT_COMMISSION_BAND
        },
        "no,13,CNCL",
    ),
    (
        Case {
            status: Status::Active,
            ..WITHOUT_COMMISSION_BAND
        },
        "no,13,ACTV",
    ),
];

// Checks that the submitted purchase is accepted, and that a result with one or more causes to be
// refused is refused by the first one that applies, in this order: the status of the trade (13),
// its commission band (11), the limits of the shares held, the balance and the broker (14), and the
// last stamp (21).
fn results_are_refused_by_the_first_cause(alloc: Global) -> Result<(), Fail> {
    for (case, wanted) in &CAUSES {
        expect_case_reply(alloc, case, wanted)?;
    }
    Ok(())
}

// Cases at the limits of the broker's commissions and of the balance, each with the text of its
// reply: the last cent of commissions, one cent more, and a margin trade at the lower limit of the
// balance, which it does not change.
const LIMITS: [(Case, &str); 3] = [
    (
        Case {
            commissions: 99_999_999_999_998_990,
            ..SUBMITTED_CASH_PURCHASE
        },
        REPLY_TO_RESULT,
    ),
    (
        Case {
            commissions: 99_999_999_999_998_991,
            ..SUBMITTED_CASH_PURCHASE
        },
        "no,14,broker",
    ),
    (
        Case {
            is_cash: false,
            balance: -100_000_000_000_000_000,
            ..SUBMITTED_CASH_PURCHASE
        },
        "1709251200017,10.10,0.00,-1025.10,2024-03-03,0.00,0.00,-1000000000000000.00",
    ),
];

// Checks that a result that reaches the limit of the broker's commissions is accepted, that one
// that exceeds it by one cent is refused with `Range` (14), `broker`, and that the result of a
// margin trade, which does not change the balance, is accepted at the lower limit of the balance.
fn results_respect_broker_and_balance_limits(alloc: Global) -> Result<(), Fail> {
    for (case, wanted) in &LIMITS {
        expect_case_reply(alloc, case, wanted)?;
    }
    Ok(())
}

// The greatest number of completed trades of a broker.
const GREATEST_TRADE_COUNT: i64 = 1_000_000_000_000;

// Numbers of completed trades that no broker can have.
const IMPOSSIBLE_TRADE_COUNTS: [i64; 4] = [i64::MIN, -1, GREATEST_TRADE_COUNT + 1, i64::MAX];

// Checks that a result is planned if the broker's number of completed trades is the greatest, and
// that it fails with `Store` if the number is out of range, whatever else would refuse it.
fn a_result_needs_a_possible_number_of_trades(alloc: Global) -> Result<(), Fail> {
    let greatest = Case {
        trades: GREATEST_TRADE_COUNT,
        ..SUBMITTED_CASH_PURCHASE
    };
    expect_case_reply(alloc, &greatest, REPLY_TO_RESULT)?;
    for trades in IMPOSSIBLE_TRADE_COUNTS {
        let case = Case {
            trades,
            ..WITHOUT_COMMISSION_BAND
        };
        expect_case_reply(alloc, &case, "Store")?;
    }
    Ok(())
}

// Types of trades, shares held and quantities, each with the text of the reply to the result of a
// purchase or sale that is otherwise `SUBMITTED_CASH_PURCHASE`.
const SUMMARIES: [(TradeType, i64, u32, &str); 4] = [
    (
        TradeType::MarketBuy,
        9_999_999_000,
        999,
        "1709251200017,100.90,0.00,-10195.80,2024-03-03,0.00,0.00,-195.80",
    ),
    (TradeType::MarketBuy, 9_999_999_000, 1_000, "no,14,summary"),
    (
        TradeType::LimitSell,
        -9_999_999_000,
        999,
        "1709251200017,100.90,0.00,9984.00,2024-03-03,0.00,0.00,19984.00",
    ),
    (TradeType::LimitSell, -9_999_999_000, 1_000, "no,14,summary"),
];

// Checks that a result that reaches the limit of the shares held, bought or sold short, is
// accepted, and that one that exceeds it by one share is refused with `Range` (14), `summary`.
fn results_respect_holding_summary_limits(alloc: Global) -> Result<(), Fail> {
    for (kind, held, qty, wanted) in &SUMMARIES {
        let case = Case {
            kind: *kind,
            qty: *qty,
            held: Some(*held),
            ..SUBMITTED_CASH_PURCHASE
        };
        expect_case_reply(alloc, &case, wanted)?;
    }
    Ok(())
}

pub fn run_tests(rt: &HostRuntime, results: &mut Results) {
    let alloc = rt.alloc();
    run_test!(rt, results, a_result_without_a_trade_is_refused(alloc));
    run_test!(rt, results, results_are_refused_by_the_first_cause(alloc));
    run_test!(
        rt,
        results,
        results_respect_broker_and_balance_limits(alloc)
    );
    run_test!(rt, results, results_respect_holding_summary_limits(alloc));
    run_test!(
        rt,
        results,
        a_result_needs_a_possible_number_of_trades(alloc)
    );
}
