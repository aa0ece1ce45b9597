use crate::planned::expect_planned;
use brk_audit::{Sheets, audit_rows};
use brk_money::Condition;
use brk_ref::{BrokerRow, check_broker};
use brk_tests_unit::expect::expect_equal;
use brk_tests_unit::{Results, run_test};
use brk_trade_rows::Schema;
use std::alloc::Global;
use std::test::Fail;

fn rows_of_one_broker(alloc: Global, trades: i64) -> Result<Sheets, Fail> {
    let row = BrokerRow {
        broker: expect_planned(check_broker(alloc, &[b"1", b"Bo"]))?,
        trades,
        commissions: 0,
    };
    Ok(Sheets {
        schema: Schema::Third,
        last: None,
        kept: Vec::new(alloc),
        brokers: vec![in alloc; row]?,
        customers: Vec::new(alloc),
        accounts: Vec::new(alloc),
        permissions: Vec::new(alloc),
        securities: Vec::new(alloc),
        last_trades: Vec::new(alloc),
        charges: Vec::new(alloc),
        bands: Vec::new(alloc),
        tax_rates: Vec::new(alloc),
        customer_taxes: Vec::new(alloc),
        trades: Vec::new(alloc),
        history: Vec::new(alloc),
        requests: Vec::new(alloc),
        holdings: Vec::new(alloc),
        summaries: Vec::new(alloc),
        holding_history: Vec::new(alloc),
        settlements: Vec::new(alloc),
        cash: Vec::new(alloc),
        moves: Vec::new(alloc),
        rule: None,
    })
}

fn expect_audit(alloc: Global, trades: i64, wanted: Option<Condition>) -> Result<(), Fail> {
    let sheets = rows_of_one_broker(alloc, trades)?;
    expect_equal(audit_rows(alloc, &sheets)?, wanted)
}

// Checks the public names of brk_audit: the rows of a desk with a broker without trades pass, and
// those with a trade too many fail the condition `Count`.
fn surface_of_brk_audit(alloc: Global) -> Result<(), Fail> {
    expect_audit(alloc, 0, None)?;
    expect_audit(alloc, 1, Some(Condition::Count))
}

pub fn run_tests(rt: &HostRuntime, results: &mut Results) {
    let alloc = rt.alloc();
    run_test!(rt, results, surface_of_brk_audit(alloc));
}
