use brk_money::{Cents, Id, Stamp, Wide};
use brk_ref::LotChange;
use brk_tests_unit::expect::expect_text;
use brk_tests_unit::result_plans::{SUBMITTED_CASH_PURCHASE, trade_row_of_case};
use brk_tests_unit::texts::parse_text;
use brk_tests_unit::{Results, run_test};
use brk_view::{
    AccountStatus, AccountWorth, BrokerVolume, LotTouch, TouchedLots, View, broker_volume,
    lookup_account, lookup_ids, lookup_lots, lookup_symbol, position, recent, status, submitted,
    view_fields,
};
use std::alloc::{AllocError, Global};
use std::slice;
use std::test::Fail;

fn append_record(told: &mut String, record: &[String]) -> Result<(), AllocError> {
    for field in record {
        told.push_str(field.as_str())?;
        told.push_str(",")?;
    }
    told.push_str("\n")
}

/// Returns the records of a view as lines, in which each field ends with a comma.
pub fn format_records(alloc: Global, view: &View) -> Result<String, Fail> {
    let records: Vec<Vec<String>> = view_fields(alloc, view)?;
    let mut told = String::new(alloc);
    for record in &records {
        append_record(&mut told, record)?;
    }
    Ok(told)
}

/// Checks that the records of a view (`format_records`) are the text `wanted`.
fn expect_records(alloc: Global, view: View, wanted: &str) -> Result<(), Fail> {
    let told = format_records(alloc, &view)?;
    expect_text(told.as_str(), wanted)
}

fn expect_worths(alloc: Global) -> Result<(), Fail> {
    let worth = AccountWorth {
        account: Id::new(100).unwrap(),
        balance: Cents::new(840_340).unwrap(),
        assets: Wide::new(150_000),
    };
    let view: View = position(alloc, vec![in alloc; worth]?)?;
    expect_records(alloc, view, "100,8403.40,1500.00,\n")
}

fn expect_volumes(alloc: Global) -> Result<(), Fail> {
    let volume = BrokerVolume {
        broker: Id::new(1).unwrap(),
        name: parse_text(alloc, "Bo")?,
        volume: Wide::new(30_000),
    };
    let view = broker_volume(alloc, vec![in alloc; volume]?)?;
    expect_records(alloc, view, "Bo,1,300.00,\n")
}

fn expect_submitted(alloc: Global) -> Result<(), Fail> {
    let trade = trade_row_of_case(alloc, &SUBMITTED_CASH_PURCHASE)?;
    let view = submitted(alloc, slice::from_ref(&trade))?;
    expect_records(alloc, view, "1,TMB,ABC,100,10.00,\n")
}

// The account has no trades.
fn status_without_trades(alloc: Global) -> Result<AccountStatus, Fail> {
    Ok(AccountStatus {
        last_name: parse_text(alloc, "Lee")?,
        first_name: parse_text(alloc, "Ann")?,
        broker: parse_text(alloc, "Bo")?,
        trades: Vec::new(alloc),
    })
}

fn expect_status(alloc: Global) -> Result<(), Fail> {
    let view = status(status_without_trades(alloc)?);
    expect_records(alloc, view, "Lee,Ann,Bo,\n")
}

fn expect_no_trades(alloc: Global) -> Result<(), Fail> {
    let view = recent(alloc, Vec::new(alloc), Vec::new(alloc))?;
    expect_records(alloc, view, "")?;
    expect_records(alloc, lookup_ids(Vec::new(alloc)), "")?;
    expect_records(alloc, lookup_account(Vec::new(alloc)), "")?;
    expect_records(alloc, lookup_symbol(Vec::new(alloc)), "")
}

fn expect_touched_lots(alloc: Global) -> Result<(), Fail> {
    let trade = Id::new(1).unwrap();
    let opened = LotTouch {
        change: LotChange {
            lot: trade,
            trade,
            before: 0,
            after: 100,
        },
        stamp: Stamp::nearest(1_709_251_200_017),
    };
    let lots = TouchedLots {
        trade,
        changes: vec![in alloc; opened]?,
    };
    expect_records(alloc, lookup_lots(Some(lots)), "1,\n1,1,0,100,\n")
}

// Checks the public names of brk_view: the nine views of typed rows, and the records of a view.
fn surface_of_brk_view(alloc: Global) -> Result<(), Fail> {
    expect_worths(alloc)?;
    expect_volumes(alloc)?;
    expect_submitted(alloc)?;
    expect_status(alloc)?;
    expect_no_trades(alloc)?;
    expect_touched_lots(alloc)
}

pub fn run_tests(rt: &HostRuntime, results: &mut Results) {
    let alloc = rt.alloc();
    run_test!(rt, results, surface_of_brk_view(alloc));
}
