//! Test of the public names of brk_store that no other test uses.

use crate::statements::desk_after_trades;
use brk_lots::Lot;
use brk_money::{Fault, Id, Stamp};
use brk_ref::{CashRow, SummaryRow, Symbol};
use brk_store::Store;
use brk_tests_desks::desks::open_in_memory;
use brk_tests_unit::expect::expect;
use brk_tests_unit::{Results, run_test};
use sqlite::{Alter, Connection};
use std::alloc::Global;
use std::test::Fail;

// In cents.
fn expect_balance<S: Alter>(store: &mut Store<S>, account: Id) -> Result<(), Fail> {
    let balance = store.balance_of(account)?.ok_or("no account")?;
    expect(balance.get() == 840_340, "another balance")
}

fn expect_totals<S: Alter>(store: &mut Store<S>) -> Result<(), Fail> {
    let broker = Id::new(1).unwrap();
    let numbers = store.broker_numbers(broker)?.ok_or("no broker")?;
    expect(
        numbers.trades.get() == 3 && numbers.commissions.get() == 5_360,
        "other totals",
    )
}

fn expect_summary<S: Alter>(alloc: Global, store: &mut Store<S>, account: Id) -> Result<(), Fail> {
    let symbol = Symbol::parse(alloc, b"ABC")?.ok_or("symbol")?;
    let summary: SummaryRow = store.summary_of(account, &symbol)?.ok_or("no summary")?;
    expect(summary.qty == 150, "another summary")
}

fn expect_summaries<S: Alter>(
    alloc: Global,
    store: &mut Store<S>,
    account: Id,
) -> Result<(), Fail> {
    let summaries = store.summaries_of(alloc, account)?;
    expect(
        matches!(summaries.as_slice(), [summary] if summary.qty == 150),
        "other summaries",
    )
}

// In cents. Never fails.
fn add_amount(sum: &mut i64, row: &CashRow) -> Result<(), Fault> {
    *sum = sum.saturating_add(row.amount.get());
    Ok(())
}

// Adds the shares of a lot of ABC. Never fails.
fn add_shares(sum: &mut i64, symbol: &str, lot: &Lot) -> Result<(), Fault> {
    if symbol == "ABC" {
        *sum = sum.saturating_add(lot.qty);
    }
    Ok(())
}

fn sum_cash_rows<S: Alter>(store: &mut Store<S>, account: Id, sum: &mut i64) -> Result<(), Fault> {
    store.walk_cash(
        account,
        Stamp::nearest(0),
        Stamp::nearest(i64::MAX),
        |row: &CashRow| add_amount(sum, row),
    )
}

fn sum_lots<S: Alter>(store: &mut Store<S>, account: Id, sum: &mut i64) -> Result<(), Fault> {
    store.walk_lots(
        account,
        |symbol: &str, lot: &Lot| add_shares(sum, symbol, lot),
    )
}

fn expect_walked_sums<S: Alter>(store: &mut Store<S>, account: Id) -> Result<(), Fail> {
    let mut cash = 0i64;
    sum_cash_rows(store, account, &mut cash)?;
    let mut shares = 0i64;
    sum_lots(store, account, &mut shares)?;
    expect(cash == -159_660 && shares == 150, "other sums")
}

// Checks reads of the store of a desk after the trades of account 100, and its audit.
fn expect_numbers_after_trades<S: Alter>(alloc: Global, store: &mut Store<S>) -> Result<(), Fail> {
    let account = Id::new(100).unwrap();
    expect_balance(store, account)?;
    expect_totals(store)?;
    expect_summary(alloc, store, account)?;
    expect_summaries(alloc, store, account)?;
    expect_walked_sums(store, account)?;
    Ok(store.audit(alloc)?)
}

fn expect_numbers_of_new_store<S: Alter + Drop>(
    alloc: Global,
    conn: Option<Connection<S>>,
) -> Result<(), Fail> {
    let mut store = desk_after_trades(alloc, conn)?.into_store();
    expect_numbers_after_trades(alloc, &mut store)
}

// Checks public names of brk_store: reads of an account, a broker and a position, walks, and an
// audit.
fn surface_of_brk_store(alloc: Global) -> Result<(), Fail> {
    expect_numbers_of_new_store(alloc, open_in_memory(alloc))
}

pub fn run_tests(rt: &HostRuntime, results: &mut Results) {
    let alloc = rt.alloc();
    run_test!(rt, results, surface_of_brk_store(alloc));
}
