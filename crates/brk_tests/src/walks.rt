//! Tests of the walks over cash rows and lots.

use brk_desk::Desk;
use brk_lots::Lot;
use brk_money::{Fault, Id, Stamp};
use brk_ref::CashRow;
use brk_tests_desks::desks::{
    Step, buy_for_new_account, desk_after_step, desk_with_reference_data, open_in_memory,
};
use brk_tests_unit::expect::expect;
use brk_tests_unit::{Results, run_test};
use sqlite::{Alter, Connection};
use std::alloc::Global;
use std::test::Fail;

// The number of purchases of account 102, of so many that the rows of account 100 are read by the index.
const OTHER_PURCHASES: u64 = 300;

// Two purchases, a sale that closes the last lot first, a short sale on margin of another symbol,
// and a deposit.
const TRADES: Step = Step {
    batch: b"batch,W\n\
        order,100,TMB,ABC,100,,cash,fifo,Ann,Lee,T10\n\
        result,1,10.10\n\
        order,100,TMB,ABC,200,,cash,fifo,Ann,Lee,T10\n\
        result,2,12.00\n\
        order,100,TMS,ABC,150,,cash,lifo,Ann,Lee,T10\n\
        result,3,13.00\n\
        security,AB,Abe,NYSE,Tech,2.50\n\
        order,100,TMS,AB,10,,margin,fifo,Ann,Lee,T10\n\
        result,4,2.60\n\
        deposit,100,1.00\n\
        end,10\n",
    lines: "1,ok,1709251200016,1,SBMT,10.00,0.00,0.00,0.00,10.00,5.00,10000.00\n\
        2,ok,1709251200017,10.10,0.00,-1025.10,2024-03-03,0.00,0.00,8974.90\n\
        3,ok,1709251200018,2,SBMT,10.00,0.00,0.00,0.00,20.00,5.00,9974.90\n\
        4,ok,1709251200019,24.00,0.00,-2429.00,2024-03-03,0.00,0.00,6545.90\n\
        5,ok,1709251200020,3,SBMT,10.00,1800.00,1500.00,0.00,15.00,5.00,9545.90\n\
        6,ok,1709251200021,19.50,30.00,1895.50,2024-03-03,1800.00,1950.00,8441.40\n\
        7,ok,1709251200022\n\
        8,ok,1709251200023,4,SBMT,2.50,0.00,0.00,0.00,0.25,5.00,9941.40\n\
        9,ok,1709251200024,0.26,0.00,20.74,2024-03-03,0.00,0.00,8441.40\n\
        10,ok,1709251200025,4,8442.40\nend,10,0,0\n",
};

// The error that ended a walk.
#[derive(PartialEq, Eq, Clone, Copy)]
enum Ended {
    // The desk failed.
    Fault(Fault),
    // The closure stopped at the row of this trade; 0 for the row of a movement.
    At(u64),
}

impl From<Fault> for Ended {
    // Returns the error `Ended::Fault` with this fault of the desk.
    fn from(fault: Fault) -> Ended {
        Ended::Fault(fault)
    }
}

// The rows that a walk passed, as text, and the number of rows that it may still pass.
#[derive(Drop)]
struct Seen {
    rows: String,
    left: u64,
}

// Fails with `At` and the trade `trade` (0 for a movement), which stops the walk, if the walk may
// pass no more rows. Otherwise subtracts 1 from the number of rows that it may still pass.
fn count_row_or_stop(seen: &mut Seen, trade: u64) -> Result<(), Ended> {
    if seen.left == 0 {
        return Err(Ended::At(trade));
    }
    seen.left = seen.left.saturating_sub(1);
    Ok(())
}

// Counts a cash row (`count_row_or_stop`) and appends its number, trade (0 for a movement), stamp,
// amount in cents and text to the rows as a line. Fails with `At` if no more rows may be passed,
// and with `Memory` if memory runs out.
fn record_cash_row(seen: &mut Seen, row: &CashRow) -> Result<(), Ended> {
    let trade = row.trade.map_or(0, Id::get);
    count_row_or_stop(seen, trade)?;
    let (place, stamp, amount) = (row.id.get(), row.stamp.get(), row.amount.get());
    match writeln!(seen.rows, "{place} {trade} {stamp} {amount} {}", row.name) {
        Ok(()) => Ok(()),
        Err(_) => Err(Ended::Fault(Fault::Memory)),
    }
}

// Counts a lot and appends its trade, stamp, quantity, symbol and price in cents to the rows as a
// line. Fails with `At` if no more rows may be passed, and with `Memory` if memory runs out.
fn record_lot(seen: &mut Seen, symbol: &str, lot: &Lot) -> Result<(), Ended> {
    count_row_or_stop(seen, lot.trade.get())?;
    let (trade, stamp, price) = (lot.trade.get(), lot.stamp.get(), lot.price.get());
    match writeln!(seen.rows, "{trade} {stamp} {} {symbol} {price}", lot.qty) {
        Ok(()) => Ok(()),
        Err(_) => Err(Ended::Fault(Fault::Memory)),
    }
}

// Walks over the cash rows of an account with a stamp from `from` to `to`, both included, and
// records at most `seen.left` of them in `seen`; the next row stops the walk with `Ended::At`.
fn record_cash_rows<S: Alter>(
    desk: &mut Desk<S>,
    account: Id,
    from: Stamp,
    to: Stamp,
    seen: &mut Seen,
) -> Result<(), Ended> {
    desk.walk_cash(
        account,
        from,
        to,
        |row: &CashRow| record_cash_row(seen, row),
    )
}

// Walks over the lots of an account, and records at most `seen.left` of them in `seen`; the next
// lot stops the walk with `Ended::At`.
fn record_lots<S: Alter>(desk: &mut Desk<S>, account: Id, seen: &mut Seen) -> Result<(), Ended> {
    desk.walk_lots(
        account,
        |symbol: &str, lot: &Lot| record_lot(seen, symbol, lot),
    )
}

// Checks that a walk passed the rows `rows`, and ended with the result `wanted`.
fn expect_walk(
    seen: &Seen,
    ended: Result<(), Ended>,
    rows: &str,
    wanted: Result<(), Ended>,
) -> Result<(), Fail> {
    expect(
        ended == wanted && seen.rows.as_str() == rows,
        format_args!("{} instead of {rows}", seen.rows),
    )
}

// Walks over cash rows: the first and the last stamp, the number of rows that the walk may pass,
// the rows that it passes, and its result.
const CASH: [(i64, i64, u64, &str, Result<(), Ended>); 10] = [
    (
        0,
        253_402_300_799_999,
        9,
        "1 1 1709251200017 -102510 Market-Buy 100 shares of Acme\n\
            2 2 1709251200019 -242900 Market-Buy 200 shares of Acme\n\
            3 3 1709251200021 189550 Market-Sell 150 shares of Acme\n\
            4 0 1709251200025 100 Deposit\n",
        Ok(()),
    ),
    (
        1_709_251_200_017,
        1_709_251_200_021,
        3,
        "1 1 1709251200017 -102510 Market-Buy 100 shares of Acme\n\
            2 2 1709251200019 -242900 Market-Buy 200 shares of Acme\n\
            3 3 1709251200021 189550 Market-Sell 150 shares of Acme\n",
        Ok(()),
    ),
    (
        1_709_251_200_018,
        1_709_251_200_020,
        9,
        "2 2 1709251200019 -242900 Market-Buy 200 shares of Acme\n",
        Ok(()),
    ),
    (
        1_709_251_200_019,
        1_709_251_200_019,
        9,
        "2 2 1709251200019 -242900 Market-Buy 200 shares of Acme\n",
        Ok(()),
    ),
    (1_709_251_200_020, 1_709_251_200_020, 9, "", Ok(())),
    (1_709_251_200_021, 1_709_251_200_017, 9, "", Ok(())),
    (0, 1_709_251_200_021, 0, "", Err(Ended::At(1))),
    (
        0,
        1_709_251_200_021,
        1,
        "1 1 1709251200017 -102510 Market-Buy 100 shares of Acme\n",
        Err(Ended::At(2)),
    ),
    (
        1_709_251_200_022,
        1_709_251_200_025,
        0,
        "",
        Err(Ended::At(0)),
    ),
    (
        0,
        1_709_251_200_021,
        2,
        "1 1 1709251200017 -102510 Market-Buy 100 shares of Acme\n\
            2 2 1709251200019 -242900 Market-Buy 200 shares of Acme\n",
        Err(Ended::At(3)),
    ),
];

// Walks over lots: the account, the number of lots that the walk may pass, the lots that it passes,
// and its result.
const LOTS: [(u64, u64, &str, Result<(), Ended>); 5] = [
    (
        100,
        9,
        "4 1709251200024 -10 AB 260\n1 1709251200017 100 ABC 1010\n\
            2 1709251200019 50 ABC 1200\n",
        Ok(()),
    ),
    (100, 0, "", Err(Ended::At(4))),
    (100, 1, "4 1709251200024 -10 AB 260\n", Err(Ended::At(1))),
    (
        100,
        2,
        "4 1709251200024 -10 AB 260\n1 1709251200017 100 ABC 1010\n",
        Err(Ended::At(2)),
    ),
    (101, 9, "", Ok(())),
];

// Checks each walk of `CASH` over the cash rows of account 100 on a desk after `TRADES`.
fn expect_cash_row_walks<S: Alter>(alloc: Global, desk: &mut Desk<S>) -> Result<(), Fail> {
    let account = Id::new(100).unwrap();
    for (from, to, left, rows, wanted) in CASH {
        let mut seen = Seen {
            rows: String::new(alloc),
            left,
        };
        let (from, to) = (Stamp::nearest(from), Stamp::nearest(to));
        let ended = record_cash_rows(desk, account, from, to, &mut seen);
        expect_walk(&seen, ended, rows, wanted)?;
    }
    Ok(())
}

// Checks each walk of `LOTS` over the lots of its account on a desk after `TRADES`.
fn expect_lot_walks<S: Alter>(alloc: Global, desk: &mut Desk<S>) -> Result<(), Fail> {
    for (account, left, rows, wanted) in LOTS {
        let account = Id::new(account).ok_or("an account")?;
        let mut seen = Seen {
            rows: String::new(alloc),
            left,
        };
        let ended = record_lots(desk, account, &mut seen);
        expect_walk(&seen, ended, rows, wanted)?;
    }
    Ok(())
}

// Checks the walks on a desk in the database of a connection, after the batch `SET` and `TRADES`
// and so many purchases of account 102.
fn expect_walks_beside<S: Alter + Drop>(
    alloc: Global,
    conn: Option<Connection<S>>,
    purchases: u64,
) -> Result<(), Fail> {
    let desk = desk_with_reference_data(alloc, conn)?;
    let mut desk = desk_after_step(alloc, desk, "trades", TRADES)?;
    buy_for_new_account(alloc, &mut desk, 102, 5, purchases)?;
    expect_cash_row_walks(alloc, &mut desk)?;
    expect_lot_walks(alloc, &mut desk)
}

// Checks, for each walk of `CASH` and of `LOTS`, that it passes exactly the wanted cash rows, sorted
// by stamp, or lots, sorted by symbol, then by opening stamp, ascending, and that it has the wanted
// result: on a small desk by a scan, and on one with `OTHER_PURCHASES` more trades by the index.
fn walks_pass_rows_in_order(alloc: Global) -> Result<(), Fail> {
    expect_walks_beside(alloc, open_in_memory(alloc), 0)?;
    expect_walks_beside(alloc, open_in_memory(alloc), OTHER_PURCHASES)
}

pub fn run_tests(rt: &HostRuntime, results: &mut Results) {
    let alloc = rt.alloc();
    run_test!(rt, results, walks_pass_rows_in_order(alloc));
}
