//! Tests of the rows that a sale reads, on a position of forty lots of one share each.

use brk_lots::{Closing, LotSource, close};
use brk_money::{Id, Price, Qty, Side, Stamp};
use brk_ref::Symbol;
use brk_store::{LotPages, Store};
use brk_tests_desks::desks::{buy_for_new_account, desk_with_reference_data, open_in_memory};
use brk_tests_desks::worked::FIRST_MOMENT;
use brk_tests_unit::expect::expect;
use brk_tests_unit::{Results, run_test};
use brk_trade::Change;
use sqlite::{Alter, Connection};
use std::alloc::Global;
use std::test::Fail;

// The number of lots of account 101.
const LOTS: u64 = 40;

// The number of lots of account 102, so many that the pages of a desk with them are read by the index.
const OTHER_LOTS: u64 = 300;

// Returns the store of a desk in the database of a connection after the batch `SET` and the
// purchases of `LOTS` lots of one share each for account 101 and of `others` for account 102.
fn store_with_forty_lots<S: Alter + Drop>(
    alloc: Global,
    conn: Option<Connection<S>>,
    others: u64,
) -> Result<Store<S>, Fail> {
    let mut desk = desk_with_reference_data(alloc, conn)?;
    buy_for_new_account(alloc, &mut desk, 101, 1, LOTS)?;
    buy_for_new_account(alloc, &mut desk, 102, LOTS + 1, others)?;
    Ok(desk.into_store())
}

fn account_of_lots() -> Id {
    Id::new(101).unwrap()
}

// Computes the closing of the lots of a source by a sale of `count` shares at 10.00.
fn closing_by_sale<L: LotSource>(alloc: Global, lots: &mut L, count: u32) -> Result<Closing, Fail> {
    let trade = Id::new(1_000).unwrap();
    let qty = Qty::new(count).ok_or("quantity")?;
    let price = Price::new(1_000).unwrap();
    let stamp = Stamp::nearest(FIRST_MOMENT);
    Ok(close(alloc, lots, Side::Sell, qty, trade, price, stamp)?)
}

// Computes the closing of lots of the position, in order of their opening stamps, the newest lots
// first if `lifo` is true, by a sale of `count` shares at 10.00. Returns the closing and the number
// of rows that were read. Changes no lot.
fn closing_and_row_count<S: Alter>(
    alloc: Global,
    store: &mut Store<S>,
    symbol: &Symbol,
    count: u32,
    lifo: bool,
) -> Result<(Closing, u64), Fail> {
    let mut lots: LotPages<'_, S> = store.lot_pages(alloc, account_of_lots(), symbol, lifo);
    let closing = closing_by_sale(alloc, &mut lots, count)?;
    Ok((closing, lots.rows_read()))
}

// Appends the removal of the next `count` lots of a source.
fn append_removals<L: LotSource>(
    lots: &mut L,
    count: u32,
    changes: &mut Vec<Change>,
) -> Result<(), Fail> {
    for _ in 0..count {
        let lot = lots.next()?.ok_or("no lot")?;
        changes.push(Change::RemoveLot(lot.trade))?;
    }
    Ok(())
}

// Sells `count` shares of the position: removes as many lots, each of which has one share.
fn sell<S: Alter>(
    alloc: Global,
    store: &mut Store<S>,
    symbol: &Symbol,
    count: u32,
    lifo: bool,
) -> Result<(), Fail> {
    let mut changes = Vec::new(alloc);
    let mut lots = store.lot_pages(alloc, account_of_lots(), symbol, lifo);
    append_removals(&mut lots, count, &mut changes)?;
    drop(lots);
    Ok(store.apply(&changes)?)
}

// Sales: the number of shares, the number of lots that the sale closes, and the number of rows that
// it reads.
type Sales = [(u32, usize, u64); 5];

// Sales of a position of 40 lots, and of the same after a sale of one share, and then of 16.
const FIRST_SALES: Sales = [(1, 1, 4), (4, 4, 4), (5, 5, 8), (40, 40, 40), (41, 40, 40)];

const SECOND_SALES: Sales = [(1, 1, 4), (4, 4, 4), (5, 5, 8), (39, 39, 39), (40, 39, 39)];

const THIRD_SALES: Sales = [
    (1, 1, 4),
    (20, 20, 20),
    (21, 21, 23),
    (23, 23, 23),
    (24, 23, 23),
];

// Checks that a sale closes the wanted number of lots and reads the wanted number of rows.
fn expect_rows_read<S: Alter>(
    alloc: Global,
    store: &mut Store<S>,
    symbol: &Symbol,
    sale: (u32, usize, u64),
    lifo: bool,
) -> Result<(), Fail> {
    let (count, touched, read) = sale;
    let (closing, rows) = closing_and_row_count(alloc, store, symbol, count, lifo)?;
    expect(
        closing.touched.len() == touched && rows == read,
        format_args!("a sale of {count} shares"),
    )
}

// Checks each of the sales with the oldest lots first, and with the newest lots first.
fn expect_rows_read_from_both_ends<S: Alter>(
    alloc: Global,
    store: &mut Store<S>,
    symbol: &Symbol,
    sales: &Sales,
) -> Result<(), Fail> {
    for lifo in [false, true] {
        for sale in *sales {
            expect_rows_read(alloc, store, symbol, sale, lifo)?;
        }
    }
    Ok(())
}

// Checks the rows that sales read of 40 lots, after a sale of the oldest, and after a sale of the 16
// newest.
fn expect_rows_read_after_sales<S: Alter>(
    alloc: Global,
    store: &mut Store<S>,
    symbol: &Symbol,
) -> Result<(), Fail> {
    expect_rows_read_from_both_ends(alloc, store, symbol, &FIRST_SALES)?;
    sell(alloc, store, symbol, 1, false)?;
    expect_rows_read_from_both_ends(alloc, store, symbol, &SECOND_SALES)?;
    sell(alloc, store, symbol, 16, true)?;
    expect_rows_read_from_both_ends(alloc, store, symbol, &THIRD_SALES)
}

// Checks the rows that sales read on a desk in the database of a connection, on which account 102
// has `others` lots.
fn expect_rows_read_beside<S: Alter + Drop>(
    alloc: Global,
    conn: Option<Connection<S>>,
    symbol: &Symbol,
    others: u64,
) -> Result<(), Fail> {
    let mut store = store_with_forty_lots(alloc, conn, others)?;
    expect_rows_read_after_sales(alloc, &mut store, symbol)
}

// Checks that a sale reads only the pages of at most 4 rows that contain the lots that it closes,
// whether it closes the oldest or the newest lots first, also after sales, and whether the desk has
// few lots or many.
fn a_sale_reads_only_the_pages_it_needs(alloc: Global) -> Result<(), Fail> {
    let symbol = Symbol::parse(alloc, b"ABC")?.ok_or("symbol")?;
    expect_rows_read_beside(alloc, open_in_memory(alloc), &symbol, 0)?;
    expect_rows_read_beside(alloc, open_in_memory(alloc), &symbol, OTHER_LOTS)
}

pub fn run_tests(rt: &HostRuntime, results: &mut Results) {
    let alloc = rt.alloc();
    run_test!(rt, results, a_sale_reads_only_the_pages_it_needs(alloc));
}
