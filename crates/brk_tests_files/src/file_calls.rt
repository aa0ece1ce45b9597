//! Tests of the calls of the database file that a sale makes: the sale of one share of 100 lots
//! makes no more than the sale of one share of a single lot.

use crate::jobs::{Job, Task};
use crate::machine::{
    Held, MachineCrash, Sent, files_with_reference_data, options_with_cached_pages,
    perform_job_until_crash, run_batch_until_crash,
};
use brk_tests_desks::expect;
use brk_tests_desks::worked::{append_end_record, append_purchase};
use brk_tests_unit::{Results, run_test};
use std::alloc::{AllocError, Global};
use std::test::Fail;

// The number of lots of account 100.
const LOTS_AT_DESK: u64 = 100;

// Appends the purchases of two shares of ABC at 10.00, `LOTS_AT_DESK` times for account 100 and
// then once for account 101, with the trade ids from 1 on, and the end record of a batch that has
// one row before them.
fn append_purchases_of_two_shares(batch: &mut String) -> Result<(), Fail> {
    for n in 1..=LOTS_AT_DESK {
        append_purchase(batch, 100, 2, n)?;
    }
    append_purchase(batch, 101, 2, LOTS_AT_DESK + 1)?;
    append_end_record(batch, 2 * LOTS_AT_DESK + 3)
}

// Returns the text of a batch that adds account 101, with the purchases of
// `append_purchases_of_two_shares`.
fn batch_of_purchases_of_two_shares(alloc: Global) -> Result<String, Fail> {
    let mut batch = String::from_str(alloc, "batch,P\naccount,101,10,1,Side,1,10000.00\n")?;
    append_purchases_of_two_shares(&mut batch)?;
    Ok(batch)
}

// Returns the files of a desk on which account 100 has `LOTS_AT_DESK` lots of two shares and
// account 101 has one.
fn files_with_hundred_lots(alloc: Global) -> Result<Held, Fail> {
    let batch = batch_of_purchases_of_two_shares(alloc)?;
    let set = files_with_reference_data(alloc)?;
    let Sent { seen, held, .. } = run_batch_until_crash(
        alloc,
        &set,
        MachineCrash::NEVER,
        batch.as_bytes(),
    )?;
    expect(seen.lines.ends_with(b"end,203,0,0\n"), "the purchases")?;
    Ok(held)
}

// Returns the text of a batch with the order of a sale of `shares` shares of ABC of an account and
// its result at 10.00. The sale is the first trade after those of
// `batch_of_purchases_of_two_shares`, and closes the first lots first.
fn batch_of_one_sale(alloc: Global, account: u64, shares: u64) -> Result<String, AllocError> {
    let trade = LOTS_AT_DESK + 2;
    format!(in alloc;
        "batch,S\norder,{account},TMS,ABC,{shares},,cash,fifo,Ann,Lee,T10\nresult,{trade},10.00\nend,2\n"
    )
}

// Returns true if a desk in the files `held`, whose database file accepts `calls` calls and fails
// at each later call, accepts the order and the result of the sale of `shares` shares of an
// account. The desk caches only one page of those that it reads.
fn is_sale_complete_within_calls(
    alloc: Global,
    held: &Held,
    account: u64,
    shares: u64,
    calls: u64,
) -> Result<bool, Fail> {
    let batch = batch_of_one_sale(alloc, account, shares)?;
    let sent = perform_job_until_crash(
        alloc,
        held,
        MachineCrash::after_database_calls(calls),
        options_with_cached_pages(1),
        Job::Desk(Task::Batch),
        batch.as_bytes(),
    )?;
    Ok(sent.seen.lines.ends_with(b"end,2,0,0\n"))
}

// Returns the least number of calls of the database file, from 1 on, with which the sale of one
// share of an account completes, or 8,192 if it does not complete with fewer. Supposes that the
// sale completes with each greater number too.
fn least_calls_of_sale(alloc: Global, held: &Held, account: u64) -> Result<u64, Fail> {
    let mut most = 0u64;
    for bit in [4_096, 2_048, 1_024, 512, 256, 128, 64, 32, 16, 8, 4, 2, 1] {
        let more = most.saturating_add(bit);
        if !is_sale_complete_within_calls(alloc, held, account, 1, more)? {
            most = more;
        }
    }
    Ok(most.saturating_add(1))
}

// Checks, with a database file that accepts `calls` calls, whether the sale of `shares` shares of an
// account completes: it must if `wanted` is true, and must not if `wanted` is false. Fails with
// `what` and the number of calls if not, and without them if memory runs out.
fn expect_sale(
    alloc: Global,
    held: &Held,
    account: u64,
    shares: u64,
    calls: u64,
    wanted: bool,
    what: &str,
) -> Result<(), Fail> {
    let is_complete = is_sale_complete_within_calls(alloc, held, account, shares, calls)?;
    expect(is_complete == wanted, format_args!("{what}, {calls} calls"))
}

// Checks that the sale of one share completes with the least number of calls that it needs with one
// lot, also with 100 lots, and that the sale of 33 shares of the 100 lots does not.
fn expect_calls_of_sales(alloc: Global, held: &Held) -> Result<(), Fail> {
    let calls = least_calls_of_sale(alloc, held, 101)?;
    expect_sale(alloc, held, 101, 1, calls, true, "one lot")?;
    expect_sale(alloc, held, 100, 1, calls, true, "100 lots")?;
    expect_sale(alloc, held, 100, 33, calls, false, "33 of 100 lots")
}

// Checks that the sale of one share needs no more calls of the database file with 100 lots than
// with one lot, and that the sale of 33 shares of the 100 lots needs more.
fn calls_of_a_sale_do_not_grow_with_lots(alloc: Global) -> Result<(), Fail> {
    let held = files_with_hundred_lots(alloc)?;
    expect_calls_of_sales(alloc, &held)
}

pub fn run_tests(rt: &HostRuntime, results: &mut Results) {
    let alloc = rt.alloc();
    run_test!(rt, results, calls_of_a_sale_do_not_grow_with_lots(alloc));
}
