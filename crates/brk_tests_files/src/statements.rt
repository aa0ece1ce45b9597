//! Test of a disk that fails within a statement, at each of its calls: whole first lines are
//! written, and never the last one.

use crate::jobs::{Ended, Job, Task};
use crate::machine::{
    Held, MachineCrash, Sent, options_with_cached_pages, perform_job_until_crash,
    run_batch_until_crash,
};
use brk_tests_desks::expect;
use brk_tests_desks::statements::account_and_days;
use brk_tests_unit::{Results, run_test};
use std::alloc::Global;
use std::test::Fail;

// A batch that sets up a desk, with two purchases and a sale of an account.
const BATCH: &[u8] = b"batch,S\n\
    broker,1,Bo\n\
    customer,10,1,T10,Lee,Ann\n\
    account,100,10,1,Main,0,10000.00\n\
    security,ABC,Acme,NYSE,Tech,10.00\n\
    charge,TMB,1,5.00\n\
    charge,TMS,1,5.00\n\
    band,1,TMB,NYSE,1,999999,100\n\
    band,1,TMS,NYSE,1,999999,100\n\
    order,100,TMB,ABC,100,,cash,fifo,Ann,Lee,T10\n\
    result,1,10.10\n\
    order,100,TMB,ABC,200,,cash,fifo,Ann,Lee,T10\n\
    result,2,12.00\n\
    order,100,TMS,ABC,150,,cash,fifo,Ann,Lee,T10\n\
    result,3,13.00\n\
    end,14\n";

// The statement of account 100 for March 2024 after the batch.
const WANTED: &[u8] = b"Statement of account 100\n\
    Main\n\
    From 2024-03-01 to 2024-03-31\n\
    Opening                  10000.00\n\
    2024-03-01               -1025.10 Market-Buy 100 shares of Acme\n\
    2024-03-01               -2429.00 Market-Buy 200 shares of Acme\n\
    2024-03-01                1925.50 Market-Sell 150 shares of Acme\n\
    Closing                   8471.40\n\
    ABC                         2         150      12.00\n\
    Holdings                  1500.00\n\
    Cash rows 3, lots 1\n";

// What a statement over a failing disk wrote.
#[derive(Clone, Copy)]
enum Written {
    // Nothing: the desk could not be opened.
    NotBegun,
    // Nothing, before the fault of the store.
    NoLine,
    // A first part of its lines, before the fault of the store.
    SomeLines,
    // All its lines.
    AllLines,
}

// Returns true if a text consists of the first whole lines of the statement `WANTED`, perhaps none,
// but not all of them.
fn is_proper_line_prefix_of_statement(text: &[u8]) -> bool {
    let is_whole = text.is_empty() || text.ends_with(b"\n");
    is_whole && text.len() < WANTED.len() && WANTED.starts_with(text)
}

// Returns what a statement that ended so wrote, the text `text`. Returns `None` if a complete
// statement is not `WANTED`, if one that failed with a fault of the store wrote other lines than
// whole first ones of it, or all of them, and for any other end.
fn written_lines(ended: Ended, text: &[u8]) -> Option<Written> {
    match ended {
        Ended::NotBegun => Some(Written::NotBegun),
        Ended::Done if text == WANTED => Some(Written::AllLines),
        Ended::StoreFault if text.is_empty() => Some(Written::NoLine),
        Ended::StoreFault if is_proper_line_prefix_of_statement(text) => Some(Written::SomeLines),
        _ => None,
    }
}

// Writes the statement of account 100 for March 2024 on the desk in the files `held`, whose
// database file accepts `calls` calls and fails at each later call. Returns what it wrote.
fn write_statement_over_failing_disk(
    alloc: Global,
    held: &Held,
    calls: u64,
) -> Result<Written, Fail> {
    let asked = account_and_days(100, "2024-03-01", "2024-03-31")?;
    // The desk caches one page, so that rows are read from the disk.
    let sent = perform_job_until_crash(
        alloc,
        held,
        MachineCrash::after_database_calls(calls),
        options_with_cached_pages(1),
        Job::Desk(Task::Statement(asked)),
        b"",
    )?;
    match written_lines(sent.seen.ended, &sent.seen.lines) {
        Some(written) => Ok(written),
        None => Err(Fail::new(format_args!("after {calls} calls"))),
    }
}

// Checks the statement of a desk in the files `held` as
// `a_failing_disk_leaves_whole_statement_lines` states.
fn expect_whole_lines_over_failing_disk(alloc: Global, held: &Held) -> Result<(), Fail> {
    let (mut had_part, mut had_none) = (false, false);
    for calls in 0..10_000 {
        match write_statement_over_failing_disk(alloc, held, calls)? {
            Written::NotBegun => (),
            Written::NoLine => had_none = true,
            Written::SomeLines => had_part = true,
            Written::AllLines => {
                return expect(had_part && had_none, "no part, or no fault without one");
            }
        }
    }
    Err(Fail::new("no statement was whole"))
}

// Checks, for a database file that fails after 0, 1, 2 and more calls, that the desk cannot be
// opened or the statement fails with `Store` after whole first lines, perhaps none but never all,
// until the statement is complete and equals `WANTED`, which must be with fewer than 10,000 calls.
// Checks also that some failed statements have lines and some have none.
fn a_failing_disk_leaves_whole_statement_lines(alloc: Global) -> Result<(), Fail> {
    let Sent { held, .. } = run_batch_until_crash(
        alloc,
        &Held::empty_files(alloc),
        MachineCrash::NEVER,
        BATCH,
    )?;
    expect_whole_lines_over_failing_disk(alloc, &held)
}

pub fn run_tests(rt: &HostRuntime, results: &mut Results) {
    let alloc = rt.alloc();
    run_test!(
        rt,
        results,
        a_failing_disk_leaves_whole_statement_lines(alloc)
    );
}
