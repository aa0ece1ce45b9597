//! A batch of 500 trades, and the same calls as one run of another desk.

use crate::calls::{append_outcome, call_under_key, outcomes_of_run};
use brk_desk::{Call, Outcome};
use brk_money::Stamp;
use brk_tests_desks::desks::{
    Case, desk_with_reference_data, expect_batch_lines, open_in_memory, run_batch_at_desk,
};
use brk_tests_unit::{Results, run_test};
use sqlite::{Alter, Connection};
use std::alloc::{AllocError, Global};
use std::test::Fail;

const TRADES: u64 = 500;

// Appends the two rows of a trade. Each third one is a sale, and each second one closes the last lot
// first.
fn append_trade(rows: &mut String, n: u64) -> Result<(), AllocError> {
    let kind = if n % 3 == 0 { "TMS" } else { "TMB" };
    let end = if n % 2 == 0 { "lifo" } else { "fifo" };
    writeln!(
        rows,
        "order,100,{kind},ABC,{n},,cash,{end},Ann,Lee,T10\nresult,{n},10.00"
    )
}

fn format_rows(alloc: Global) -> Result<String, AllocError> {
    let mut rows = String::new(alloc);
    for n in 1..=TRADES {
        append_trade(&mut rows, n)?;
    }
    Ok(rows)
}

fn lines_of_batch<S: Alter + Drop>(
    alloc: Global,
    conn: Option<Connection<S>>,
    rows: &str,
) -> Result<Vec<u8>, Fail> {
    let mut desk = desk_with_reference_data(alloc, conn)?;
    let batch = format!(in alloc; "batch,L\n{rows}end,1000\n")?;
    Ok(run_batch_at_desk(alloc, &mut desk, batch.as_bytes()).0)
}

// Returns the calls of the rows under the keys that they have in the batch L.
fn calls_of_rows(alloc: Global, rows: &str) -> Result<Vec<(Stamp, Call)>, Fail> {
    let mut calls = Vec::new(alloc);
    let mut number = 1u64;
    for row in rows.lines() {
        calls.push(call_under_key(alloc, row, b"L", number)?)?;
        number = number.saturating_add(1);
    }
    Ok(calls)
}

fn outcomes_of_calls<S: Alter + Drop>(
    alloc: Global,
    conn: Option<Connection<S>>,
    calls: &[(Stamp, Call)],
) -> Result<Vec<Outcome>, Fail> {
    let mut desk = desk_with_reference_data(alloc, conn)?;
    let mut outcomes = Vec::new(alloc);
    outcomes_of_run(alloc, &mut desk, calls, &mut outcomes)?;
    Ok(outcomes)
}

// Returns the lines that a batch has for these outcomes of its rows, all of them accepted.
fn lines_of_outcomes(alloc: Global, outcomes: &[Outcome]) -> Result<String, Fail> {
    let mut lines = String::new(alloc);
    let mut number = 1u64;
    for outcome in outcomes {
        write!(lines, "{number},")?;
        append_outcome(alloc, &mut lines, outcome)?;
        number = number.saturating_add(1);
    }
    lines.push_str("end,1000,0,0\n")?;
    Ok(lines)
}

fn lines_of_run(alloc: Global, rows: &str) -> Result<String, Fail> {
    let calls = calls_of_rows(alloc, rows)?;
    let outcomes = outcomes_of_calls(alloc, open_in_memory(alloc), &calls)?;
    lines_of_outcomes(alloc, &outcomes)
}

// Checks that a run of a thousand calls answers each as a batch of the same rows does on another
// desk, and that all are accepted.
fn a_long_run_answers_as_the_batch_of_its_rows(alloc: Global) -> Result<(), Fail> {
    let rows = format_rows(alloc)?;
    let wanted = lines_of_run(alloc, rows.as_str())?;
    let told = lines_of_batch(alloc, open_in_memory(alloc), rows.as_str())?;
    let case = Case {
        what: "the batch beside the run",
        at: 0,
    };
    expect_batch_lines(case, &told, wanted.as_str())
}

pub fn run_tests(rt: &HostRuntime, results: &mut Results) {
    let alloc = rt.alloc();
    run_test!(
        rt,
        results,
        a_long_run_answers_as_the_batch_of_its_rows(alloc)
    );
}
