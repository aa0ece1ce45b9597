//! Tests of desks in files: they can be reopened, and recover from crashes at each call of the log
//! and of the database file, while a store is created, while it executes a batch, and while a desk
//! of schema 1 or 2 is upgraded.

use crate::jobs::{Observation, Task, perform_observed_task};
use crate::machine::{
    File, Held, MachineCrash, Sent, files_after_sql, files_with_reference_data,
    run_batch_until_crash,
};
use brk_tests_desks::desks::{
    connection_of_desk, desk_with_reference_data, expect, open_in_memory,
};
use brk_tests_desks::retried::{ROWS, all_lines_of_retry};
use brk_tests_desks::worked;
use brk_tests_desks::worked::{
    LAST_FIRST_LINES, LAST_FIRST_ROWS, SET, SET_LINES, format_batch, lines_of_retry,
};
use brk_tests_unit::{Results, run_test};
use sqlite::{Alter, Connection};
use std::alloc::Global;
use std::test::Fail;

// A number of calls that is greater than that of each file in each run.
const MOST_CALLS: u64 = 10_000;

// A batch without rows.
const NO_ROWS: &[u8] = b"batch,Z\nend,0\n";

// Converts a desk that bought 100 and 200 shares and sold 150 to schema 1.
const FIRST: &str = "UPDATE DESK SET D_SCHEMA = 1; DROP TABLE SETTLE_RULE; DROP TABLE CASH_MOVE; \
    INSERT INTO CASH_TRANSACTION VALUES (1, 1709251200017, -102510, 'Market-Buy 100 shares of Acme'); \
    INSERT INTO CASH_TRANSACTION VALUES (2, 1709251200019, -242900, 'Market-Buy 200 shares of Acme'); \
    INSERT INTO CASH_TRANSACTION VALUES (3, 1709251200021, 185750, 'Market-Sell 150 shares of Acme')";

// Converts a desk to schema 2.
const SECOND: &str = "UPDATE DESK SET D_SCHEMA = 2; DROP TABLE SETTLE_RULE";

/// Crashes at a call of each file, with the bytes that were not synced lost or stored. The tests
/// replace the number of calls.
pub const STOPS: [MachineCrash; 4] = [
    MachineCrash {
        name: "the log, losing",
        file: File::Log,
        loses: true,
        calls: 0,
    },
    MachineCrash {
        name: "the log, keeping",
        file: File::Log,
        loses: false,
        calls: 0,
    },
    MachineCrash {
        name: "the database file, losing",
        file: File::Database,
        loses: true,
        calls: 0,
    },
    MachineCrash {
        name: "the database file, keeping",
        file: File::Database,
        loses: false,
        calls: 0,
    },
];

/// Fails, with the name of the crash, its number of calls and the text `what`, if `is_so` is false.
pub fn fail_unless(is_so: bool, stop: MachineCrash, what: &str) -> Result<(), Fail> {
    let MachineCrash { name, calls, .. } = stop;
    expect(is_so, format_args!("{name}, call {calls}: {what}"))
}

// Executes a batch on a new desk in the database of a connection after the batch `SET`. Returns the
// observation of the batch.
fn run_observed_batch_after_set<S: Alter + Drop>(
    alloc: Global,
    conn: Option<Connection<S>>,
    batch: &[u8],
) -> Result<Observation, Fail> {
    let conn = connection_of_desk(desk_with_reference_data(alloc, conn)?);
    let mut seen = Observation::empty(alloc);
    drop(perform_observed_task(alloc, conn, Task::Batch, batch, &mut seen));
    Ok(seen)
}

// Returns all tables of a desk in memory as text, after the batch `SET` and a batch of the first
// `rows` rows of `ROWS`, at most six. Does not check that the second batch completes or that its
// rows are accepted.
fn tables_after_rows(alloc: Global, rows: usize) -> Result<String, Fail> {
    let batch = format_batch(alloc, &ROWS[..rows.min(6)])?;
    run_observed_batch_after_set(alloc, open_in_memory(alloc), batch.as_bytes())?.into_tables()
}

// Returns true if a batch wrote exactly the lines `lines`, its desk passed the audit, and the
// tables after it are `tables`.
fn is_sound_with_lines_and_tables(seen: &Observation, lines: &str, tables: &str) -> bool {
    seen.is_sound && seen.lines.as_slice() == lines.as_bytes() && seen.after.as_str() == tables
}

// What the machine does until a crash, and again after it: it executes the batch `first` on the desk
// in the files `start`, which is created or upgraded before, and then the batch `again` on the desk
// that is opened or created from the files after the crash, or after the end of `first` if there was
// none.
#[derive(Clone, Copy)]
struct Work<'a> {
    start: &'a Held,
    first: &'a [u8],
    again: &'a [u8],
    wanted: Wanted<'a>,
}

// What the machine creates, books or upgrades.
#[derive(Clone, Copy)]
enum Wanted<'a> {
    // A desk without rows, whose tables after the batch `SET` are these.
    Creation(&'a str),
    // The batch of all `ROWS`. The tables after each number of its rows, from none on, are these.
    Batch(&'a [String]),
    // The upgrade of a desk of an older schema, whose tables in schema 3 are these.
    Upgrade(&'a str),
}

// Checks that the desk is set up after the crash: the batch `SET` has its lines, the tables after it
// are `tables`, and the audit passes.
fn expect_creation_completed(
    stop: MachineCrash,
    again: &Observation,
    tables: &str,
) -> Result<(), Fail> {
    let is_set = is_sound_with_lines_and_tables(again, SET_LINES, tables);
    fail_unless(is_set, stop, "it is not set up")
}

// Returns the number of line feeds in `told`, at most six.
fn count_lines(told: &[u8]) -> usize {
    let mut count = 0usize;
    for byte in told {
        if *byte == b'\n' {
            count = count.saturating_add(1);
        }
    }
    count.min(6)
}

// Returns true if `found` are the tables after `rows` rows. `tables` are the tables after each
// number of rows, from none on.
fn are_tables_after(rows: usize, found: &str, tables: &[String]) -> bool {
    match tables.get(rows) {
        Some(text) => text.as_str() == found,
        None => false,
    }
}

/// Returns the number of rows that are committed if the tables are `found`: `told`, the number of
/// rows with a reply, or one more. `tables` are the tables after each number of rows, from none on.
/// Returns the smaller number if `found` are the tables after both. Fails with the crash `stop` if
/// they are the tables after neither.
pub fn expect_committed_rows(
    stop: MachineCrash,
    told: usize,
    found: &str,
    tables: &[String],
) -> Result<usize, Fail> {
    if are_tables_after(told, found, tables) {
        return Ok(told);
    }
    let more = told.saturating_add(1);
    fail_unless(
        are_tables_after(more, found, tables),
        stop,
        "tables of other rows",
    )?;
    Ok(more)
}

// Checks that the lines until the crash are a prefix of the lines of the batch of all `ROWS`, and
// that a run without a crash has exactly these lines and the tables `last`, and passes its audit.
fn expect_first_lines(
    alloc: Global,
    stop: MachineCrash,
    first: &Sent,
    last: &str,
) -> Result<(), Fail> {
    let whole = all_lines_of_retry(alloc, 0)?;
    let is_part = whole.as_bytes().starts_with(&first.seen.lines);
    fail_unless(is_part, stop, "other lines before it")?;
    let is_whole = is_sound_with_lines_and_tables(&first.seen, whole.as_str(), last);
    fail_unless(
        first.was_stopped || is_whole,
        stop,
        "an early end without it",
    )
}

// Checks that the retry completes the batch of all `ROWS` on a desk that has accepted its first
// `rows` rows: it has the stored replies to these rows, accepts the others, passes its audit, and
// has the tables `last`.
fn expect_batch_completed(
    alloc: Global,
    stop: MachineCrash,
    again: &Observation,
    rows: usize,
    last: &str,
) -> Result<(), Fail> {
    let rest = all_lines_of_retry(alloc, rows)?;
    let is_completed = is_sound_with_lines_and_tables(again, rest.as_str(), last);
    fail_unless(is_completed, stop, "it is not completed")
}

// Checks that the tables after the crash are those after the rows with a written line, or after one
// row more, and that the retry completes the batch (`expect_batch_completed`) with the last of
// `tables`, which are the tables after each number of rows, from none on. Checks also the lines
// until the crash (`expect_first_lines`).
fn expect_retry_completes(
    alloc: Global,
    stop: MachineCrash,
    first: &Sent,
    again: &Observation,
    tables: &[String],
) -> Result<(), Fail> {
    let last = match tables.last() {
        Some(text) => text.as_str(),
        None => "",
    };
    let told = count_lines(&first.seen.lines);
    let rows = expect_committed_rows(stop, told, again.before.as_str(), tables)?;
    expect_first_lines(alloc, stop, first, last)?;
    expect_batch_completed(alloc, stop, again, rows, last)
}

// Checks that the upgrade is atomic: after the crash it was not begun, so that the tables of schema
// 3 cannot be read, and no line of a batch was written; or it was complete, with the tables
// `tables`. Checks also that it is complete after the retry, with these tables, the end line of the
// batch, and an audit that passes.
fn expect_upgrade_completed(
    stop: MachineCrash,
    first: &Observation,
    again: &Observation,
    tables: &str,
) -> Result<(), Fail> {
    let is_older = again.before.is_empty() && first.lines.is_empty();
    let is_whole = is_older || again.before.as_str() == tables;
    fail_unless(is_whole, stop, "it is moved in part")?;
    let is_done = is_sound_with_lines_and_tables(again, "end,0,0,0\n", tables);
    fail_unless(is_done, stop, "it is not moved")
}

// Checks the run until the crash and the run after it: `expect_creation_completed`,
// `expect_retry_completes` or `expect_upgrade_completed`.
fn expect_recovered(
    alloc: Global,
    stop: MachineCrash,
    first: &Sent,
    again: &Observation,
    wanted: Wanted<'_>,
) -> Result<(), Fail> {
    match wanted {
        Wanted::Creation(tables) => expect_creation_completed(stop, again, tables),
        Wanted::Batch(tables) => expect_retry_completes(alloc, stop, first, again, tables),
        Wanted::Upgrade(tables) => expect_upgrade_completed(stop, &first.seen, again, tables),
    }
}

// Performs the work until the crash `stop` and again after it, and checks that the desk recovers
// from the crash (`expect_recovered`). Returns true if there was a crash.
fn expect_crash_recovered(alloc: Global, stop: MachineCrash, work: Work<'_>) -> Result<bool, Fail> {
    let first = run_batch_until_crash(alloc, work.start, stop, work.first)?;
    let again = run_batch_until_crash(alloc, &first.held, MachineCrash::NEVER, work.again)?;
    expect_recovered(alloc, stop, &first, &again.seen, work.wanted)?;
    Ok(first.was_stopped)
}

// Performs the work with the crash `stop` at each call of its file, until a run has no crash, and
// checks that the desk recovers from each crash.
fn expect_each_call_recovered(
    alloc: Global,
    stop: MachineCrash,
    work: Work<'_>,
) -> Result<(), Fail> {
    for calls in 0..MOST_CALLS {
        if !expect_crash_recovered(alloc, MachineCrash { calls, ..stop }, work)? {
            return Ok(());
        }
    }
    Err(Fail::new("always stopped"))
}

// Performs the work with each crash of `STOPS` at each call of its file
// (`expect_each_call_recovered`).
fn expect_each_crash_recovered(alloc: Global, work: Work<'_>) -> Result<(), Fail> {
    for stop in STOPS {
        expect_each_call_recovered(alloc, stop, work)?;
    }
    Ok(())
}

// Checks that a desk can be opened or created, and set up, after a crash at each call of the log
// or the database file during its creation, with the bytes that were not synced lost or stored.
fn desk_creation_recovers_from_crashes(alloc: Global) -> Result<(), Fail> {
    let tables = tables_after_rows(alloc, 0)?;
    let start = Held::empty_files(alloc);
    let work = Work {
        start: &start,
        first: NO_ROWS,
        again: SET,
        wanted: Wanted::Creation(tables.as_str()),
    };
    expect_each_crash_recovered(alloc, work)
}

/// Returns all tables of a desk in memory, as text, after the batch `SET` and each number of the
/// rows `ROWS`, from none to all six.
pub fn tables_after_each_row(alloc: Global) -> Result<Vec<String>, Fail> {
    let mut tables = Vec::new(alloc);
    for rows in 0..=6 {
        tables.push(tables_after_rows(alloc, rows)?)?;
    }
    Ok(tables)
}

// Checks that a batch can be retried and completed after a crash at each call of the log or the
// database file during the batch, with the bytes that were not synced lost or stored.
fn batch_execution_recovers_from_crashes(alloc: Global) -> Result<(), Fail> {
    let batch = format_batch(alloc, &ROWS)?;
    let tables = tables_after_each_row(alloc)?;
    let start = files_with_reference_data(alloc)?;
    let work = Work {
        start: &start,
        first: batch.as_bytes(),
        again: batch.as_bytes(),
        wanted: Wanted::Batch(&tables),
    };
    expect_each_crash_recovered(alloc, work)
}

// Executes the first three trades of `worked::ROWS` as a batch on a desk in files after the batch
// `SET`. Returns the observation of the batch and the files after it. Does not check that the
// batches complete.
fn files_after_trades(alloc: Global) -> Result<Sent, Fail> {
    let batch = format_batch(alloc, &worked::ROWS[..6])?;
    let set = files_with_reference_data(alloc)?;
    run_batch_until_crash(alloc, &set, MachineCrash::NEVER, batch.as_bytes())
}

// Upgrades a desk of three trades that the SQL statements `change` convert to an older schema, with
// each crash of `STOPS` at each call of its file, and checks each recovery
// (`expect_upgrade_completed`).
fn expect_upgrade_recovered_at_each_call(alloc: Global, change: &str) -> Result<(), Fail> {
    let Sent { seen, held, .. } = files_after_trades(alloc)?;
    let tables = seen.into_tables()?;
    let start = files_after_sql(alloc, &held, change)?;
    let work = Work {
        start: &start,
        first: NO_ROWS,
        again: NO_ROWS,
        wanted: Wanted::Upgrade(tables.as_str()),
    };
    expect_each_crash_recovered(alloc, work)
}

// Checks that the upgrade from schema 1 is atomic if the machine crashes at any call of the log or
// the database file, and that a retry completes it.
fn upgrade_from_schema_1_recovers_from_crashes(alloc: Global) -> Result<(), Fail> {
    expect_upgrade_recovered_at_each_call(alloc, FIRST)
}

// Checks that the upgrade from schema 2 is atomic if the machine crashes at any call of the log or
// the database file, and that a retry completes it.
fn upgrade_from_schema_2_recovers_from_crashes(alloc: Global) -> Result<(), Fail> {
    expect_upgrade_recovered_at_each_call(alloc, SECOND)
}

// Executes a batch on the desk in the files `held`, which has accepted its first `booked` rows, and
// returns the files after it. Fails with `name` if the batch does not write exactly the lines of
// `lines_of_retry`, or if the audit after it fails, and without it if memory runs out.
fn expect_batch_result_in_files(
    alloc: Global,
    held: &Held,
    name: &str,
    batch: &[u8],
    lines: &[&str],
    booked: usize,
) -> Result<Held, Fail> {
    let wanted = lines_of_retry(alloc, lines, booked)?;
    let Sent { seen, held, .. } = run_batch_until_crash(alloc, held, MachineCrash::NEVER, batch)?;
    let is_so = seen.is_sound && seen.lines.as_slice() == wanted.as_bytes();
    expect(is_so, format_args!("{name}: the lines, or the audit"))?;
    Ok(held)
}

// Executes the rows as a batch on a desk in files after the batch `SET`, opens the files again and
// retries the batch. Checks that the first run accepts all rows with the replies `lines`, that the
// retry returns these replies as stored ones, and that an audit passes after each run. Fails with
// `name` if not, and without it if memory runs out.
fn expect_stored_replies_after_reopening(
    alloc: Global,
    name: &str,
    rows: &[&str],
    lines: &[&str],
) -> Result<(), Fail> {
    let batch = format_batch(alloc, rows)?;
    let input = batch.as_bytes();
    let set = files_with_reference_data(alloc)?;
    let held = expect_batch_result_in_files(alloc, &set, name, input, lines, 0)?;
    expect_batch_result_in_files(alloc, &held, name, input, lines, lines.len())?;
    Ok(())
}

// Checks that a desk that is opened again from its files returns the stored replies of its trades,
// for batches of one to six trades, and for a batch of three trades with a sale that closes the
// last lot first.
fn desks_in_files_can_be_reopened(alloc: Global) -> Result<(), Fail> {
    for (name, count) in [
        ("a purchase", 2),
        ("two purchases", 4),
        ("a sale of the first", 6),
        ("a short sale", 8),
        ("a cover", 10),
        ("all is sold", 12),
    ] {
        expect_stored_replies_after_reopening(
            alloc,
            name,
            &worked::ROWS[..count],
            &worked::LINES[..count],
        )?;
    }
    expect_stored_replies_after_reopening(
        alloc,
        "a sale of the last",
        &LAST_FIRST_ROWS,
        &LAST_FIRST_LINES,
    )
}

pub fn run_tests(rt: &HostRuntime, results: &mut Results) {
    let alloc = rt.alloc();
    run_test!(rt, results, desk_creation_recovers_from_crashes(alloc));
    run_test!(rt, results, batch_execution_recovers_from_crashes(alloc));
    run_test!(
        rt,
        results,
        upgrade_from_schema_1_recovers_from_crashes(alloc)
    );
    run_test!(
        rt,
        results,
        upgrade_from_schema_2_recovers_from_crashes(alloc)
    );
    run_test!(rt, results, desks_in_files_can_be_reopened(alloc));
}
