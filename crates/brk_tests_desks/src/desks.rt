//! New desks, the calls that tests make on them, and batches that run on them.
//!
//! The functions that call a desk or its store have no contracts, so that the contract of what they
//! call is read by one proof alone.

use crate::statements::Asked;
use crate::worked::{FIRST_MOMENT, SET, SET_LINES, format_purchases};
use brk_desk::Desk;
use brk_http::{ServeFault, serve_stream};
use brk_import::{BatchFault, Clock, Counts, run_batch};
use brk_money::{Fault, Stamp};
use brk_report::{StatementFault, statement};
use brk_store::Store;
pub use brk_tests_unit::expect::expect;
use sqlite::{Alter, Connection, MemStore};
use std::alloc::{AllocError, Global};
use std::fmt;
use std::fmt::{Display, Formatter};
use std::io::{Read, Write};
use std::test::Fail;

/// Returns the connection `conn`. Fails if it is `None`.
pub fn expect_connection<S: Alter + Drop>(
    conn: Option<Connection<S>>,
) -> Result<Connection<S>, Fail> {
    match conn {
        Some(conn) => Ok(conn),
        None => Err("no database")?,
    }
}

/// Opens a new database in memory. Returns `None` only if memory runs out.
pub fn open_in_memory(alloc: Global) -> Option<Connection<MemStore>> {
    Connection::open_in_memory(alloc).ok()
}

/// A clock that always returns 2024-03-01 00:00 UTC.
#[derive(Drop)]
pub struct Still {
    at: Stamp,
}

impl Still {
    /// Creates the clock that always returns 2024-03-01 00:00 UTC.
    pub fn at_first_timestamp() -> Still {
        Still {
            at: Stamp::nearest(FIRST_MOMENT),
        }
    }
}

impl Clock for Still {
    /// Returns the fixed timestamp.
    fn now(&mut self) -> Stamp {
        self.at
    }
}

/// Creates a store in the database of a connection, by `Store::create`. Fails with the connection
/// and the fault if the store cannot be created.
pub fn create_store<S: Alter + Drop>(
    conn: Connection<S>,
) -> Result<Store<S>, (Connection<S>, Fault)> {
    Store::create(conn)
}

/// Returns the connection of the store of a desk, without the desk.
pub fn connection_of_desk<S: Alter + Drop>(desk: Desk<S>) -> Connection<S> {
    desk.into_store().into_conn()
}

/// Executes the batch that `reader` returns on a desk at 2024-03-01 00:00 UTC, by `run_batch`, and
/// writes its lines to `writer`. Returns the counts of its rows, or the fault.
pub fn run_batch_of_reader<R: Read + Drop, W: Write, S: Alter>(
    alloc: Global,
    reader: R,
    writer: &mut W,
    desk: &mut Desk<S>,
) -> Result<Counts, BatchFault> {
    run_batch(
        alloc,
        reader,
        writer,
        &mut Still::at_first_timestamp(),
        desk,
    )
}

/// Serves the stream of HTTP requests that `reader` returns on a desk at 2024-03-01 00:00 UTC, by
/// `serve_stream`, and writes the replies to `writer`. Returns the number of replies, or the fault.
pub fn serve_stream_of_reader<R: Read + Drop, W: Write, S: Alter>(
    alloc: Global,
    reader: R,
    writer: &mut W,
    desk: &mut Desk<S>,
) -> Result<u64, ServeFault> {
    serve_stream(
        alloc,
        reader,
        writer,
        &mut Still::at_first_timestamp(),
        desk,
    )
}

/// Writes to `writer` the statement of the account of `asked` for its days, on a desk, by
/// `statement`. Fails with the fault of the statement.
pub fn write_statement<W: Write, S: Alter>(
    alloc: Global,
    asked: Asked,
    writer: &mut W,
    desk: &mut Desk<S>,
) -> Result<(), StatementFault> {
    let Asked { account, from, to } = asked;
    statement(alloc, desk, account, from, to, writer)
}

/// A case of a test: what happens, and the number of the place at which it does.
#[derive(Clone, Copy)]
pub struct Case<'a> {
    pub what: &'a str,
    pub at: usize,
}

impl Display for Case<'_> {
    /// Writes, for example, `the reader fails after 57`.
    fn fmt<W: fmt::Write>(&self, f: &mut Formatter<W>) -> fmt::Result {
        write!(f, "{} {}", self.what, self.at)
    }
}

// Returns the number, counted from 1, of the first line of `told` that differs from that of
// `wanted`, or that one of the two does not have.
fn first_difference(told: &str, wanted: &str) -> u64 {
    let mut at = 1u64;
    for (line, want) in told.lines().zip(wanted.lines()) {
        if line != want {
            return at;
        }
        at = at.saturating_add(1);
    }
    at
}

/// Checks that the text `told` has exactly the lines `wanted`. Fails with `case`, `what` and the
/// number, counted from 1, of the first line that differs, is missing or is one too many.
pub(crate) fn expect_lines(
    case: Case<'_>,
    what: &str,
    told: &str,
    wanted: &str,
) -> Result<(), Fail> {
    let at = first_difference(told, wanted);
    expect(
        told == wanted,
        format_args!("{case}: line {at} of the {what}"),
    )
}

/// A batch, and the lines that it writes on a desk at 2024-03-01 00:00 UTC.
#[derive(Clone, Copy)]
pub struct Step<'a> {
    pub batch: &'a [u8],
    pub lines: &'a str,
}

/// Returns a new store in the database of a connection. Its tables have no rows, except for one row
/// of the table DESK. Fails without a connection, and if the store cannot be created.
pub fn new_store<S: Alter + Drop>(conn: Option<Connection<S>>) -> Result<Store<S>, Fail> {
    match create_store(expect_connection(conn)?) {
        Ok(store) => Ok(store),
        Err(_) => Err("no store")?,
    }
}

/// Returns a desk over a new store in the database of a connection (`new_store`).
pub fn new_desk<S: Alter + Drop>(conn: Option<Connection<S>>) -> Result<Desk<S>, Fail> {
    Ok(Desk::new(new_store(conn)?))
}

/// Returns a new desk in the database of a connection after the batch `SET`, which adds a broker, a
/// customer, an account, a security, charges, commission bands and a tax rate. Fails without a
/// connection, if the desk cannot be created, if the batch fails or writes other lines than
/// `SET_LINES`, and if memory runs out.
pub fn desk_with_reference_data<S: Alter + Drop>(
    alloc: Global,
    conn: Option<Connection<S>>,
) -> Result<Desk<S>, Fail> {
    let set = Step {
        batch: SET,
        lines: SET_LINES,
    };
    desk_after_step(alloc, new_desk(conn)?, "set", set)
}

/// Returns a desk after the batch of `step`. Fails as `expect_batch_result` does, with the case
/// `what` at 0.
pub fn desk_after_step<S: Alter + Drop>(
    alloc: Global,
    mut desk: Desk<S>,
    what: &str,
    step: Step<'_>,
) -> Result<Desk<S>, Fail> {
    expect_batch_result(alloc, &mut desk, Case { what, at: 0 }, step)?;
    Ok(desk)
}

/// Executes a batch on a desk at 2024-03-01 00:00 UTC. Returns the bytes that the batch wrote, and
/// the counts of its rows or the fault.
pub fn run_batch_at_desk<S: Alter>(
    alloc: Global,
    desk: &mut Desk<S>,
    input: &[u8],
) -> (Vec<u8>, Result<Counts, BatchFault>) {
    let mut lines = Vec::new(alloc);
    let ended = run_batch_of_reader(alloc, input, &mut lines, desk);
    (lines, ended)
}

/// Checks that the bytes `told` that a batch wrote are exactly the lines `wanted`. Fails with `case`
/// and the number of the first line that differs, or without `case` if the bytes are not UTF-8.
pub fn expect_batch_lines(case: Case<'_>, told: &[u8], wanted: &str) -> Result<(), Fail> {
    match str::from_utf8(told) {
        Ok(told) => expect_lines(case, "lines", told, wanted),
        Err(_) => Err("no text")?,
    }
}

// Returns the end line of a batch with these counts, or another text for a fault.
fn end_line(alloc: Global, ended: Result<Counts, BatchFault>) -> Result<String, AllocError> {
    match ended {
        Ok(Counts { ok, again, no }) => format!(in alloc; "end,{ok},{again},{no}\n"),
        Err(_) => String::from_str(alloc, "a fault"),
    }
}

// Checks that a batch completed, and that the lines `lines` end with the end line of its counts.
fn expect_batch_counts(
    alloc: Global,
    case: Case<'_>,
    ended: Result<Counts, BatchFault>,
    lines: &str,
) -> Result<(), Fail> {
    let last = end_line(alloc, ended)?;
    expect(
        lines.ends_with(last.as_str()),
        format_args!("{case}: the counts, or a fault"),
    )
}

/// Executes the batch of `step` on a desk at 2024-03-01 00:00 UTC, and checks that the batch
/// completes, that it writes exactly the lines of `step`, and that these lines end with the end
/// line of its counts. Fails with `case` if not, and without it if the batch writes bytes that are
/// not UTF-8.
pub fn expect_batch_result<S: Alter>(
    alloc: Global,
    desk: &mut Desk<S>,
    case: Case<'_>,
    step: Step<'_>,
) -> Result<(), Fail> {
    let (lines, ended) = run_batch_at_desk(alloc, desk, step.batch);
    expect_batch_lines(case, &lines, step.lines)?;
    expect_batch_counts(alloc, case, ended, step.lines)
}

/// Adds an account to a desk after the batch `SET`, and buys one share of ABC at 10.00 for it
/// `purchases` times, with the trade ids from `first` on. Fails if a row is not accepted.
pub fn buy_for_new_account<S: Alter>(
    alloc: Global,
    desk: &mut Desk<S>,
    account: u64,
    first: u64,
    purchases: u64,
) -> Result<(), Fail> {
    let batch = format_purchases(alloc, account, first, purchases)?;
    match run_batch_at_desk(alloc, desk, batch.as_bytes()).1 {
        Ok(counts) if counts.no == 0 => Ok(()),
        _ => Err("the purchases")?,
    }
}
