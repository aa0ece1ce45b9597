//! Test of a statement whose writer fails at each byte; and the desk with the trades before it.

use brk_desk::Desk;
use brk_report::StatementFault;
use brk_tests_desks::desks::{
    desk_after_step, desk_with_reference_data, open_in_memory, write_statement,
};
use brk_tests_desks::faulty::Narrow;
use brk_tests_desks::statements::{Asked, BOUGHT, WANTED, account_and_days};
use brk_tests_unit::expect::expect;
use brk_tests_unit::{Results, run_test};
use sqlite::{Alter, Connection};
use std::alloc::Global;
use std::io::ErrorKind;
use std::test::Fail;

/// Returns a new desk in the database of a connection after the batch `SET` and the trades
/// `BOUGHT`.
pub fn desk_after_trades<S: Alter + Drop>(
    alloc: Global,
    conn: Option<Connection<S>>,
) -> Result<Desk<S>, Fail> {
    let desk = desk_with_reference_data(alloc, conn)?;
    desk_after_step(alloc, desk, "trades", BOUGHT)
}

// Returns the error with which a writer with room for `room` bytes fails, by the remainder of
// `room` divided by 3: `None` for 0, which means that it accepts no byte, `Other` for 1, and
// `Interrupted` for 2.
fn error_kind_for_room(room: usize) -> Option<ErrorKind> {
    match room % 3 {
        0 => None,
        1 => Some(ErrorKind::Other),
        _ => Some(ErrorKind::Interrupted),
    }
}

fn ending_word(ended: &Result<(), StatementFault>) -> &'static str {
    match ended {
        Ok(()) => "done",
        Err(StatementFault::Refused(_)) => "refused",
        Err(StatementFault::Desk(_)) => "desk",
        Err(StatementFault::Write) => "write",
    }
}

// Writes the statement of `asked`, which must be `WANTED`, with a writer that has room for `room`
// bytes, at most as many as `WANTED` has, and then fails once (`error_kind_for_room`). Checks that
// the statement fails with `Write`, or completes if there is room for all its bytes, and that
// exactly its first `room` bytes are written.
fn expect_statement_write_fault<S: Alter>(
    alloc: Global,
    desk: &mut Desk<S>,
    asked: &Asked,
    room: usize,
) -> Result<(), Fail> {
    let wanted = if room < WANTED.len() { "write" } else { "done" };
    let mut writer = Narrow::new(alloc, room, error_kind_for_room(room));
    let ended = ending_word(&write_statement(alloc, *asked, &mut writer, desk));
    expect(
        ended == wanted && WANTED.as_bytes().get(..room) == Some(writer.taken.as_slice()),
        format_args!("room for {room}: {ended}"),
    )
}

// Checks `expect_statement_write_fault` for each number of bytes of the statement, from 0 to all,
// on a desk in the database of a connection after the batch `SET` and the trades `BOUGHT`.
fn expect_each_statement_write_fault<S: Alter + Drop>(
    alloc: Global,
    conn: Option<Connection<S>>,
    asked: &Asked,
) -> Result<(), Fail> {
    let mut desk = desk_after_trades(alloc, conn)?;
    for room in 0..=WANTED.len() {
        expect_statement_write_fault(alloc, &mut desk, asked, room)?;
    }
    Ok(())
}

// Checks, for each byte of a statement, at which the writer by turns accepts no byte, fails or is
// interrupted, that the statement fails with `Write` and that exactly the bytes before are
// written, and that the statement completes with room for all bytes.
fn a_failed_write_ends_the_statement(alloc: Global) -> Result<(), Fail> {
    let asked = account_and_days(100, "2024-03-01", "2024-03-31")?;
    expect_each_statement_write_fault(alloc, open_in_memory(alloc), &asked)
}

pub fn run_tests(rt: &HostRuntime, results: &mut Results) {
    let alloc = rt.alloc();
    run_test!(rt, results, a_failed_write_ends_the_statement(alloc));
}
