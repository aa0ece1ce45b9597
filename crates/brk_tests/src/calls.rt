//! Tests of the calls of a desk: single commands, queries and heads of statements, and a run of
//! calls.

use crate::statements::desk_after_trades;
use brk_desk::{
    Answer, Call, Command, Desk, Head, Key, Outcome, Query, View, line_text, parse_query,
    parse_row, row_text,
};
use brk_import::Clock;
use brk_money::{Fault, Id, Planned, Stamp};
use brk_ref::{BatchName, RowNumber};
use brk_tests_desks::desks::{Still, desk_with_reference_data, open_in_memory};
use brk_tests_surface_rules::view::format_records;
use brk_tests_unit::expect::{expect, expect_text};
use brk_tests_unit::{Results, run_test};
use sqlite::{Alter, Connection};
use std::alloc::{AllocError, Global};
use std::test::Fail;

// Returns the fields of a row without quotes, split at its commas, in order.
fn split_fields<'a>(alloc: Global, row: &'a str) -> Result<Vec<&'a [u8]>, AllocError> {
    let mut fields = Vec::new(alloc);
    for field in row.split(',') {
        fields.push(field.as_bytes())?;
    }
    Ok(fields)
}

fn command_of_row(alloc: Global, row: &str) -> Result<Command, Fail> {
    let fields = split_fields(alloc, row)?;
    let parsed: Planned<Command> = parse_row(alloc, &fields);
    Ok(parsed??)
}

fn query_of_row(alloc: Global, view: &str, row: &str) -> Result<Query, Fail> {
    let fields = split_fields(alloc, row)?;
    let parsed: Planned<Query> = parse_query(alloc, view, &fields);
    Ok(parsed??)
}

fn key_of_row(alloc: Global, batch: &[u8], row: u64) -> Result<Key, Fail> {
    match (RowNumber::new(row), BatchName::parse(alloc, batch)?) {
        (Some(n), Some(batch)) => Ok(Key { batch, n }),
        _ => Err("a key")?,
    }
}

fn first_timestamp() -> Stamp {
    Still::at_first_timestamp().now()
}

// The next three call the desk. The contract of each call is read here alone.

fn answer_of_desk<S: Alter>(
    alloc: Global,
    desk: &mut Desk<S>,
    command: &Command,
    key: Option<&Key>,
) -> Result<Answer, Fault> {
    desk.call(alloc, first_timestamp(), command, key)
}

fn view_of_desk<S: Alter>(alloc: Global, desk: &mut Desk<S>, query: &Query) -> Planned<View> {
    desk.ask(alloc, query)
}

/// Executes calls on a desk as one run, by `Desk::run`.
pub fn outcomes_of_run<S: Alter>(
    alloc: Global,
    desk: &mut Desk<S>,
    calls: &[(Stamp, Call)],
    out: &mut Vec<Outcome>,
) -> Result<(), Fault> {
    desk.run(alloc, calls, out)
}

// Appends a line for an answer: `ok,` and the reply, `again,` and the stored reply, or `no,` and the
// number of the refusal.
fn append_answer(alloc: Global, told: &mut String, answer: &Answer) -> Result<(), Fail> {
    match answer {
        Answer::Done(reply) => {
            let line: String = line_text(alloc, reply)?;
            writeln!(told, "ok,{line}")?;
        }
        Answer::Again(line) => writeln!(told, "again,{line}")?,
        Answer::Refused(refusal) => writeln!(told, "no,{refusal}")?,
    }
    Ok(())
}

/// Appends a line for an outcome: that of the answer of a command, the records of the view of a query,
/// `no,` and the number of the refusal of a query, or `fault,` and the number of a fault.
pub fn append_outcome(alloc: Global, told: &mut String, outcome: &Outcome) -> Result<(), Fail> {
    match outcome {
        Outcome::Did(answer) => append_answer(alloc, told, answer)?,
        Outcome::Saw(view) => told.push_str(format_records(alloc, view)?.as_str())?,
        Outcome::NoView(refusal) => writeln!(told, "no,{refusal}")?,
        Outcome::Failed(fault) => writeln!(told, "fault,{}", fault.number())?,
    }
    Ok(())
}

// The rows of a run, each with the number of its key in the batch A, or with 0 for none.
const ROWS: [(&str, u64); 6] = [
    ("broker,1,Bo", 0),
    ("broker,2,Cy", 1),
    ("broker,2,Cy", 1),
    ("broker,3,Di", 1),
    ("broker,2,Cy", 2),
    ("broker,3,Di", 0),
];

// The views that the run queries after the rows, each with the arguments.
const QUERIES: [(&str, &str); 2] = [
    ("customer", "10"),
    ("estimate", "101,TMB,ABC,100,,cash,fifo,Ann,Lee,T10"),
];

// The outcomes: broker 1 exists (15); broker 2 is added; its row is repeated under its key, under
// which another row is refused (19), and which adds the broker under no other key (15); broker 3 is
// added after all refusals; customer 10 has account 100; account 101 does not exist (1).
const OUTCOMES: &str = "no,15\n\
    ok,1709251200016\n\
    again,1709251200016\n\
    no,19\n\
    no,15\n\
    ok,1709251200017\n\
    100,10000.00,0.00,\n\
    no,1\n";

fn optional_key_of_row(alloc: Global, row: u64) -> Result<Option<Key>, Fail> {
    if row == 0 {
        return Ok(None);
    }
    Ok(Some(key_of_row(alloc, b"A", row)?))
}

fn call_of_row(alloc: Global, row: &str, key: Option<Key>) -> Result<(Stamp, Call), Fail> {
    let command = command_of_row(alloc, row)?;
    Ok((first_timestamp(), Call::Do(command, key)))
}

/// Returns the call of the row with this number in a batch, at 2024-03-01 00:00 UTC.
pub fn call_under_key(
    alloc: Global,
    row: &str,
    batch: &[u8],
    number: u64,
) -> Result<(Stamp, Call), Fail> {
    let key = key_of_row(alloc, batch, number)?;
    call_of_row(alloc, row, Some(key))
}

fn call_of_query(alloc: Global, view: &str, row: &str) -> Result<(Stamp, Call), Fail> {
    let query = query_of_row(alloc, view, row)?;
    Ok((first_timestamp(), Call::Ask(query)))
}

fn calls_of_run(alloc: Global) -> Result<Vec<(Stamp, Call)>, Fail> {
    let mut calls = Vec::new(alloc);
    for (row, key) in ROWS {
        let key = optional_key_of_row(alloc, key)?;
        calls.push(call_of_row(alloc, row, key)?)?;
    }
    for (view, row) in QUERIES {
        calls.push(call_of_query(alloc, view, row)?)?;
    }
    Ok(calls)
}

fn expect_outcomes(alloc: Global, outcomes: &[Outcome], wanted: &str) -> Result<(), Fail> {
    let mut told = String::new(alloc);
    for outcome in outcomes {
        append_outcome(alloc, &mut told, outcome)?;
    }
    expect_text(told.as_str(), wanted)
}

// Executes calls as one run on a new desk in the database of a connection, after the batch `SET`,
// and checks their outcomes.
fn expect_outcomes_of_run<S: Alter + Drop>(
    alloc: Global,
    conn: Option<Connection<S>>,
    calls: &[(Stamp, Call)],
) -> Result<(), Fail> {
    let mut desk = desk_with_reference_data(alloc, conn)?;
    let mut out = Vec::new(alloc);
    outcomes_of_run(alloc, &mut desk, calls, &mut out)?;
    expect_outcomes(alloc, &out, OUTCOMES)
}

// Checks that a run has an outcome for each of its calls: it executes the commands after a refused
// one, repeats the stored reply to a row under its key, refuses another row under this key and the
// same row under another one, and answers queries, of which it refuses one.
fn a_run_has_an_outcome_for_each_call(alloc: Global) -> Result<(), Fail> {
    let calls = calls_of_run(alloc)?;
    expect_outcomes_of_run(alloc, open_in_memory(alloc), &calls)
}

fn expect_answer_line(alloc: Global, answer: &Answer, wanted: &str) -> Result<(), Fail> {
    let mut told = String::new(alloc);
    append_answer(alloc, &mut told, answer)?;
    expect_text(told.as_str(), wanted)
}

fn expect_answer<S: Alter>(
    alloc: Global,
    desk: &mut Desk<S>,
    command: &Command,
    key: Option<&Key>,
    wanted: &str,
) -> Result<(), Fail> {
    let answer = answer_of_desk(alloc, desk, command, key)?;
    expect_answer_line(alloc, &answer, wanted)
}

// The row of a broker that no desk of these tests has before.
const NEW_BROKER: &str = "broker,2,Cy";

// A command is accepted under its key, repeated under it, and refused without it, because its
// broker exists.
fn expect_answers<S: Alter>(
    alloc: Global,
    desk: &mut Desk<S>,
    command: &Command,
    key: &Key,
) -> Result<(), Fail> {
    expect_answer(alloc, desk, command, Some(key), "ok,1709251200022\n")?;
    expect_answer(alloc, desk, command, Some(key), "again,1709251200022\n")?;
    expect_answer(alloc, desk, command, None, "no,15\n")
}

fn expect_answers_under_key<S: Alter>(
    alloc: Global,
    desk: &mut Desk<S>,
    key: &Key,
) -> Result<(), Fail> {
    let command = command_of_row(alloc, NEW_BROKER)?;
    expect_answers(alloc, desk, &command, key)
}

fn expect_answers_to_new_broker<S: Alter>(alloc: Global, desk: &mut Desk<S>) -> Result<(), Fail> {
    let key = key_of_row(alloc, b"A", 1)?;
    expect_answers_under_key(alloc, desk, &key)
}

// The record of the account of customer 10.
const ACCOUNTS: &str = "100,8403.40,1500.00,\n";

fn expect_view<S: Alter>(alloc: Global, desk: &mut Desk<S>) -> Result<(), Fail> {
    let query = query_of_row(alloc, "customer", "10")?;
    let view = view_of_desk(alloc, desk, &query)??;
    let told = format_records(alloc, &view)?;
    expect_text(told.as_str(), ACCOUNTS)
}

fn expect_head<S: Alter>(alloc: Global, desk: &mut Desk<S>) -> Result<(), Fail> {
    let account = Id::new(100).unwrap();
    let head = desk.head(alloc, account)?.ok_or("no account")?;
    let Head {
        name,
        opening,
        holdings,
    } = head;
    expect(
        name.as_str() == "Main" && opening.get() == 1_000_000 && holdings.get() == 150_000,
        "another head",
    )
}

fn expect_row_text(alloc: Global, command: &Command, wanted: &str) -> Result<(), Fail> {
    let row: String = row_text(alloc, command)?;
    expect_text(row.as_str(), wanted)
}

fn expect_text_of_row(alloc: Global) -> Result<(), Fail> {
    let command = command_of_row(alloc, NEW_BROKER)?;
    expect_row_text(alloc, &command, "broker\x1f2\x1fCy")
}

// Checks calls of a desk over the store in the database of a connection, after two purchases and a
// sale.
fn expect_calls_after_trades<S: Alter + Drop>(
    alloc: Global,
    conn: Option<Connection<S>>,
) -> Result<(), Fail> {
    let mut desk: Desk<S> = desk_after_trades(alloc, conn)?;
    expect_answers_to_new_broker(alloc, &mut desk)?;
    expect_view(alloc, &mut desk)?;
    expect_head(alloc, &mut desk)
}

// Checks public names of brk_desk: commands under keys, a query, and the head of a statement.
fn surface_of_brk_desk(alloc: Global) -> Result<(), Fail> {
    expect_text_of_row(alloc)?;
    expect_calls_after_trades(alloc, open_in_memory(alloc))
}

pub fn run_tests(rt: &HostRuntime, results: &mut Results) {
    let alloc = rt.alloc();
    run_test!(rt, results, a_run_has_an_outcome_for_each_call(alloc));
    run_test!(rt, results, surface_of_brk_desk(alloc));
}
