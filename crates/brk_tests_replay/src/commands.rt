//! The commands of transcripts, each of which appends its output lines to the replay, and the
//! database or desk on which they work. A function that fails may have appended a part of its
//! lines.

use crate::files::execute_file_command;
use crate::lines::{Piece, append_escaped_output_lines, append_output_line};
use crate::records::{
    append_refusal_line, append_report, append_rows_of_tables, execute_ask_command,
    execute_print_command,
};
use crate::tests::{
    TestCrates, execute_figures_command, execute_jobs_command, execute_tests_command,
};
use brk_desk::Desk;
use brk_explain::{ExplainRequest, parse_explain, write_explanation};
use brk_http::serve_stream;
use brk_import::{Clock, FaultKind, run_batch};
use brk_money::{Day, Fault, Id, Refusal, Stamp, parse_day};
use brk_ref::{parse_id, parse_stamp};
use brk_report::statement;
use brk_report::statements::several::statements;
use brk_store::Store;
use sqlite::{Connection, MemStore};
use std::alloc::{AllocError, Global};
use std::mem;

/// The database or the desk that a transcript has open.
#[derive(Drop)]
pub enum Place {
    /// Neither is open.
    Nothing,
    /// A database without a desk.
    Database(Connection<MemStore>),
    /// A desk.
    Open(Desk<MemStore>),
}

impl Place {
    /// Returns a new database in memory, open and without tables, or `Nothing` if it cannot be
    /// opened.
    pub fn with_empty_database(alloc: Global) -> Place {
        match Connection::open_in_memory(alloc) {
            Ok(conn) => Place::Database(conn),
            Err(_) => Place::Nothing,
        }
    }

    /// Returns a new desk in memory, or `Nothing` if it cannot be created. Its tables have no rows,
    /// except for one row of the table DESK.
    pub fn with_new_desk(alloc: Global) -> Place {
        let Ok(conn) = Connection::open_in_memory(alloc) else {
            return Place::Nothing;
        };
        match Store::create(conn) {
            Ok(store) => Place::Open(Desk::new(store)),
            Err(_) => Place::Nothing,
        }
    }

    // Returns the connection to the open database, without its desk, or `None` if nothing is open.
    // Nothing is open after it.
    fn take_conn(&mut self) -> Option<Connection<MemStore>> {
        match mem::replace(self, Place::Nothing) {
            Place::Nothing => None,
            Place::Database(conn) => Some(conn),
            Place::Open(desk) => Some(desk.into_store().into_conn()),
        }
    }

    // Keeps the open database without its desk.
    fn close_desk(&mut self) {
        if let Some(conn) = self.take_conn() {
            *self = Place::Database(conn);
        }
    }

    // Adopts the open database, or that of the open desk, which upgrades an older schema. The desk
    // of the database is open after it or, after a fault, the database without a desk. Returns `Ok`
    // if the adoption succeeds, and otherwise the fault: `Damaged` with the first condition that
    // fails, `Memory` or `Store`. Returns `None` if nothing is open. A database that is still open
    // is unchanged after a fault.
    fn adopt(&mut self, alloc: Global) -> Option<Result<(), Fault>> {
        match Store::adopt(alloc, self.take_conn()?) {
            Ok(store) => {
                *self = Place::Open(Desk::new(store));
                Some(Ok(()))
            }
            Err((conn, fault)) => {
                *self = Place::Database(conn);
                Some(Err(fault))
            }
        }
    }
}

// A clock that always returns one timestamp.
#[derive(Drop)]
struct Still {
    at: Stamp,
}

impl Clock for Still {
    // Returns the fixed timestamp.
    fn now(&mut self) -> Stamp {
        self.at
    }
}

// Returns a clock that always returns the timestamp with the canonical text `moment`, in
// milliseconds since 1970-01-01 UTC, or 0 if `moment` is no such text or is later than 9999-12-31
// UTC.
fn fixed_clock_from_text(moment: &str) -> Still {
    Still {
        at: parse_stamp(moment.as_bytes()).unwrap_or(Stamp::nearest(0)),
    }
}

// Returns the bytes of all input lines of a command, in order, in one list, each followed by a line
// feed if it has one.
fn join_input_lines(alloc: Global, pieces: &[Piece]) -> Result<Vec<u8>, AllocError> {
    let mut bytes = Vec::new(alloc);
    for piece in pieces {
        bytes.extend_from_slice(&piece.bytes)?;
        if piece.has_feed {
            bytes.push(b'\n')?;
        }
    }
    Ok(bytes)
}

// Returns the text for a fault of a batch in an output line, such as `bad header`; the text for any
// fault of the desk is `desk`.
fn batch_fault_text(kind: FaultKind) -> &'static str {
    match kind {
        FaultKind::BadHeader => "bad header",
        FaultKind::NoEnd => "no end",
        FaultKind::BadEnd => "bad end",
        FaultKind::Read => "read",
        FaultKind::Write => "write",
        FaultKind::Desk(_) => "desk",
    }
}

// Executes the input as a batch on the desk; the clock always returns the timestamp `moment`
// (`fixed_clock_from_text`). Appends the lines that the batch wrote and, if it failed, an output
// line with `!`, the text for its fault, and the number of decided rows.
fn execute_batch_command(
    alloc: Global,
    out: &mut String,
    desk: &mut Desk<MemStore>,
    moment: &str,
    input: &[u8],
) -> Result<(), AllocError> {
    let mut lines = Vec::new(alloc);
    let ended = run_batch(
        alloc,
        input,
        &mut lines,
        &mut fixed_clock_from_text(moment),
        desk,
    );
    append_escaped_output_lines(out, &lines)?;
    match ended {
        Ok(_) => Ok(()),
        Err(fault) => writeln!(out, "> ! {} {}", batch_fault_text(fault.kind), fault.rows),
    }
}

// Serves the input as a stream of HTTP requests on the desk; the clock always returns the timestamp
// `moment` (`fixed_clock_from_text`). Appends the bytes that were written, and then `! done` and
// the number of replies or, if the stream failed, `! fault`.
fn execute_http_command(
    alloc: Global,
    out: &mut String,
    desk: &mut Desk<MemStore>,
    moment: &str,
    input: &[u8],
) -> Result<(), AllocError> {
    let mut replies = Vec::new(alloc);
    let ended = serve_stream(
        alloc,
        input,
        &mut replies,
        &mut fixed_clock_from_text(moment),
        desk,
    );
    append_escaped_output_lines(out, &replies)?;
    match ended {
        Ok(done) => writeln!(out, "> ! done {done}"),
        Err(_) => append_output_line(out, "! fault"),
    }
}

// Returns the first and the last day of a statement from their texts, or `None` if one of them is
// malformed.
fn parse_days(from: &str, to: &str) -> Option<(Day, Day)> {
    Some((parse_day(from.as_bytes())?, parse_day(to.as_bytes())?))
}

// Writes the statement of an account: `words` contains the id of the account and the first and the
// last day, both included, separated by single spaces. Appends the lines that were written and, if
// the statement failed, `no` and the number of its refusal, or `! fault`. If `words` is malformed,
// appends only `no 18` (`BadText`).
fn execute_statement_command(
    alloc: Global,
    out: &mut String,
    desk: &mut Desk<MemStore>,
    words: &str,
) -> Result<(), AllocError> {
    let (account, days) = words.split_once(' ').unwrap_or((words, ""));
    let (from, to) = days.split_once(' ').unwrap_or((days, ""));
    match (parse_id(account.as_bytes()), parse_days(from, to)) {
        (Some(account), Some((from, to))) => {
            let mut lines = Vec::new(alloc);
            let ended = statement(alloc, desk, account, from, to, &mut lines);
            append_report(out, &lines, ended)
        }
        _ => append_refusal_line(out, Refusal::BadText),
    }
}

// Returns the customer with the id in a text, or no customer for an empty text, or `None` if the
// text is malformed.
fn parse_customer(text: &str) -> Option<Option<Id>> {
    if text.is_empty() {
        Some(None)
    } else {
        Some(Some(parse_id(text.as_bytes())?))
    }
}

// Writes the statements of all accounts, or of those of a customer: `words` contains the first and
// the last day, both included, and the id of the customer or nothing, separated by single spaces.
// Appends as `execute_statement_command` does.
fn execute_statements_command(
    alloc: Global,
    out: &mut String,
    desk: &mut Desk<MemStore>,
    words: &str,
) -> Result<(), AllocError> {
    let (from, rest) = words.split_once(' ').unwrap_or((words, ""));
    let (to, customer) = rest.split_once(' ').unwrap_or((rest, ""));
    match (parse_customer(customer), parse_days(from, to)) {
        (Some(customer), Some((from, to))) => {
            let mut lines = Vec::new(alloc);
            let ended = statements(alloc, desk, customer, from, to, &mut lines);
            append_report(out, &lines, ended)
        }
        _ => append_refusal_line(out, Refusal::BadText),
    }
}

// Returns the bytes of each word of a text, which is split at each of its spaces.
fn bytes_of_words(alloc: Global, words: &str) -> Result<Vec<&[u8]>, AllocError> {
    let mut asked = Vec::new(alloc);
    for word in words.split(' ') {
        asked.push(word.as_bytes())?;
    }
    Ok(asked)
}

// Writes an explanation. Appends the lines that were written and, if the explanation failed, `no`
// and the number of its refusal, or `! fault`.
fn append_explanation(
    alloc: Global,
    out: &mut String,
    desk: &mut Desk<MemStore>,
    what: &ExplainRequest,
) -> Result<(), AllocError> {
    let mut lines = Vec::new(alloc);
    let ended = write_explanation(alloc, desk, what, &mut lines);
    append_report(out, &lines, ended)
}

// Writes the explanation that `words`, split at each space, requests (`parse_explain`), as
// `append_explanation` does. If `words` requests no explanation, appends only `no` and the number
// of the refusal. If memory runs out while `words` is parsed, appends only `! fault`.
fn execute_explain_command(
    alloc: Global,
    out: &mut String,
    desk: &mut Desk<MemStore>,
    words: &str,
) -> Result<(), AllocError> {
    let asked = bytes_of_words(alloc, words)?;
    match parse_explain(alloc, &asked) {
        Ok(Ok(what)) => append_explanation(alloc, out, desk, &what),
        Ok(Err(refusal)) => append_refusal_line(out, refusal),
        Err(_) => append_output_line(out, "! fault"),
    }
}

// Appends the result of an audit or of an adoption as an output line: `ok`, `damaged` and the first
// condition that fails, or `! fault` for any other fault. Appends nothing for `None`.
fn append_audit_result(
    out: &mut String,
    audited: Option<Result<(), Fault>>,
) -> Result<(), AllocError> {
    match audited {
        None => Ok(()),
        Some(Ok(())) => append_output_line(out, "ok"),
        Some(Err(Fault::Damaged(condition))) => {
            writeln!(out, "> damaged {}", condition.output_word())
        }
        Some(Err(_)) => append_output_line(out, "! fault"),
    }
}

// Audits the open desk, or the open database by adopting it, which upgrades an older schema, and
// keeps the database without a desk. Returns the result, or `None` if nothing is open.
fn audit_place(alloc: Global, place: &mut Place) -> Option<Result<(), Fault>> {
    if let Place::Open(desk) = place {
        return Some(desk.audit(alloc));
    }
    let audited = place.adopt(alloc);
    place.close_desk();
    audited
}

// Executes an SQL statement on a database, as another program would. Returns true if it succeeds,
// and false also if `bytes` is not UTF-8.
fn execute_sql(conn: &mut Connection<MemStore>, bytes: &[u8]) -> bool {
    match str::from_utf8(bytes) {
        Ok(sql) => conn.execute(sql, &[]).is_ok(),
        Err(_) => false,
    }
}

// Executes each input line as an SQL statement (`execute_sql`), and appends the output line `! sql`
// for each statement that fails or is not UTF-8.
fn execute_sql_statements(
    out: &mut String,
    conn: &mut Connection<MemStore>,
    pieces: &[Piece],
) -> Result<(), AllocError> {
    for piece in pieces {
        if !execute_sql(conn, &piece.bytes) {
            append_output_line(out, "! sql")?;
        }
    }
    Ok(())
}

// Executes the input lines as SQL statements (`execute_sql_statements`) on the open database
// without its desk. If nothing is open, appends nothing.
fn execute_sql_command(
    out: &mut String,
    place: &mut Place,
    pieces: &[Piece],
) -> Result<(), AllocError> {
    place.close_desk();
    match place {
        Place::Database(conn) => execute_sql_statements(out, conn, pieces),
        _ => Ok(()),
    }
}

// Appends the rows of the tables that `names` names, or of all tables, as output lines
// (`append_rows_of_tables`). Then adopts the database, which upgrades an older schema, without
// appending the result. If nothing is open, appends nothing.
fn execute_tables_command(
    alloc: Global,
    out: &mut String,
    place: &mut Place,
    names: &str,
) -> Result<(), AllocError> {
    place.close_desk();
    if let Place::Database(conn) = place {
        append_rows_of_tables(out, conn, names)?;
    }
    place.adopt(alloc);
    Ok(())
}

// Executes a command that needs an open desk, given by its first word `verb`, the rest of its line
// `words` and its input lines `pieces`. Appends its output lines, or `! no such command` if no such
// command begins with `verb`.
fn execute_desk_command(
    alloc: Global,
    out: &mut String,
    desk: &mut Desk<MemStore>,
    verb: &str,
    words: &str,
    pieces: &[Piece],
) -> Result<(), AllocError> {
    match verb {
        "batch" => execute_batch_command(
            alloc,
            out,
            desk,
            words,
            &join_input_lines(alloc, pieces)?,
        ),
        "http" => execute_http_command(alloc, out, desk, words, &join_input_lines(alloc, pieces)?),
        "ask" => execute_ask_command(alloc, out, desk, words, pieces),
        "print" => execute_print_command(alloc, out, desk, words, pieces),
        "statement" => execute_statement_command(alloc, out, desk, words),
        "statements" => execute_statements_command(alloc, out, desk, words),
        "explain" => execute_explain_command(alloc, out, desk, words),
        _ => append_output_line(out, "! no such command"),
    }
}

// Executes a command that needs an open desk (`execute_desk_command`), or appends only `! no desk`
// if no desk is open.
fn execute_command_of_open_desk(
    alloc: Global,
    out: &mut String,
    place: &mut Place,
    verb: &str,
    words: &str,
    pieces: &[Piece],
) -> Result<(), AllocError> {
    match place {
        Place::Open(desk) => execute_desk_command(alloc, out, desk, verb, words, pieces),
        _ => append_output_line(out, "! no desk"),
    }
}

// Executes a command that opens a new desk or database, or one on the open desk or database, given
// by its first word `verb`, the rest of its line `words` and its input lines `pieces`. Appends its
// output lines. If the command needs a desk or is unknown, and no desk is open, appends only `! no
// desk`; if it is unknown and a desk is open, appends only `! no such command`.
fn execute_desk_or_database_command(
    alloc: Global,
    out: &mut String,
    place: &mut Place,
    verb: &str,
    words: &str,
    pieces: &[Piece],
) -> Result<(), AllocError> {
    match verb {
        "desk" => *place = Place::with_new_desk(alloc),
        "empty" => *place = Place::with_empty_database(alloc),
        "sql" => return execute_sql_command(out, place, pieces),
        "tables" => return execute_tables_command(alloc, out, place, words),
        "audit" => return append_audit_result(out, audit_place(alloc, place)),
        "adopt" => return append_audit_result(out, place.adopt(alloc)),
        _ => return execute_command_of_open_desk(alloc, out, place, verb, words, pieces),
    }
    Ok(())
}

/// Executes the command `command` with its input lines `pieces`: one of `tests`, a command over
/// files, one that opens a new desk or database in `place`, or one on the open desk or database.
/// Appends its output lines. If the command needs a desk or is unknown, and no desk is open,
/// appends only `! no desk`; if it is unknown and a desk is open, appends only `! no such command`.
pub fn execute_command<T: TestCrates>(
    rt: &HostRuntime,
    tests: &T,
    out: &mut String,
    place: &mut Place,
    command: &str,
    pieces: &[Piece],
) -> Result<(), AllocError> {
    let (verb, words) = command.split_once(' ').unwrap_or((command, ""));
    match verb {
        "$" | "write" | "copy" | "cut" | "change" => {
            let input = join_input_lines(rt.alloc(), pieces)?;
            execute_file_command(rt, out, verb, words, &input)
        }
        "tests" => execute_tests_command(rt, tests, out, words),
        "figures" => execute_figures_command(rt.alloc(), out, words, pieces),
        "jobs" => execute_jobs_command(rt.alloc(), out, pieces),
        _ => execute_desk_or_database_command(rt.alloc(), out, place, verb, words, pieces),
    }
}
