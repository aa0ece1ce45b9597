//! The records that transcripts show: those of views and the rows of all tables. A function that
//! fails may have appended a part of its lines.

use crate::lines::{Piece, append_escaped_bytes, append_escaped_output_lines, append_output_line};
use crate::table_list::TABLES;
use brk_ask::{Form, write_asked};
use brk_desk::{Desk, parse_query};
use brk_money::{Planned, Refusal};
use brk_report::ReportFault;
use brk_view::{View, view_fields};
use sqlite::types::ValueRef;
use sqlite::{Connection, MemStore, Row};
use std::alloc::{AllocError, Global};

/// Appends the output line of a refusal: `no` and its number.
pub fn append_refusal_line(out: &mut String, refusal: Refusal) -> Result<(), AllocError> {
    writeln!(out, "> no {}", refusal.number())
}

/// Appends the bytes `written` of a report as output lines with escapes and, if the report failed,
/// `no` and the number of its refusal, or `! fault`.
pub fn append_report(
    out: &mut String,
    written: &[u8],
    ended: Result<(), ReportFault>,
) -> Result<(), AllocError> {
    append_escaped_output_lines(out, written)?;
    match ended {
        Ok(()) => Ok(()),
        Err(ReportFault::Refused(refusal)) => append_refusal_line(out, refusal),
        Err(_) => append_output_line(out, "! fault"),
    }
}

// Appends the fields of a record as an output line, with escapes and separated by bars. For a
// record without fields, appends an empty line.
fn append_record_line(out: &mut String, record: &[String]) -> Result<(), AllocError> {
    let mut sign = "> ";
    for field in record {
        out.push_str(sign)?;
        append_escaped_bytes(out, field.as_bytes(), true)?;
        sign = "|";
    }
    out.push_str("\n")
}

// Appends each record, in order, as an output line.
fn append_record_lines(out: &mut String, records: &[Vec<String>]) -> Result<(), AllocError> {
    for record in records {
        append_record_line(out, record)?;
    }
    Ok(())
}

// Appends each record of a view, in order, as an output line.
fn append_view_lines(alloc: Global, out: &mut String, view: &View) -> Result<(), AllocError> {
    match view_fields(alloc, view) {
        Ok(records) => append_record_lines(out, &records),
        Err(_) => Err(AllocError),
    }
}

// Returns the bytes of each input line as a borrowed slice, in order.
fn bytes_of_input_lines(alloc: Global, pieces: &[Piece]) -> Result<Vec<&[u8]>, AllocError> {
    let mut texts = Vec::new(alloc);
    for piece in pieces {
        texts.push(piece.bytes.as_slice())?;
    }
    Ok(texts)
}

// Parses a query from the name of a view and its arguments, and executes it on a desk. Returns the
// view, or the refusal of an unknown name, of the arguments or of the query. Fails with `Memory` or
// `Store`.
fn parse_and_execute_query(
    alloc: Global,
    desk: &mut Desk<MemStore>,
    view: &str,
    arguments: &[&[u8]],
) -> Planned<View> {
    match parse_query(alloc, view, arguments)? {
        Ok(query) => desk.ask(alloc, &query),
        Err(refusal) => Ok(Err(refusal)),
    }
}

/// Executes the query for the view with the name `view` on a desk, with the input lines as its
/// arguments. Appends the records of the view as output lines, or `no` and the number of the
/// refusal if the name, the arguments or the query are refused, or `! fault` if the query failed.
pub fn execute_ask_command(
    alloc: Global,
    out: &mut String,
    desk: &mut Desk<MemStore>,
    view: &str,
    pieces: &[Piece],
) -> Result<(), AllocError> {
    let arguments = bytes_of_input_lines(alloc, pieces)?;
    match parse_and_execute_query(alloc, desk, view, &arguments) {
        Ok(Ok(view)) => append_view_lines(alloc, out, &view),
        Ok(Err(refusal)) => append_refusal_line(out, refusal),
        Err(_) => append_output_line(out, "! fault"),
    }
}

// Returns the format of a printed view that `word` names: JSON for `json` and `json-heads`, and
// otherwise CSV; for `csv-heads` and `json-heads` with the names of the fields, if the view has
// them (`Form`), and otherwise without.
fn format_of_printed_view(word: &str) -> Form {
    Form {
        json: word == "json" || word == "json-heads",
        heads: word == "csv-heads" || word == "json-heads",
    }
}

/// Prints a view of a desk: `words` contains the format and the name of the view, separated by a
/// space, and the input lines are the arguments of the view. If `words` has no space, it is the
/// format, and the name is empty. Appends the printed text and, if printing failed, `no` and the
/// number of the refusal, or `! fault`.
pub fn execute_print_command(
    alloc: Global,
    out: &mut String,
    desk: &mut Desk<MemStore>,
    words: &str,
    pieces: &[Piece],
) -> Result<(), AllocError> {
    let (form, view) = words.split_once(' ').unwrap_or((words, ""));
    let arguments = bytes_of_input_lines(alloc, pieces)?;
    let mut printed = Vec::new(alloc);
    let ended = write_asked(
        alloc,
        desk,
        view,
        &arguments,
        format_of_printed_view(form),
        &mut printed,
    );
    append_report(out, &printed, ended)
}

// Appends the value of the column at index `at` of a row, after a bar unless `at` is 0. A whole
// number is written in decimal, after `-` if it is negative, and a text with the escapes of a
// record. Any other value, for example a null, and the value of a missing column are written as
// `\x00`.
fn append_cell_text(out: &mut String, row: &Row, at: usize) -> Result<(), AllocError> {
    if at > 0 {
        out.push_str("|")?;
    }
    match row.get_ref(at).unwrap_or(ValueRef::Null) {
        ValueRef::Int(number) => write!(out, "{number}"),
        ValueRef::Text(bytes) => append_escaped_bytes(out, bytes, true),
        _ => out.push_str("\\x00"),
    }
}

// Appends a row of a table as an output line: the name of the table, a space, and the values of the
// columns, separated by bars.
fn append_table_row(out: &mut String, table: &str, row: &Row) -> Result<(), AllocError> {
    write!(out, "> {table} ")?;
    for at in 0..row.column_count() {
        append_cell_text(out, row, at)?;
    }
    out.push_str("\n")
}

// Appends rows of a table as output lines, in order.
fn append_table_rows(out: &mut String, table: &str, rows: &[Row]) -> Result<(), AllocError> {
    for row in rows {
        append_table_row(out, table, row)?;
    }
    Ok(())
}

// Appends the rows of a table that the query `sql` returns as output lines, or the line `! no
// table` with the name of the table if the rows cannot be read.
fn append_rows_of_table(
    out: &mut String,
    conn: &mut Connection<MemStore>,
    table: &str,
    sql: &str,
) -> Result<(), AllocError> {
    match conn.query_all(sql, &[]) {
        Ok(rows) => append_table_rows(out, table, &rows),
        Err(_) => writeln!(out, "> ! no table {table}"),
    }
}

fn is_shown(table: &str, names: &str) -> bool {
    names.is_empty() || names.split(' ').any(|name| name == table)
}

/// Appends the rows of the tables of a desk that the words `names` name, or of all tables if there is
/// none, as output lines: the tables in the order of `TABLES`, and each sorted by its key, ascending.
/// For a table that cannot be read, appends the line `! no table` with its name.
pub fn append_rows_of_tables(
    out: &mut String,
    conn: &mut Connection<MemStore>,
    names: &str,
) -> Result<(), AllocError> {
    for (table, sql) in &TABLES {
        if is_shown(table, names) {
            append_rows_of_table(out, conn, table, sql)?;
        }
    }
    Ok(())
}
