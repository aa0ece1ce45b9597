//! The commands of transcripts over files: the program `brk` with its arguments, and changes that
//! another program makes in a file. A function that fails may have appended a part of its lines. A
//! change that fails may have changed a part of its file.

use crate::lines::{append_escaped_lines_with_prefix, append_output_line};
use brk_cli_args::read_words;
use brk_cli_exit::end_with;
use brk_cli_jobs::{PipeWriter, execute_requested_job_on_machine};
use sqlite::Connection;
use std::alloc::{AllocError, Global};
use std::fs;

// Returns `brk`, the name of the program, followed by the command-line arguments in a text, which
// is split at each of its spaces.
fn program_name_and_arguments(alloc: Global, text: &str) -> Result<Vec<String>, AllocError> {
    let mut words = Vec::new(alloc);
    words.push(String::from_str(alloc, "brk")?)?;
    for word in text.split(' ') {
        words.push(String::from_str(alloc, word)?)?;
    }
    Ok(words)
}

// Appends what the program wrote and how it ended: the lines of its output, the lines of its error
// text, each with `!` before it, and a line with `=` and its exit status.
fn append_program_result(
    out: &mut String,
    output: &[u8],
    errors: &[u8],
    status: u8,
) -> Result<(), AllocError> {
    append_escaped_lines_with_prefix(out, "> ", output)?;
    append_escaped_lines_with_prefix(out, "> ! ", errors)?;
    writeln!(out, "> = {status}")
}

// Executes the program `brk` in this process with the command-line arguments `words` and this
// input, and appends its result (`append_program_result`).
fn run_program(
    rt: &HostRuntime,
    out: &mut String,
    words: &str,
    input: &[u8],
) -> Result<(), AllocError> {
    let words = read_words(program_name_and_arguments(rt.alloc(), words)?);
    let mut output = PipeWriter::new(Vec::new(rt.alloc()));
    let ending = execute_requested_job_on_machine(rt, words, input, &mut output);
    let mut errors = Vec::new(rt.alloc());
    let status = end_with(&ending, &mut errors);
    append_program_result(out, &output.into_output(), &errors, status)
}

// Writes the bytes `bytes` as the whole file at a path, in place of an earlier file. Returns true
// if that succeeds.
fn write_file(rt: &HostRuntime, path: &str, bytes: &[u8]) -> bool {
    fs::write(rt, path, bytes).is_ok()
}

// Copies a file: `paths` contains the paths of the file and of its copy, separated by a space.
// Returns true if that succeeds, and false also if `paths` has no space.
fn copy_file(rt: &HostRuntime, paths: &str) -> bool {
    match paths.split_once(' ') {
        Some((from, to)) => fs::copy(rt, from, to).is_ok(),
        None => false,
    }
}

// Removes the second half of a file; if its number of bytes is odd, the byte in the middle too.
// Returns true if that succeeds.
fn remove_second_half_of_file(rt: &HostRuntime, path: &str) -> bool {
    match fs::read(rt, path) {
        Ok(whole) => write_file(rt, path, &whole[..whole.len() / 2]),
        Err(_) => false,
    }
}

// Executes an SQL statement on the database in a file, and closes the database; a missing file
// becomes a new database. Returns true if the statement and the closing succeed, and false also if
// the statement is not UTF-8 or the file cannot be opened as a database.
fn execute_sql_in_file(rt: &HostRuntime, path: &str, sql: &[u8]) -> bool {
    let Ok(sql) = str::from_utf8(sql) else {
        return false;
    };
    let Ok(mut conn) = Connection::open(rt, path) else {
        return false;
    };
    let executed = conn.execute(sql, &[]).is_ok();
    let closed = conn.close().is_ok();
    executed && closed
}

// Changes a file, as another program would, by the word `verb`: writes the input to the file
// (`write`), copies the file (`copy`), removes its second half (`cut`) or executes the input as an
// SQL statement in it (`change`). `words` is the path of the file, for `copy` followed by a space
// and the path of the copy. Returns true if the change succeeds, and false also for another word.
fn change_file(rt: &HostRuntime, verb: &str, words: &str, input: &[u8]) -> bool {
    match verb {
        "write" => write_file(rt, words, input),
        "copy" => copy_file(rt, words),
        "cut" => remove_second_half_of_file(rt, words),
        "change" => execute_sql_in_file(rt, words, input),
        _ => false,
    }
}

/// Executes a command over files, given by its first word `verb`, the rest of its line `words` and
/// its input: the program `brk` if `verb` is `$`, and otherwise a change of a file. Appends the
/// output lines; for a change, this is one line, `= done` or, also if `verb` is unknown, `=
/// failed`.
pub fn execute_file_command(
    rt: &HostRuntime,
    out: &mut String,
    verb: &str,
    words: &str,
    input: &[u8],
) -> Result<(), AllocError> {
    match verb {
        "$" => run_program(rt, out, words, input),
        _ if change_file(rt, verb, words, input) => append_output_line(out, "= done"),
        _ => append_output_line(out, "= failed"),
    }
}
