//! The commands `tests`, which runs tests that no transcript can state, `figures` and `jobs`.

use crate::lines::{Piece, append_escaped_output_lines, append_output_line};
use brk_tests_interfaces::words::shown_job;
use brk_tests_unit::figures::shown_figure;
use std::alloc::{AllocError, Global};

/// The crates of tests that the command `tests` of a transcript runs by their names.
pub trait TestCrates {
    /// Runs the tests of the crate `name`. Returns how many passed and how many failed, or `None` if
    /// no crate of tests has this name.
    fn run(&self, rt: &HostRuntime, name: &str) -> Option<(u64, u64)>;
}

/// Runs the tests of the crate `name`, and appends how many passed and failed as an output line, or
/// `! no such crate`.
pub fn execute_tests_command<T: TestCrates>(
    rt: &HostRuntime,
    tests: &T,
    out: &mut String,
    name: &str,
) -> Result<(), AllocError> {
    match tests.run(rt, name) {
        Some((passed, failed)) => writeln!(out, "> {passed} passed, {failed} failed"),
        None => append_output_line(out, "! no such crate"),
    }
}

/// Appends the figure `name` of each input line (`shown_figure`) as an output line.
pub fn execute_figures_command(
    alloc: Global,
    out: &mut String,
    name: &str,
    pieces: &[Piece],
) -> Result<(), AllocError> {
    for piece in pieces {
        let text = str::from_utf8(&piece.bytes).unwrap_or("");
        match shown_figure(alloc, name, text) {
            Ok(figure) => append_output_line(out, figure.as_str())?,
            Err(_) => append_output_line(out, "! fault")?,
        }
    }
    Ok(())
}

/// Appends the job that each input line asks for (`shown_job`) as output lines.
pub fn execute_jobs_command(
    alloc: Global,
    out: &mut String,
    pieces: &[Piece],
) -> Result<(), AllocError> {
    for piece in pieces {
        let line = str::from_utf8(&piece.bytes).unwrap_or("");
        let mut job = shown_job(alloc, line)?;
        if !job.ends_with('\n') {
            job.push('\n')?;
        }
        append_escaped_output_lines(out, job.as_bytes())?;
    }
    Ok(())
}
