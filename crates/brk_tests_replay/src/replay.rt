//! The replay of a transcript, line by line.

use crate::commands::{Place, execute_command};
use crate::lines::{Piece, append_output_line, unescape_input_line};
use crate::tests::TestCrates;
use std::alloc::{AllocError, Global};
use std::fs;

fn is_comment_or_empty(line: &str) -> bool {
    line.is_empty() || line.starts_with('#')
}

fn is_command(line: &str) -> bool {
    !(is_comment_or_empty(line) || line.starts_with("| ") || line.starts_with("> "))
}

/// Returns the number of commands of a transcript.
pub fn count_commands(text: &str) -> usize {
    text.split('\n').filter(|line| is_command(line)).count()
}

// The last line that is neither input nor output, and the input lines after it. If it is a command, it
// is executed at the next such line.
#[derive(Drop)]
struct Pending<'a> {
    line: &'a str,
    pieces: Vec<Piece>,
}

impl<'a> Pending<'a> {
    fn nothing(alloc: Global) -> Pending<'a> {
        Pending {
            line: "",
            pieces: Vec::new(alloc),
        }
    }

    // Adds an input line, and returns false for any other line.
    fn add_input_line(&mut self, alloc: Global, line: &str) -> Result<bool, AllocError> {
        match line.strip_prefix("| ") {
            Some(text) => {
                self.pieces.push(unescape_input_line(alloc, text)?)?;
                Ok(true)
            }
            None => Ok(false),
        }
    }

    fn execute<T: TestCrates>(
        &self,
        rt: &HostRuntime,
        tests: &T,
        out: &mut String,
        place: &mut Place,
    ) -> Result<(), AllocError> {
        if is_comment_or_empty(self.line) {
            return Ok(());
        }
        execute_command(rt, tests, out, place, self.line, &self.pieces)
    }

    fn start(&mut self, line: &'a str) {
        self.line = line;
        self.pieces.clear();
    }
}

// An included transcript: its commands are executed at `place`, and their output is dropped.
#[derive(Drop)]
struct Included<'a> {
    pending: Pending<'a>,
    dropped: String,
}

impl<'a> Included<'a> {
    fn process_line<T: TestCrates>(
        &mut self,
        rt: &HostRuntime,
        tests: &T,
        place: &mut Place,
        line: &'a str,
    ) -> Result<(), AllocError> {
        if line.starts_with("> ") || self.pending.add_input_line(rt.alloc(), line)? {
            return Ok(());
        }
        self.pending.execute(rt, tests, &mut self.dropped, place)?;
        self.pending.start(line);
        Ok(())
    }

    fn process_lines<T: TestCrates>(
        &mut self,
        rt: &HostRuntime,
        tests: &T,
        place: &mut Place,
        text: &'a str,
    ) -> Result<(), AllocError> {
        for line in text.split('\n') {
            self.process_line(rt, tests, place, line)?;
        }
        self.pending.execute(rt, tests, &mut self.dropped, place)
    }
}

fn execute_included_transcript<T: TestCrates>(
    rt: &HostRuntime,
    tests: &T,
    place: &mut Place,
    text: &str,
) -> Result<(), AllocError> {
    let mut included = Included {
        pending: Pending::nothing(rt.alloc()),
        dropped: String::new(rt.alloc()),
    };
    included.process_lines(rt, tests, place, text)
}

// Executes the commands of the transcript at a path, or appends `! no file` if it cannot be read.
fn execute_include_command<T: TestCrates>(
    rt: &HostRuntime,
    tests: &T,
    out: &mut String,
    place: &mut Place,
    path: &str,
) -> Result<(), AllocError> {
    match fs::read_to_string(rt, path) {
        Ok(text) => execute_included_transcript(rt, tests, place, text.as_str()),
        Err(_) => append_output_line(out, "! no file"),
    }
}

// The state of a replay: the open desk or database, and the pending command.
#[derive(Drop)]
struct Replay<'a> {
    place: Place,
    pending: Pending<'a>,
}

impl<'a> Replay<'a> {
    fn execute_pending_command<T: TestCrates>(
        &mut self,
        rt: &HostRuntime,
        tests: &T,
        out: &mut String,
    ) -> Result<(), AllocError> {
        match self.pending.line.strip_prefix("include ") {
            Some(path) => execute_include_command(rt, tests, out, &mut self.place, path),
            None => self.pending.execute(rt, tests, out, &mut self.place),
        }
    }

    // Drops an output line, copies any other one, and executes the pending command before a line that
    // is no input line.
    fn process_line<T: TestCrates>(
        &mut self,
        rt: &HostRuntime,
        tests: &T,
        out: &mut String,
        line: &'a str,
    ) -> Result<(), AllocError> {
        if line.starts_with("> ") {
            return Ok(());
        }
        if !self.pending.add_input_line(rt.alloc(), line)? {
            self.execute_pending_command(rt, tests, out)?;
            self.pending.start(line);
        }
        writeln!(out, "{line}")
    }

    fn process_lines<T: TestCrates>(
        &mut self,
        rt: &HostRuntime,
        tests: &T,
        out: &mut String,
        text: &'a str,
    ) -> Result<(), AllocError> {
        for line in text.split('\n') {
            self.process_line(rt, tests, out, line)?;
        }
        self.execute_pending_command(rt, tests, out)
    }
}

/// Executes the commands of a transcript, and returns the transcript with their new output lines in
/// place of the old ones. The command `tests` runs those of `tests`. A line feed that is missing at
/// the end of the transcript is added.
pub fn replay_transcript<T: TestCrates>(
    rt: &HostRuntime,
    tests: &T,
    text: &str,
) -> Result<String, AllocError> {
    let mut out = String::new(rt.alloc());
    let mut replay = Replay {
        place: Place::Nothing,
        pending: Pending::nothing(rt.alloc()),
    };
    let lines = text.strip_suffix('\n').unwrap_or(text);
    replay.process_lines(rt, tests, &mut out, lines)?;
    Ok(out)
}
