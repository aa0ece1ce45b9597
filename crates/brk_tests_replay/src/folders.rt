//! The replay of the transcripts of all folders, and the line that each prints.

use crate::comparison::first_difference;
use crate::listing::list_transcripts;
use crate::replay::{count_commands, replay_transcript};
use crate::tests::TestCrates;
use std::alloc::AllocError;
use std::fmt::{Display, Formatter};
use std::{fmt, fs, io};

// The folders of the transcripts.
const FOLDERS: [&str; 2] = [".", "files"];

/// The reason why a replay ends before the last transcript.
#[derive(Drop)]
pub enum ReplayFault {
    /// A folder of transcripts cannot be listed.
    Listing(io::Error),
    /// The transcript at this path cannot be read, is not UTF-8 or does not fit in memory.
    Reading(String, io::Error),
    /// Standard output cannot be written.
    Output(io::Error),
    /// Memory ran out during a replay.
    Memory,
}

impl Display for ReplayFault {
    /// Writes the reason with the system's error, and for a transcript with its path.
    fn fmt<W: fmt::Write>(&self, f: &mut Formatter<W>) -> fmt::Result {
        match self {
            ReplayFault::Listing(error) => write!(f, "folder: {error}"),
            ReplayFault::Reading(path, error) => write!(f, "{path}: {error}"),
            ReplayFault::Output(error) => write!(f, "output: {error}"),
            ReplayFault::Memory => write!(f, "memory"),
        }
    }
}

impl From<AllocError> for ReplayFault {
    /// Returns `Memory`.
    fn from(_: AllocError) -> ReplayFault {
        ReplayFault::Memory
    }
}

// Prints the result of the replay `replayed` of the transcript `text` at a path, whose name is the
// path without `.txt`: the number of commands if the two are equal, and otherwise their first
// difference. Returns true if the two are equal. Fails if standard output cannot be written.
fn print_result(rt: &HostRuntime, path: &str, text: &str, replayed: &str) -> io::Result<bool> {
    let name = path.strip_suffix(".txt").unwrap_or(path);
    match first_difference(text, replayed) {
        None => {
            println!(rt; "{name} {} commands ok", count_commands(text))?;
            Ok(true)
        }
        Some(difference) => {
            println!(rt; "{name} {difference}")?;
            Ok(false)
        }
    }
}

// Replays the transcript at a path and prints the result. Returns true if the replay equals the
// transcript. Fails with `Reading` if the transcript cannot be read, is not UTF-8 or does not fit in
// memory, with `Memory` if memory runs out during the replay, and with `Output` if the result cannot
// be written.
fn replay_file<T: TestCrates>(
    rt: &HostRuntime,
    tests: &T,
    path: String,
) -> Result<bool, ReplayFault> {
    let text = match fs::read_to_string(rt, path.as_str()) {
        Ok(text) => text,
        Err(error) => return Err(ReplayFault::Reading(path, error)),
    };
    let replayed = replay_transcript(rt, tests, text.as_str())?;
    match print_result(rt, path.as_str(), text.as_str(), replayed.as_str()) {
        Ok(is_equal) => Ok(is_equal),
        Err(error) => Err(ReplayFault::Output(error)),
    }
}

// Replays the transcripts of a folder in the order of their names, and prints the result of each.
// Returns true if each replay equals its transcript. Fails with `Listing` if the folder cannot be
// listed, and with the first failure of a transcript.
fn replay_folder<T: TestCrates>(
    rt: &HostRuntime,
    tests: &T,
    folder: &str,
) -> Result<bool, ReplayFault> {
    let paths = match list_transcripts(rt, folder) {
        Ok(paths) => paths,
        Err(error) => return Err(ReplayFault::Listing(error)),
    };
    let mut are_equal = true;
    for path in paths {
        are_equal = replay_file(rt, tests, path)? && are_equal;
    }
    Ok(are_equal)
}

/// Replays the transcripts of the folder in which the program runs, and then those of its folder
/// `files`, each in the order of their names. The command `tests` runs those of `tests`. Prints a line
/// for each transcript that its replay equals, with its name and the number of its commands, and
/// otherwise the first line that differs. Returns true if each replay equals its transcript. Fails
/// with the first failure of a folder.
pub fn replay_all_folders<T: TestCrates>(rt: &HostRuntime, tests: &T) -> Result<bool, ReplayFault> {
    let mut are_equal = true;
    for folder in FOLDERS {
        are_equal = replay_folder(rt, tests, folder)? && are_equal;
    }
    Ok(are_equal)
}
