//! Replays the transcripts of the folder in which it runs, and those of its folder `files`, and
//! prints a line for each transcript that its replay equals. If a replay differs, prints the first
//! line that does, as the transcript and as the replay have it.
#![tactic(auto)]

mod tests;

use brk_tests_replay::replay_all_folders;
use std::process::ExitCode;
use tests::AllCrates;

// Runs the program, and returns the exit status: 0 if each replay equals its transcript, 1 if one
// differs, and 2 if the program fails, after a line on standard error. A failure to write to
// standard error is ignored.
fn main(rt: HostRuntime) -> ExitCode {
    match replay_all_folders(&rt, &AllCrates) {
        Ok(true) => ExitCode::SUCCESS,
        Ok(false) => ExitCode::FAILURE,
        Err(fault) => {
            let _ = eprintln!(rt; "brk_tests_cases: {fault}");
            ExitCode::from(2)
        }
    }
}
