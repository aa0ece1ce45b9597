//! Tests of desks in files in memory: crashes, disks that fail within a statement or a stream, and the
//! calls of a file that a sale makes. The command `tests` of a transcript runs them. A test fails if
//! what it checks is not so, and also if a desk for it cannot be set up or memory runs out.
#![tactic(auto)]

pub mod crashes;
mod file_calls;
pub mod jobs;
pub mod machine;
mod statements;
mod streams;

use brk_tests_unit::Results;

pub fn run_tests(rt: &HostRuntime, results: &mut Results) {
    crashes::run_tests(rt, results);
    file_calls::run_tests(rt, results);
    streams::run_tests(rt, results);
    statements::run_tests(rt, results);
}
