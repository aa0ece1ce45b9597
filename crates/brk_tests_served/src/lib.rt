//! Tests of desks that are served over sockets of this machine: a desk in files of which one fails,
//! and streams that break off. The command `tests` of a transcript runs them. A test fails if what it
//! checks is not so, and also if a desk for it cannot be set up or memory runs out.
#![tactic(auto)]

mod failing_files;
mod files;
mod sockets;

use brk_tests_unit::Results;

pub fn run_tests(rt: &HostRuntime, results: &mut Results) {
    files::run_tests(rt, results);
    sockets::run_tests(rt, results);
}
