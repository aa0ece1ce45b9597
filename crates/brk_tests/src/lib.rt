//! Tests of desks in memory that no transcript of `crates/brk_tests_cases/data/` can show: readers
//! and writers that fail, streams of requests that come in pieces, peers in memory, the creation of
//! stores, runs of calls, walks, the number of rows that a sale reads, and the public items of the
//! crates over a database that no other test uses. The command `tests` of a transcript runs
//! them. A test fails if what it checks is not so, and also if a desk for it cannot be set up or
//! memory runs out.
#![tactic(auto)]

mod calls;
mod cuts;
mod http;
mod long_run;
mod made;
mod rows_read;
mod statements;
mod store;
mod walks;

use brk_tests_unit::Results;

pub fn run_tests(rt: &HostRuntime, results: &mut Results) {
    cuts::run_tests(rt, results);
    http::cuts::run_tests(rt, results);
    http::peers::run_tests(rt, results);
    http::streams::run_tests(rt, results);
    long_run::run_tests(rt, results);
    made::run_tests(rt, results);
    rows_read::run_tests(rt, results);
    calls::run_tests(rt, results);
    statements::run_tests(rt, results);
    walks::run_tests(rt, results);
    store::run_tests(rt, results);
}
