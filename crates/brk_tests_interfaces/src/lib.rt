//! Tests of the edges of the program, which need no database: batches over a desk of the tests, the
//! program's clock, the amounts of a statement, and exit statuses with their lines. The command `jobs`
//! of a transcript shows what command lines ask for. The command `tests` of a transcript runs them.
#![tactic(auto)]

mod amounts;
mod batches;
mod clock;
pub mod endings;
pub mod words;

use brk_tests_unit::Results;

pub fn run_tests(rt: &HostRuntime, results: &mut Results) {
    amounts::run_tests(rt, results);
    batches::run_tests(rt, results);
    clock::run_tests(rt, results);
    endings::run_tests(rt, results);
}
