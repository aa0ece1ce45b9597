//! Tests of the rules of a desk, which need no database: lots, and plans at their limits. The command
//! `tests` of a transcript runs them, and the command `figures` shows amounts, days and timestamps.
#![tactic(auto)]

pub mod expect;
pub mod figures;
pub mod lots;
mod move_plans;
pub mod planned_reply;
pub mod plans;
pub mod result_plans;
mod results;
mod slow_lots;
pub mod texts;

pub use results::Results;

pub fn run_tests(rt: &HostRuntime, results: &mut Results) {
    lots::run_tests(rt, results);
    slow_lots::run_tests(rt, results);
    move_plans::run_tests(rt, results);
    plans::run_tests(rt, results);
    result_plans::run_tests(rt, results);
}
