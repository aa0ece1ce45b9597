//! Tests of the public calls that need no database (brk_tests has those over one). Each item is
//! imported under its path, each function is called once with a known answer, and each type is
//! constructed or matched, so a name that changes fails to compile. The command `tests` of a
//! transcript runs them.
#![tactic(auto)]

mod audit;
mod money;
mod planned;
mod reference;
mod trade;
pub mod view;

use brk_tests_unit::Results;

pub fn run_tests(rt: &HostRuntime, results: &mut Results) {
    money::run_tests(rt, results);
    reference::run_tests(rt, results);
    trade::run_tests(rt, results);
    view::run_tests(rt, results);
    audit::run_tests(rt, results);
}
