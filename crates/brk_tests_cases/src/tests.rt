//! The crates of tests.

use brk_tests_replay::TestCrates;
use brk_tests_unit::Results;

/// The crates of tests that the command `tests` of a transcript runs.
#[derive(Clone, Copy)]
pub struct AllCrates;

impl TestCrates for AllCrates {
    fn run(&self, rt: &HostRuntime, name: &str) -> Option<(u64, u64)> {
        let mut results = Results {
            passed: 0,
            failed: 0,
        };
        match name {
            "brk_tests_unit" => brk_tests_unit::run_tests(rt, &mut results),
            "brk_tests_interfaces" => brk_tests_interfaces::run_tests(rt, &mut results),
            "brk_tests_surface_rules" => brk_tests_surface_rules::run_tests(rt, &mut results),
            "brk_tests" => brk_tests::run_tests(rt, &mut results),
            "brk_tests_files" => brk_tests_files::run_tests(rt, &mut results),
            "brk_tests_served" => brk_tests_served::run_tests(rt, &mut results),
            _ => return None,
        }
        Some((results.passed, results.failed))
    }
}
