//! The results of tests.

use std::process::Termination;
use std::test::Fail;

/// How many tests passed and failed so far.
#[derive(Clone, Copy)]
pub struct Results {
    pub passed: u64,
    pub failed: u64,
}

impl Results {
    /// Counts the result of the test `name`, and writes a failure to standard error.
    pub fn add(&mut self, rt: &HostRuntime, name: &str, outcome: Result<(), Fail>) {
        match outcome {
            Ok(()) => self.passed = self.passed.saturating_add(1),
            failure => {
                self.failed = self.failed.saturating_add(1);
                let _ = eprintln!(rt; "{name}:");
                let _ = failure.report(rt);
            }
        }
    }
}

/// Runs a test, and counts its result under the name of its function.
#[macro_export]
macro_rules! run_test {
    ($rt:expr, $results:expr, $name:ident ( $($argument:expr),* )) => {
        $results.add($rt, stringify!($name), $name($($argument),*))
    };
}
