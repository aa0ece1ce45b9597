//! Tests of the program's clock.

use brk_cli_exit::brk_io::{Clock, ProgramClock};
use brk_money::Stamp;
use brk_tests_unit::expect::expect_equal;
use brk_tests_unit::{Results, run_test};
use std::io::{self, ErrorKind};
use std::rt;
use std::test::Fail;
use std::time::Duration;

// A machine's clock that always returns the same time since 1970-01-01 UTC, or that cannot be read
// (`None`).
#[derive(Drop)]
struct Stopped(Option<Duration>);

impl rt::Clock for Stopped {
    // Returns the fixed monotonic time of 7 seconds.
    fn monotonic(&self) -> io::Result<Duration> {
        Ok(Duration::from_secs(7))
    }

    // Returns the fixed time since 1970-01-01 UTC, or fails with `Unsupported` if there is none.
    fn since_1970(&self) -> io::Result<Duration> {
        self.0.ok_or(io::Error::from(ErrorKind::Unsupported))
    }
}

// 2024-03-01 00:00 UTC, in milliseconds since 1970-01-01 UTC.
const PAST: i64 = 1_709_251_200_000;

// Checks that a clock with a fixed timestamp returns it at the first and at the second reading.
fn a_fixed_clock_returns_its_timestamp(rt: &HostRuntime) -> Result<(), Fail> {
    let mut clock = ProgramClock::new(rt, Some(Stamp::nearest(PAST)));
    expect_equal(clock.now().get(), PAST)?;
    expect_equal(clock.now().get(), PAST)
}

// Checks that two readings of the machine's clock drop the fraction of a millisecond.
fn clock_readings_are_whole_milliseconds() -> Result<(), Fail> {
    let machine = Stopped(Some(Duration::new(1_709_251_200, 123_999_999)));
    let mut clock = ProgramClock::new(&machine, None);
    expect_equal(clock.now().get(), PAST + 123)?;
    expect_equal(clock.now().get(), PAST + 123)
}

// Checks that the reading is the greatest stamp if the machine's time is this stamp, and if it is 1
// ms later: 10000-01-01 00:00 UTC, which is second 253,402,300,800.
fn late_clock_readings_are_the_greatest_stamp() -> Result<(), Fail> {
    let last = Stopped(Some(Duration::new(253_402_300_799, 999_000_000)));
    expect_equal(ProgramClock::new(&last, None).now().get(), Stamp::GREATEST)?;
    let late = Stopped(Some(Duration::from_secs(253_402_300_800)));
    expect_equal(ProgramClock::new(&late, None).now().get(), Stamp::GREATEST)
}

// Checks that the reading is the timestamp 0 if the machine's clock cannot be read.
fn an_unreadable_clock_reads_as_zero() -> Result<(), Fail> {
    let machine = Stopped(None);
    expect_equal(ProgramClock::new(&machine, None).now().get(), 0)
}

pub fn run_tests(rt: &HostRuntime, results: &mut Results) {
    run_test!(rt, results, a_fixed_clock_returns_its_timestamp(rt));
    run_test!(rt, results, clock_readings_are_whole_milliseconds());
    run_test!(rt, results, late_clock_readings_are_the_greatest_stamp());
    run_test!(rt, results, an_unreadable_clock_reads_as_zero());
}
