ghost use Rattle.std.specs.Prelude.{◌≡◌};
ghost use Rattle.brk_io.specs.Readings.{ReturnsReading, program_clock, stamp_of_time};

use crate::clock::Clock;
use brk_money::Stamp;
use std::rt;
use std::time::{SystemTime, UNIX_EPOCH};

/// The program's clock.
#[derive(Drop)]
pub enum ProgramClock<'a, R> {
    /// A clock that always returns this timestamp.
    At(Stamp),
    /// The machine's clock.
    Machine(&'a R),
}

/// Returns the stamp of the time, at most the greatest stamp. No `SystemTime` is before 1970.
pub fn stamp_of_system_time(time: SystemTime) -> Stamp
    ensures { result ≡ stamp_of_time time }
{
    match time.duration_since(UNIX_EPOCH) {
        Ok(since) => {
            let millis = since.as_millis().min(Stamp::GREATEST as u128) as i64;
            Stamp::nearest(millis)
        }
        Err(_) => Stamp::nearest(0),
    }
}

// Returns 0 if the clock cannot be read or is set before 1970.
fn read_machine_clock<R: rt::Clock>(clock: &R) -> Stamp {
    match SystemTime::now(clock) {
        Ok(time) => stamp_of_system_time(time),
        Err(_) => Stamp::nearest(0),
    }
}

impl<'a, R: rt::Clock> ProgramClock<'a, R> {
    /// Creates a clock that always returns `at` if it is given, and otherwise reads `clock`.
    pub fn new(clock: &'a R, at: Option<Stamp>) -> ProgramClock<'a, R>
        ensures { result ≡ program_clock clock.entry at }
    {
        match at {
            Some(stamp) => ProgramClock::At(stamp),
            None => ProgramClock::Machine(clock),
        }
    }
}

/// No contract specifies the time that the machine's clock has. If the clock cannot be read or is
/// set before 1970, the reading is 0.
impl<R: rt::Clock> Clock for ProgramClock<'_, R> {
    ghost gives = { ReturnsReading };

    fn now(&mut self) -> Stamp {
        match self {
            ProgramClock::At(stamp) => *stamp,
            ProgramClock::Machine(clock) => read_machine_clock(*clock),
        }
    }
}
