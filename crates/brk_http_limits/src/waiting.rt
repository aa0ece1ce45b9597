//! The time that a stream has waited for its peer, and what is left of it.

ghost use Rattle.std.specs.Prelude.{◌≡◌, ◌-◌, ◌*◌, min};
ghost use Rattle.std.specs.Duration.{as_nanos};
ghost use Rattle.brk_http_limits.specs.Waiting.{phase_limit, stream_limit};

use std::cell::Cell;
use std::io;
use std::io::ErrorKind;
use std::time::{Clock, Duration};

/// What a stream waits for.
#[derive(Clone, Copy)]
pub(crate) enum Phase {
    /// The first byte of a request, after the stream was opened or a reply was written.
    FirstByte,
    /// The other bytes of the request.
    Request,
    /// The taking of replies.
    Reply,
    /// The end of the peer's bytes, after the last reply.
    Drain,
}

// The greatest time of a phase, in milliseconds.
fn phase_limit(phase: Phase) -> u64
    ensures { result ≡ phase_limit phase }
{
    match phase {
        Phase::FirstByte => 1_000,
        Phase::Request => 30_000,
        Phase::Reply => 30_000,
        Phase::Drain => 1_000,
    }
}

// The greatest time of all phases of a stream up to its last reply, in milliseconds.
const STREAM_LIMIT: u64 = 60_000;

// Returns the time that the next call may wait: what is left of the phase, at most what is left of
// the stream.
fn time_left(phase: Phase, in_phase: Duration, in_stream: Duration) -> Duration
    ensures { as_nanos result ≡ min (phase_limit phase * 1_000_000 - as_nanos in_phase) (stream_limit * 1_000_000 - as_nanos in_stream) }
{
    let of_phase = Duration::from_millis(phase_limit(phase)).saturating_sub(in_phase);
    let of_stream = Duration::from_millis(STREAM_LIMIT).saturating_sub(in_stream);
    if of_phase < of_stream {
        of_phase
    } else {
        of_stream
    }
}

/// The time that a stream has waited for its peer, by the clock of `R`.
#[derive(Drop)]
pub(crate) struct Waiting<'a, R> {
    clock: &'a R,
    phase: Cell<Phase>,
    in_phase: Cell<Duration>,
    in_stream: Cell<Duration>,
}

impl<'a, R: Clock> Waiting<'a, R> {
    /// A stream that has waited for nothing yet, in this phase.
    pub(crate) fn new(clock: &'a R, phase: Phase) -> Waiting<'a, R> {
        Waiting {
            clock,
            phase: Cell::new(phase),
            in_phase: Cell::new(Duration::ZERO),
            in_stream: Cell::new(Duration::ZERO),
        }
    }

    fn enter(&self, phase: Phase) {
        self.phase.set(phase);
        self.in_phase.set(Duration::ZERO);
    }

    /// Begins the next request if the last call wrote a reply.
    pub(crate) fn before_read(&self) {
        if let Phase::Reply = self.phase.get() {
            self.enter(Phase::FirstByte);
        }
    }

    /// Notes that a read returned bytes of a request.
    pub(crate) fn after_read(&self) {
        if let Phase::FirstByte = self.phase.get() {
            self.enter(Phase::Request);
        }
    }

    pub(crate) fn before_write(&self) {
        match self.phase.get() {
            Phase::Reply => {}
            _ => self.enter(Phase::Reply),
        }
    }

    /// Returns the time that the next call may wait. Fails with `TimedOut` if none is left.
    pub(crate) fn limit(&self) -> io::Result<Duration> {
        let left = time_left(self.phase.get(), self.in_phase.get(), self.in_stream.get());
        if left.is_zero() {
            Err(ErrorKind::TimedOut.into())
        } else {
            Ok(left)
        }
    }

    /// Returns the reading of the clock, for `note`.
    pub(crate) fn start(&self) -> io::Result<Duration> {
        self.clock.monotonic()
    }

    /// Adds the time since `start` to what the stream has waited.
    pub(crate) fn note(&self, start: Duration) -> io::Result<()> {
        let waited = self.clock.monotonic()?.saturating_sub(start);
        self.in_phase
            .set(self.in_phase.get().saturating_add(waited));
        self.in_stream
            .set(self.in_stream.get().saturating_add(waited));
        Ok(())
    }
}
