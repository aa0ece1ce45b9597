//! The streams of a TCP listener, with limits of the time that is spent waiting for a peer. Times are
//! read from a clock that does not go back. Only tests show that a stream ends at a limit.
#![tactic(auto)]

mod timed_listener;
mod timed_stream;
mod waiting;

pub use timed_listener::TimedListener;
pub use timed_stream::TimedStream;
