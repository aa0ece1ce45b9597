use crate::timed_stream::TimedStream;
use brk_http_engine::{AcceptFault, Listener};
use std::net::TcpListener;
use std::time::Clock;

/// A TCP listener with the clock that limits the time of its streams.
#[derive(Drop)]
pub struct TimedListener<'a, R> {
    listener: &'a TcpListener,
    clock: &'a R,
}

impl<'a, R> TimedListener<'a, R> {
    pub fn new(listener: &'a TcpListener, clock: &'a R) -> TimedListener<'a, R> {
        TimedListener { listener, clock }
    }
}

impl<'a, R: Clock> Listener for TimedListener<'a, R> {
    type Stream = TimedStream<'a, R>;

    fn accept_next(&mut self) -> Result<TimedStream<'a, R>, AcceptFault> {
        let mut listener = self.listener;
        let stream = listener.accept_next()?;
        Ok(TimedStream::new(stream, self.clock))
    }
}
