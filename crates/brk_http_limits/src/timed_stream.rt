//! A stream whose peer has a limited time for each request and reply, and for all of them.

use crate::waiting::{Phase, Waiting};
use brk_http_engine::{Peer, ServeFault, StreamServer};
use std::alloc::Global;
use std::io;
use std::io::{Read, Write};
use std::net::{Shutdown, TcpStream};
use std::time::Clock;

/// A stream of a peer at a TCP socket, with limits of the time that is spent waiting for the peer.
#[derive(Drop)]
pub struct TimedStream<'a, R> {
    stream: TcpStream,
    clock: &'a R,
}

impl<'a, R> TimedStream<'a, R> {
    pub(crate) fn new(stream: TcpStream, clock: &'a R) -> TimedStream<'a, R> {
        TimedStream { stream, clock }
    }
}

// The half of the stream that is read.
#[derive(Drop)]
struct TimedReader<'a, R> {
    stream: &'a TcpStream,
    waiting: &'a Waiting<'a, R>,
}

impl<R: Clock> Read for TimedReader<'_, R> {
    fn read(&mut self, buffer: &mut [u8]) -> io::Result<usize> {
        self.waiting.before_read();
        self.stream.set_read_timeout(Some(self.waiting.limit()?))?;
        let start = self.waiting.start()?;
        let mut stream = self.stream;
        let count = stream.read(buffer)?;
        self.waiting.note(start)?;
        self.waiting.after_read();
        Ok(count)
    }
}

// The half of the stream that is written.
#[derive(Drop)]
struct TimedWriter<'a, R> {
    stream: &'a TcpStream,
    waiting: &'a Waiting<'a, R>,
}

impl<R: Clock> Write for TimedWriter<'_, R> {
    fn write(&mut self, bytes: &[u8]) -> io::Result<usize> {
        self.waiting.before_write();
        self.stream.set_write_timeout(Some(self.waiting.limit()?))?;
        let start = self.waiting.start()?;
        let mut stream = self.stream;
        let count = stream.write(bytes)?;
        self.waiting.note(start)?;
        Ok(count)
    }

    fn flush(&mut self) -> io::Result<()> {
        Ok(())
    }
}

// The greatest number of reads after the last reply.
const MAXIMUM_DRAIN_READS: u32 = 4096;

// Drops what the peer still sends: a reset that loses the last reply is then less likely.
fn drain_before_close<R: Clock>(stream: &TcpStream, clock: &R) -> io::Result<()> {
    stream.shutdown(Shutdown::Write)?;
    let waiting = Waiting::new(clock, Phase::Drain);
    let mut reader = TimedReader {
        stream,
        waiting: &waiting,
    };
    let mut piece = [0u8; 8192];
    for _ in 0..MAXIMUM_DRAIN_READS {
        if reader.read(&mut piece)? == 0 {
            break;
        }
    }
    Ok(())
}

impl<R: Clock> Peer for TimedStream<'_, R> {
    /// Tested only: that reading and writing fail at their limits of time, and the draining after the
    /// last reply, whose failure is ignored.
    fn serve_by<H: StreamServer>(
        &mut self,
        alloc: Global,
        clock: &mut H::Clock,
        desk: &mut H::Desk,
    ) -> Result<u64, ServeFault> {
        let waiting = Waiting::new(self.clock, Phase::FirstByte);
        let reader = TimedReader {
            stream: &self.stream,
            waiting: &waiting,
        };
        let mut writer = TimedWriter {
            stream: &self.stream,
            waiting: &waiting,
        };
        let ended = H::serve_halves(alloc, reader, &mut writer, clock, desk);
        let _ = drain_before_close(&self.stream, self.clock);
        ended
    }
}
