//! A peer at a TCP socket: the time limits of the socket, and the draining after the last reply.

use crate::peer::Peer;
use crate::stream_server::StreamServer;
use brk_io::stream_fault::{FaultKind, ServeFault};
use std::alloc::Global;
use std::io;
use std::io::Read;
use std::net::{Shutdown, TcpStream};
use std::time::Duration;

/// The time limit of each read and write on a socket, in seconds. Only tests show that a stream
/// ends at this limit.
pub const STREAM_TIMEOUT_SECONDS: u64 = 30;

// The time limit in milliseconds for each read after the last reply; the bytes that it reads are
// dropped.
const DRAIN_TIMEOUT_MILLISECONDS: u64 = 250;

// The greatest number of reads after the last reply.
const MAXIMUM_DRAIN_READS: u32 = 128;

fn set_time_limits(stream: &TcpStream) -> io::Result<()> {
    stream.set_read_timeout(Some(Duration::from_secs(STREAM_TIMEOUT_SECONDS)))?;
    stream.set_write_timeout(Some(Duration::from_secs(STREAM_TIMEOUT_SECONDS)))
}

// Drops what the peer still sends: a reset that loses the last reply is then less likely.
fn drain_before_close(stream: &TcpStream) -> io::Result<()> {
    stream.shutdown(Shutdown::Write)?;
    stream.set_read_timeout(Some(Duration::from_millis(DRAIN_TIMEOUT_MILLISECONDS)))?;
    let mut reader = stream;
    let mut piece = [0u8; 8192];
    for _ in 0..MAXIMUM_DRAIN_READS {
        if reader.read(&mut piece)? == 0 {
            break;
        }
    }
    Ok(())
}

impl Peer for TcpStream {
    /// Tested only: the time limits of the socket, the fault `Read` before any request if they
    /// cannot be set, and the draining after the last reply, whose failure is ignored.
    fn serve_by<H: StreamServer>(
        &mut self,
        alloc: Global,
        clock: &mut H::Clock,
        desk: &mut H::Desk,
    ) -> Result<u64, ServeFault> {
        let stream: &TcpStream = self;
        if set_time_limits(stream).is_err() {
            return Err(ServeFault {
                done: 0,
                kind: FaultKind::Read,
            });
        }
        let mut writer = stream;
        let ended = H::serve_halves(alloc, stream, &mut writer, clock, desk);
        let _ = drain_before_close(stream);
        ended
    }
}
