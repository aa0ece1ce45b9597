ghost use Rattle.brk_http_engine.specs.Peers.{StreamRelation};

use brk_io::ServeFault;
use std::alloc::Global;
use std::io::{Read, Write};

/// A server of streams, each given as its two halves: what the peer sends is read, and what it
/// receives is written.
pub trait StreamServer {
    /// The source of timestamps.
    type Clock;

    /// The desk that executes the calls.
    type Desk;

    /// Holds if serving a stream with these bytes may turn the first clock and desk into the second,
    /// with this result.
    ghost serves: { StreamRelation Self.Clock Self.Desk };

    /// Serves a stream to its end, and returns the number of requests that were answered.
    fn serve_halves<R: Read + Drop, W: Write>(
        alloc: Global,
        reader: R,
        writer: &mut W,
        clock: &mut Self::Clock,
        desk: &mut Self::Desk,
    ) -> Result<u64, ServeFault>
        ensures { serves (record { sent = R.remaining reader; before = W.contents writer.old; after = W.contents writer.new })
            clock.old desk.old result clock.new desk.new };
}
