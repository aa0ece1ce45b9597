//! The streams of a listener, accepted and served in sequence.

ghost use Rattle.brk_http_engine.specs.Listening.{ServeEachStreamPost};
ghost use Rattle.brk_http_engine.specs.Peers.{ServesPeer};

use crate::listen_faults::{AcceptFault, ListenFault};
use crate::listener::Listener;
use crate::peer::Peer;
use crate::stream_server::StreamServer;
use brk_io::stream_fault::FaultKind;
use std::alloc::Global;

// A stream that its peer broke off before it was accepted is no failure, and neither is a fault of
// a stream's reader or writer.
fn serve_next_stream<P: Peer, L: Listener<Stream = P>, H: StreamServer>(
    alloc: Global,
    listener: &mut L,
    clock: &mut H::Clock,
    desk: &mut H::Desk,
) -> Result<(), ListenFault>
    ensures { ServeEachStreamPost L.accepts (ServesPeer H.serves P.sends P.received) 1 (record { listener = listener.old; clock = clock.old; desk = desk.old })
        result (record { listener = listener.new; clock = clock.new; desk = desk.new }) }
{
    let mut peer = match listener.accept_next() {
        Ok(peer) => peer,
        Err(AcceptFault::Aborted) => return Ok(()),
        Err(AcceptFault::Failed) => return Err(ListenFault::Net),
    };
    let Err(fault) = peer.serve_by::<H>(alloc, clock, desk) else {
        return Ok(());
    };
    match fault.kind {
        FaultKind::Memory => Err(ListenFault::Stream(fault)),
        FaultKind::Read => Ok(()),
        FaultKind::Write => Ok(()),
    }
}

/// Accepts and serves `streams` streams of a listener, in sequence: each is served to its end
/// before the next one is accepted. A stream that its peer broke off before it was accepted counts
/// as one, and so does one that a fault of its reader or writer ended early.
///
/// Fails with `Stream` at the first stream that ended because memory ran out, and with `Net` at the
/// first accept that failed with `Failed`. The changes of the streams before remain.
pub fn serve_each_stream<P: Peer, L: Listener<Stream = P>, H: StreamServer>(
    alloc: Global,
    listener: &mut L,
    streams: u32,
    clock: &mut H::Clock,
    desk: &mut H::Desk,
) -> Result<(), ListenFault>
    ensures { ServeEachStreamPost L.accepts (ServesPeer H.serves P.sends P.received) streams (record { listener = listener.old; clock = clock.old; desk = desk.old })
        result (record { listener = listener.new; clock = clock.new; desk = desk.new }) }
{
    let mut taken = 0u32;
    'streams: while taken < streams {
        serve_next_stream::<P, L, H>(alloc, listener, clock, desk)?;
        taken += 1;
    }
    Ok(())
}
