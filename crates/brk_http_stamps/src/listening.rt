ghost use Rattle.brk_http.specs.Served.{DeskServesPeer};
ghost use Rattle.brk_http_engine.specs.Listening.{ServeEachStreamPost};
ghost use Rattle.brk_http_stamps.specs.Stamped.{IsSomeStampedRun};

use crate::server::StampedServer;
use crate::stamped_desk::StampedDesk;
use brk_http_engine::{ListenFault, Listener, Peer, serve_each_stream};
use brk_io::Clock;
use sqlite::Alter;
use std::alloc::Global;

/// Accepts and serves `streams` streams of a listener, in sequence, as `serve_listener` of brk_http
/// does, and fails as it does. Keeps the stamp of the last accepted command, also if it fails.
pub fn serve_stamped_listener<P: Peer, L: Listener<Stream = P>, C: Clock, S: Alter>(
    alloc: Global,
    listener: &mut L,
    streams: u32,
    clock: &mut C,
    desk: &mut StampedDesk<S>,
) -> Result<(), ListenFault>
    // For any result and any bytes that the peers send, the desk changed only by a sequence of its
    // calls, and the stamp kept is the stamp of the last one that was accepted.
    ensures served { IsSomeStampedRun S.Store desk.old desk.new }
    // What `serve_listener` promises of the listener, the clock and the desk.
    ensures taken { ServeEachStreamPost L.accepts (DeskServesPeer S.Store C.gives P.sends P.received) streams (record { listener = listener.old; clock = clock.old; desk = desk.old.desk })
        result (record { listener = listener.new; clock = clock.new; desk = desk.new.desk }) }
{
    serve_each_stream::<P, L, StampedServer<C, S>>(alloc, listener, streams, clock, desk)
}
