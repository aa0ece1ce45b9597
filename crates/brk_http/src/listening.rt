ghost use Rattle.brk_desk.specs.Runs.{IsSomeDeskRun};
ghost use Rattle.brk_http.specs.Served.{DeskServesPeer};
ghost use Rattle.brk_http_engine.specs.Listening.{ServeEachStreamPost};

use crate::server::DeskServer;
use brk_desk::Desk;
use brk_http_engine::{ListenFault, Listener, Peer, serve_each_stream};
use brk_import::Clock;
use sqlite::Alter;
use std::alloc::Global;

/// Accepts and serves `streams` streams of a listener, in sequence. A stream that its peer broke
/// off, or that ended with `Read` or `Write`, counts as one. An idle stream ends so after
/// `STREAM_TIMEOUT_SECONDS` (tested only).
///
/// Fails with `Stream` at the first stream that ended because memory ran out, and with `Net` at the
/// first accept that failed for another reason than that the peer broke off. The promises of
/// `Desk::run` hold for the calls of all streams, also for a crash.
pub fn serve_listener<P: Peer, L: Listener<Stream = P>, C: Clock, S: Alter>(
    alloc: Global,
    listener: &mut L,
    streams: u32,
    clock: &mut C,
    desk: &mut Desk<S>,
) -> Result<(), ListenFault>
    // For any result and any bytes that the peers send, the desk changed only by a sequence of its
    // calls.
    ensures served { IsSomeDeskRun S.Store desk.old desk.new }
    // At `Ok` exactly `streams` streams were handled, and none of them ended because memory ran
    // out. `Stream` has the fault of the last stream, whose kind is `Memory`. `Net` is returned
    // only after a failed accept.
    ensures taken { ServeEachStreamPost L.accepts (DeskServesPeer S.Store C.gives P.sends P.received) streams (record { listener = listener.old; clock = clock.old; desk = desk.old })
        result (record { listener = listener.new; clock = clock.new; desk = desk.new }) }
{
    serve_each_stream::<P, L, DeskServer<C, S>>(alloc, listener, streams, clock, desk)
}
