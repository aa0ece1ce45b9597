//! The requests of a stream, served in order up to its last reply.

ghost use Rattle.std.specs.Prelude.{◌≡◌, ◌<◌, ◌≤◌, Bool, IfErr, IfOk, IfSome};
ghost use Rattle.std.specs.List.{list_all};
ghost use Rattle.brk_model_http.specs.Stream.{most_requests_per_stream};
ghost use Rattle.brk_http_engine.specs.Rows.{is_nonempty, all_router_rows};
ghost use Rattle.brk_http_engine.specs.Limits.{call_limit_of_stream};
ghost use Rattle.brk_http_engine.specs.Promises.{CallWithClock, ChangesOnlyByCalls};
ghost use Rattle.brk_http_engine.specs.Turns.{IsStreamResult};

use crate::exchanges::{ExchangeResult, serve_request};
use crate::router::{RouteKind, new_router};
use crate::service::Service;
use brk_io::Clock;
use brk_io::stream_fault::{FaultKind, ServeFault};
use matchit::Router;
use std::alloc::Global;
use std::io::{Read, Write};

// Has the contract of `serve_requests`, for a router that was created before.
fn serve_routed<R: Read + Drop, W: Write, C: Clock, D: Service>(
    alloc: Global,
    router: &Router<RouteKind>,
    mut reader: R,
    writer: &mut W,
    clock: &mut C,
    desk: &mut D::Desk,
) -> Result<u64, ServeFault>
    requires routes { router.now ≡ all_router_rows }
    requires named { list_all is_nonempty D.forms.views ≡ Bool.true }
    ensures few { IfOk result (λ count. count ≤ most_requests_per_stream) }
    ensures early { IfErr result (λ fault. fault.done < most_requests_per_stream) }
    ensures called { ChangesOnlyByCalls (CallWithClock D.acts C.gives) (call_limit_of_stream result) (desk.old, clock.old) (desk.new, clock.new) }
    ensures gives { IfSome (R.remaining reader) (λ input. IsStreamResult D.forms D.acts C.gives input
        (record { base = desk.old; after = desk.new; clock = clock.old; later = clock.new; old = W.contents writer.old; new = W.contents writer.new }) result) }
{
    let mut buffer = Vec::new(alloc);
    let mut done = 0;
    'serving: loop {
        match serve_request::<R, W, C, D>(
            alloc,
            router,
            &mut reader,
            &mut buffer,
            writer,
            clock,
            desk,
            done,
        ) {
            Ok(ExchangeResult::Ended) => return Ok(done),
            Ok(ExchangeResult::Closed) => return Ok(done + 1),
            Ok(ExchangeResult::Open) => done += 1,
            Err(kind) => return Err(ServeFault { done, kind }),
        }
    }
}

/// Serves the requests of a stream, in order, until the input ends or a reply is the last, at the
/// latest after 1,000 requests, and returns the number of replies. Each request makes at most one
/// call of the desk.
///
/// Fails with `Read`, `Write` or `Memory` and the number of replies before the fault; with `Memory`
/// and 0 also if the router cannot be created. If the content of the reader is specified: after
/// `Read` the next request was not executed; after `Write` or `Memory` it may have been, and after
/// `Write` a prefix of its reply is written, perhaps all of it.
pub fn serve_requests<R: Read + Drop, W: Write, C: Clock, D: Service>(
    alloc: Global,
    reader: R,
    writer: &mut W,
    clock: &mut C,
    desk: &mut D::Desk,
) -> Result<u64, ServeFault>
    requires named { list_all is_nonempty D.forms.views ≡ Bool.true }
    // At most 1,000 requests are answered, and fewer before a fault.
    ensures few { IfOk result (λ count. count ≤ most_requests_per_stream) }
    ensures early { IfErr result (λ fault. fault.done < most_requests_per_stream) }
    // The desk changed only by its calls: at most one for each reply, and one more after a fault of
    // memory or of the writer. The clock was read once for each command, and not otherwise.
    ensures called { ChangesOnlyByCalls (CallWithClock D.acts C.gives) (call_limit_of_stream result) (desk.old, clock.old) (desk.new, clock.new) }
    // For a reader whose content is specified, the calls, the replies and the result follow from
    // its requests (`IsStreamResult`).
    ensures gives { IfSome (R.remaining reader) (λ input. IsStreamResult D.forms D.acts C.gives input
        (record { base = desk.old; after = desk.new; clock = clock.old; later = clock.new; old = W.contents writer.old; new = W.contents writer.new }) result) }
{
    match new_router(alloc) {
        Ok(router) => serve_routed::<R, W, C, D>(alloc, &router, reader, writer, clock, desk),
        Err(_) => Err(ServeFault {
            done: 0,
            kind: FaultKind::Memory,
        }),
    }
}
