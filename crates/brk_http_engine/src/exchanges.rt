//! One exchange of a stream: the next request is read and executed, and its reply is written.

ghost use Rattle.std.specs.Prelude.{◌≡◌, ◌==◌, ◌||◌, ◌+◌, ◌<◌, ◌++◌, ℕ, Bool, List, Option, Ok, Err, IfErr, IfOk, IfSome, length, string_bytes};
ghost use Rattle.std.specs.Io.KnownBytes.{prepend_known};
ghost use Rattle.std.specs.List.{list_all};
ghost use Rattle.brk_http_engine.specs.Rows.{is_nonempty, all_router_rows};
ghost use Rattle.brk_model_http.specs.Stream.{most_requests_per_stream};
ghost use Rattle.httparse.specs.Spans.{IsWithin};
ghost use Rattle.brk_http_reader.specs.FirstRequests.{request_at_positions};
ghost use Rattle.brk_http_engine.specs.Limits.{call_limit_of_exchange};
ghost use Rattle.brk_http_engine.specs.Promises.{CallWithClock, ChangesOnlyByCalls};
ghost use Rattle.brk_http_engine.specs.Turns.{ExecutesRequest, ExchangeFailsWith, ExchangeCompletesWith};

use crate::acting::{ServiceResponse, execute_requested_call};
use crate::asking::requested_call;
use crate::replying::{is_fault_response, reply_text};
use crate::router::RouteKind;
use crate::service::Service;
use brk_http_reader::{InputFault, NextRequest, RequestPositions, read_request, remove_front};
use brk_io::stream_fault::FaultKind;
use brk_io::{Clock, write_all_bytes};
use matchit::Router;
use std::alloc::Global;
use std::io::{Read, Write};

/// The greatest number of requests that are answered on one stream.
pub const MAXIMUM_REQUESTS: u64 = 1000;

/// The result of one exchange of a stream, which reads, executes and answers its next request.
#[derive(Clone, Copy, Debug, PartialEq, Eq)]
pub enum ExchangeResult {
    /// The input ended before another request.
    Ended,
    /// The stream continues after the reply.
    Open,
    /// The reply was the last of its stream.
    Closed,
}

fn is_last_reply(done: u64, closes: bool, failed: bool) -> bool
    requires few { done < most_requests_per_stream }
    ensures { result ≡ ((done + 1 == most_requests_per_stream) || closes || failed) }
{
    done + 1 == MAXIMUM_REQUESTS || closes || failed
}

// The text of a reply, and a flag that is true if the reply is the last of its stream.
#[derive(Drop)]
struct FormattedReply {
    text: String,
    closes: bool,
}

// The point at which memory ran out.
#[derive(Clone, Copy, Debug, PartialEq, Eq)]
enum OutOfMemoryPoint {
    // Before the desk was called or the clock was read.
    Before,
    // After the request was executed.
    After,
}

// Executes the request at `places` and formats its reply, but writes nothing. A fault of the desk,
// even `Memory`, is no failure: the reply reports it.
fn execute_request<C: Clock, D: Service>(
    alloc: Global,
    router: &Router<RouteKind>,
    clock: &mut C,
    desk: &mut D::Desk,
    buffer: &[u8],
    places: RequestPositions,
    done: u64,
) -> Result<FormattedReply, OutOfMemoryPoint>
    requires few { done < most_requests_per_stream }
    requires routes { router.now ≡ all_router_rows }
    requires named { list_all is_nonempty D.forms.views ≡ Bool.true }
    requires method { IsWithin (length buffer.now) places.method }
    requires target { IsWithin (length buffer.now) places.target }
    requires body { IsWithin (length buffer.now) places.body }
    ensures called { ChangesOnlyByCalls (CallWithClock D.acts C.gives) 1 (desk.old, clock.old) (desk.new, clock.new) }
    // If the stream continues after the reply, fewer than 1,000 requests are answered so far.
    ensures open { IfOk result (λ draft. draft.closes ≡ Bool.false → done + 1 < most_requests_per_stream) }
    ensures ok { (old : Option (List ℕ)) (new : Option (List ℕ))
        → IfOk result (λ draft. ExecutesRequest D.forms D.acts C.gives done (request_at_positions buffer.now places)
        (record { base = desk.old; after = desk.new; clock = clock.old; later = clock.new; old = old; new = new }) draft.closes (string_bytes draft.text)) }
    // At `Before` neither the desk nor the clock has changed.
    ensures before { result ≡ Err OutOfMemoryPoint.Before → (desk.new ≡ desk.old) × (clock.new ≡ clock.old) }
    // At `After` the request was executed, but its reply is lost.
    ensures after { (old : Option (List ℕ)) (new : Option (List ℕ)) → result ≡ Err OutOfMemoryPoint.After
        → (closes : Bool) × (reply : List ℕ) × ExecutesRequest D.forms D.acts C.gives done (request_at_positions buffer.now places)
        (record { base = desk.old; after = desk.new; clock = clock.old; later = clock.new; old = old; new = new }) closes reply }
{
    let method = places.method.of(buffer);
    let target = places.target.of(buffer);
    let body = places.body.of(buffer);
    let Ok(asking) = requested_call::<D>(alloc, router, method, target, body) else {
        return Err(OutOfMemoryPoint::Before);
    };
    let told = execute_requested_call::<C, D>(alloc, clock, desk, asking);
    let closes = is_last_reply(done, places.closes, is_fault_response(&told));
    match reply_text::<D>(alloc, &told, closes) {
        Ok(text) => Ok(FormattedReply { text, closes }),
        Err(_) => Err(OutOfMemoryPoint::After),
    }
}

/// Reads the next request, after `done` replies, executes it and writes its reply. At `Open` the
/// buffer is without the request. A request that cannot be read is not executed: the reply names
/// its problem and is the last.
///
/// If the content of the reader is specified: at `Read` no request was executed and nothing
/// written; at `Memory` nothing was written, and the request may have been executed; at `Write` a
/// prefix of its reply was written, perhaps empty or all of it.
pub fn serve_request<R: Read, W: Write, C: Clock, D: Service>(
    alloc: Global,
    router: &Router<RouteKind>,
    reader: &mut R,
    buffer: &mut Vec<u8>,
    writer: &mut W,
    clock: &mut C,
    desk: &mut D::Desk,
    done: u64,
) -> Result<ExchangeResult, FaultKind>
    // `done` is less than 1,000; the router has exactly the three routes; no view name is empty.
    requires few { done < most_requests_per_stream }
    requires routes { router.now ≡ all_router_rows }
    requires named { list_all is_nonempty D.forms.views ≡ Bool.true }

    // At most one call of the desk; at `Open` fewer than 1,000 requests are answered so far.
    ensures called { ChangesOnlyByCalls (CallWithClock D.acts C.gives) (call_limit_of_exchange result) (desk.old, clock.old) (desk.new, clock.new) }
    ensures open { result ≡ Ok ExchangeResult.Open → done + 1 < most_requests_per_stream }

    // If the content of the reader is specified: the request, its reply, and what was written.
    ensures ok { IfOk result (λ turn. IfSome (R.remaining reader.old) (λ xs. ExchangeCompletesWith D.forms D.acts C.gives done (buffer.old.items ++ xs)
        (record { base = desk.old; after = desk.new; clock = clock.old; later = clock.new; old = W.contents writer.old; new = W.contents writer.new })
        (prepend_known buffer.new.items (R.remaining reader.new)) turn)) }
    ensures err { IfErr result (λ kind. IfSome (R.remaining reader.old) (λ xs. ExchangeFailsWith D.forms D.acts C.gives done (buffer.old.items ++ xs)
        (record { base = desk.old; after = desk.new; clock = clock.old; later = clock.new; old = W.contents writer.old; new = W.contents writer.new }) kind)) }
{
    let front = match read_request(reader, buffer) {
        Ok(front) => front,
        Err(InputFault::Read) => return Err(FaultKind::Read),
        Err(InputFault::Memory) => return Err(FaultKind::Memory),
    };
    match front {
        NextRequest::Ended => Ok(ExchangeResult::Ended),
        NextRequest::Broken(problem) => {
            let Ok(text) = reply_text::<D>(alloc, &ServiceResponse::Wrong(problem), true) else {
                return Err(FaultKind::Memory);
            };
            match write_all_bytes(writer, text.as_bytes()) {
                Ok(()) => Ok(ExchangeResult::Closed),
                Err(_) => Err(FaultKind::Write),
            }
        }
        NextRequest::Whole(places) => {
            let draft = match execute_request::<C, D>(
                alloc, router, clock, desk, buffer, places, done,
            ) {
                Ok(draft) => draft,
                Err(OutOfMemoryPoint::Before) => return Err(FaultKind::Memory),
                Err(OutOfMemoryPoint::After) => return Err(FaultKind::Memory),
            };
            match write_all_bytes(writer, draft.text.as_bytes()) {
                Ok(()) => {}
                Err(_) => return Err(FaultKind::Write),
            }
            remove_front(buffer, places.body.end);
            if draft.closes {
                Ok(ExchangeResult::Closed)
            } else {
                Ok(ExchangeResult::Open)
            }
        }
    }
}
