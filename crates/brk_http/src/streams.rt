ghost use Rattle.std.specs.Prelude.{◌<◌, ◌≤◌, ℕ, IfErr, IfOk, IfSome, List, length, map};
ghost use Rattle.brk_store_transactions.specs.Audited.{Represents};
ghost use Rattle.brk_desk.specs.Answers.{model_outcome};
ghost use Rattle.brk_desk.specs.Commands.{model_call};
ghost use Rattle.brk_desk.specs.Runs.{IsRunWithOutcomes};
ghost use Rattle.brk_desk.specs.declared.call.Call as made;
ghost use Rattle.brk_desk.specs.declared.call.Outcome as came;
ghost use Rattle.brk_model_http.specs.Asked.{model_parsers};
ghost use Rattle.brk_model.specs.Run.{IsOutcomeOfCall};
ghost use Rattle.brk_model_http.specs.Stream.{most_requests_per_stream};
ghost use Rattle.brk_http_engine.specs.Limits.{call_limit_of_stream};
ghost use Rattle.brk_http_engine.specs.Promises.{ReadsClockForCalls, StreamRefinesModel, StreamMatchesScript};
ghost use Rattle.sqlite.specs.Held.{state};
ghost use Rattle.sqlite.specs.State.{HasCleanDisk};

use crate::at_desk::DeskService;
use brk_desk::Desk;
use brk_http_engine::{ServeFault, serve_requests};
use brk_import::Clock;
use sqlite::Alter;
use std::alloc::Global;
use std::io::{Read, Write};

/// Serves the requests of a stream, at most 1,000, and returns the number of replies. `POST /rows`
/// and `POST /rows/BATCH/N` with a JSON list of texts execute a row, without a key or with the key
/// (BATCH, N); `POST /ask/VIEW` executes a query. A fault of the desk is answered with status 503,
/// as the last reply.
///
/// Fails with `Read`, `Write` or `Memory` and the number of replies before the fault. After `Read`
/// the next request was not executed; after `Write` or `Memory` it may have been: retry it under
/// its key. The promises of `Desk::run` hold for the calls, also for a crash. Requests and replies
/// are specified only for a reader with specified content, which a socket is not.
pub fn serve_stream<R: Read + Drop, W: Write, C: Clock, S: Alter>(
    alloc: Global,
    reader: R,
    writer: &mut W,
    clock: &mut C,
    desk: &mut Desk<S>,
) -> Result<u64, ServeFault>
    // For any stream, at most 1,000 requests are answered, and fewer before a fault.
    ensures few { IfOk result (λ count. count ≤ most_requests_per_stream) }
    ensures early { IfErr result (λ fault. fault.done < most_requests_per_stream) }
    // For any stream, the desk changed only by a sequence of its calls. Every guarantee of a run
    // holds. There is at most one call for each answered request, and one more after a fault of the
    // writer or of memory. If the reader has specified content, its requests make exactly these
    // calls, and the replies follow from their outcomes.
    ensures changed_only_by_calls { (calls : List (ℕ × made.Call)) × (outcomes : List came.Outcome) × IsRunWithOutcomes S.Store desk.old desk.new calls outcomes
        × (length calls ≤ call_limit_of_stream result)
        × IfSome (R.remaining reader) (λ input. StreamMatchesScript model_parsers C.gives input (map model_call calls, map model_outcome outcomes)
        (record { clock = clock.old; later = clock.new; old = W.contents writer.old; new = W.contents writer.new }) result) }
    // For any stream, each command is called at a reading of the clock, in order, and the clock is
    // not read otherwise.
    ensures reads_clock { (calls : List (ℕ × made.Call)) × (outcomes : List came.Outcome) × IsRunWithOutcomes S.Store desk.old desk.new calls outcomes
        × (length calls ≤ call_limit_of_stream result) × ReadsClockForCalls C.gives clock.old (map model_call calls) clock.new }
    // Under the disk assumption, for every base that the desk represented before the stream, the
    // outcomes equal those of the model from this base, and the desk represents the base after
    // them. Vacuous for a reader whose content is not specified.
    ensures refines_model { IfSome (R.remaining reader) (λ input. StreamRefinesModel
        (λ desk. HasCleanDisk (state S.Store desk)) (λ desk. Represents S.Store desk)
        model_parsers IsOutcomeOfCall C.gives input desk.old desk.new
        (record { clock = clock.old; later = clock.new; old = W.contents writer.old; new = W.contents writer.new }) result) }
{
    serve_requests::<R, W, C, DeskService<S>>(alloc, reader, writer, clock, desk)
}
