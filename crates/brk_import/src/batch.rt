ghost use Rattle.std.specs.Prelude.{ℕ, List, map, option_map};
ghost use Rattle.brk_model.specs.Batch.{step_of_row};
ghost use Rattle.brk_model.specs.Input.{input_text};
ghost use Rattle.brk_model.specs.Parse.{parse_by_first_field, row_parsers};
ghost use Rattle.brk_store_transactions.specs.Audited.{Represents};
ghost use Rattle.brk_import_engine.specs.Batch.{BatchRefinesModel, IsBatchCrashSafe};
ghost use Rattle.brk_desk.specs.Answers.{model_outcome};
ghost use Rattle.brk_desk.specs.Commands.{model_call};
ghost use Rattle.brk_desk.specs.Runs.{IsRunWithOutcomes};
ghost use Rattle.brk_desk.specs.declared.call.Call as made;
ghost use Rattle.brk_desk.specs.declared.call.Outcome as came;
ghost use Rattle.brk_import.specs.CrashTables.{CrashExposesOnlyOneOf};
ghost use Rattle.brk_import.specs.Rows.{BatchMatchesRowCalls};
ghost use Rattle.sqlite.specs.Held.{state};
ghost use Rattle.sqlite.specs.State.{HasCleanDisk};

use crate::at_desk::DeskRows;
use brk_desk::Desk;
use brk_import_engine::{Counts, execute_batch_on_desk};
use brk_io::{BatchFault, Clock};
use sqlite::Alter;
use std::alloc::Global;
use std::io::{Read, Write};

/// Reads a batch of rows, executes them on the desk in order, and writes a line for each. The input
/// is `batch,NAME`, the rows, then `end,N` with their number, in at most 67,108,864 bytes. A row is
/// executed only if a record follows it; without an end record the last row is refused with 18
/// (`BadText`). Row n has the key (NAME, n), under which it is accepted at most once. The lines are
/// `n,ok,FIELDS`, `n,again,FIELDS` or `n,no,FIELDS`, and at last `end,OK,AGAIN,NO`.
///
/// A fault ends the batch, with the number of decided rows, whose changes remain; a crash after a
/// fault of the desk may expose the next row too. To continue, retry the batch under its name.
pub fn run_batch<R: Read + Drop, W: Write, C: Clock, S: Alter>(
    alloc: Global,
    reader: R,
    writer: &mut W,
    clock: &mut C,
    desk: &mut Desk<S>,
) -> Result<Counts, BatchFault>
    // For any result, the desk changed only by these calls, in order, with these outcomes. Every
    // guarantee of a run holds. Each decided row that is well-formed and has a record after it is
    // one of the calls, under its key, and one more call may have failed at the end. The clock is
    // read once for each call, and the lines follow from the outcomes.
    ensures changed_only_by_calls { (calls : List (ℕ × made.Call)) × (outcomes : List came.Outcome) × IsRunWithOutcomes S.Store desk.old desk.new calls outcomes
        × BatchMatchesRowCalls C.gives (option_map input_text (R.remaining reader)) (map model_call calls) (map model_outcome outcomes)
        (record { clock = clock.old; later = clock.new; old = W.contents writer.old; new = W.contents writer.new }) result }
    // Under the disk assumption, for every base that the desk represented before the batch, the
    // answers equal those of the model from this base, and the desk represents the base after them.
    ensures refines_model { BatchRefinesModel (λ desk. HasCleanDisk (state S.Store desk))
        (λ desk. Represents S.Store desk) (parse_by_first_field row_parsers) step_of_row C.gives
        (option_map input_text (R.remaining reader)) desk.old desk.new
        (record { clock = clock.old; later = clock.new; old = W.contents writer.old; new = W.contents writer.new }) result }
    // Crash safety, under the disk assumption: if a crash before the batch exposes only the tables
    // of a base that the desk represented, a crash after the batch exposes only the tables of the
    // base after the batch. If the call of a row failed, a crash may also expose the tables after
    // the command of this row.
    ensures crash_safe { IsBatchCrashSafe (λ desk. HasCleanDisk (state S.Store desk))
        (λ desk. Represents S.Store desk) (CrashExposesOnlyOneOf S.Store) (parse_by_first_field row_parsers) step_of_row
        C.gives (option_map input_text (R.remaining reader)) desk.old desk.new
        (record { clock = clock.old; later = clock.new; old = W.contents writer.old; new = W.contents writer.new }) result }
{
    execute_batch_on_desk::<R, W, C, DeskRows<S>>(alloc, reader, writer, clock, desk)
}
