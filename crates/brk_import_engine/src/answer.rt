//! The execution of one row of a batch on the desk, under its key, and its answer.

ghost use Rattle.std.specs.Prelude.{◌≡◌, ◌≤◌, Err, IfErr, IfOk, OnErr};
ghost use Rattle.csv.specs.Records.{fields_of};
ghost use Rattle.brk_money.specs.declared.fault.Fault.TheVariants.{Memory};
ghost use Rattle.brk_model.specs.Input.{most_input_bytes};
ghost use Rattle.brk_model.specs.Run.{IsCallFault};
ghost use Rattle.brk_ref.specs.Answers.{abstract_answer};
ghost use Rattle.brk_ref.specs.Fields.{ParsesAs};
ghost use Rattle.brk_ref.specs.Records.{abstract_key};
ghost use Rattle.brk_import_engine.specs.Answers.{RowHasAnswer, RowFailsWith, PreservesRepresentedBases, RepresentsDurably};

use crate::records::record_fields;
use crate::rows::Rows;
use brk_io::Clock;
use brk_money::{Fault, Planned};
use brk_ref::{Answer, BatchName, Key, RowNumber};
use csv::ByteRecord;
use std::alloc::{AllocError, Global};

fn row_key(batch: &BatchName, n: u64) -> Result<Key, AllocError>
    requires first { 1 ≤ n }
    requires last { n ≤ most_input_bytes }
    ensures key { IfOk result (λ key. abstract_key key ≡ record { batch = batch.now; n = n }) }
{
    let batch = batch.clone()?;
    let row = RowNumber::new(n).unwrap();
    Ok(Key { batch, n: row })
}

fn parsed_row<D: Rows>(alloc: Global, row: &ByteRecord) -> Planned<D::Command>
    ensures read { IfOk result (λ read. ParsesAs D.asked read (D.form (fields_of row.now))) }
    ensures fault { OnErr result (result ≡ Err Memory) }
{
    let Ok(fields) = record_fields(alloc, row) else {
        return Err(Fault::Memory);
    };
    D::parse(alloc, fields.as_slice())
}

/// Executes row `n`, 1 to 67,108,864, of `batch` on the desk and returns its answer. A well-formed
/// row reads the clock once and is one call of the desk, under its key; a malformed one does
/// neither and is refused. After a failed call a crash may expose the row as committed.
pub fn execute_row<C: Clock, D: Rows>(
    alloc: Global,
    desk: &mut D::Desk,
    clock: &mut C,
    batch: &BatchName,
    n: u64,
    row: &ByteRecord,
) -> Result<Answer<D::Reply>, Fault>
    // The number of a row: no batch has more rows than the greatest input has bytes.
    requires first { 1 ≤ n }
    requires last { n ≤ most_input_bytes }

    // If the disk assumption holds after the call, it held before.
    ensures disk_was_clean { D.meets_disk_assumption desk.new → D.meets_disk_assumption desk.old }

    // At `Ok`: the answer of the row, and what the row changed.
    ensures ok { IfOk result (λ answer. RowHasAnswer D.meets_disk_assumption (RepresentsDurably D.represents D.crash_exposes_only) D.acts D.step C.gives
        (D.form (fields_of row.now)) batch.now n
        (abstract_answer D.told answer) desk.old desk.new clock.old clock.new) }

    // At an error: the represented bases, the crash safety of the failed call, and the faults.
    ensures represented_at_error { OnErr result (PreservesRepresentedBases D.meets_disk_assumption D.represents desk.old desk.new) }
    ensures failed { IfErr result (λ fault. RowFailsWith D.meets_disk_assumption D.represents D.crash_exposes_only D.acts D.step C.gives
        (D.form (fields_of row.now)) batch.now n fault desk.old desk.new clock.old clock.new) }
    ensures fault { IfErr result IsCallFault }
{
    match parsed_row::<D>(alloc, row)? {
        Ok(command) => {
            let key = row_key(batch, n)?;
            let now = clock.now();
            D::call(desk, alloc, now, &command, &key)
        }
        Err(refusal) => Ok(Answer::Refused(refusal)),
    }
}
