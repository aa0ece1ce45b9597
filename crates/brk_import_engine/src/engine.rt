//! The engine of a batch: reads the header, then the records, one ahead of the row that it
//! executes, and writes the line of each row and the end line.

ghost use Rattle.std.specs.Prelude.{◌≡◌, ◌+◌, ◌<◌, ◌∷◌, [], ℕ, List, Option, IfOk, IfErr, OnOk, option_map};
ghost use Rattle.std.specs.Io.KnownBytes.{Appends};
ghost use Rattle.csv.specs.Reading.{reader_state, source_of};
ghost use Rattle.csv.specs.Records.{fields_of};
ghost use Rattle.brk_money.specs.declared.refusal.Refusal.TheVariants.{BadText};
ghost use Rattle.brk_model.specs.Commands.{Refused};
ghost use Rattle.brk_model.specs.Input.{IsBatchName, correct_end_record, batch_header, input_text};
ghost use Rattle.brk_model.specs.Lines.{answer_line};
ghost use Rattle.brk_ref.specs.Answers.{abstract_answer};
ghost use Rattle.brk_import_engine.specs.Batch.{BatchPost, BatchRefinesModel, IsBatchCrashSafe, ChangesOnlyByRowCalls};
ghost use Rattle.brk_import_engine.specs.Counts.{end_line_with_counts};
ghost use Rattle.brk_import_engine.specs.Parts.{LastRowEndsBatchWith, EndRecordFailsWith, HeaderReadFailsWith, LineWriteFailsWith};
ghost use Rattle.brk_import_engine.specs.Reading.{IsBatchReader, ReaderIsAfterRecords};
ghost use Rattle.brk_import_engine.specs.RowSteps.{FirstReadEndsBatchWith, NextReadEndsBatchWith, ReadsOneRecord, RowEndsBatchWith, RowIsDecidedAndWritten};

use crate::answer::execute_row;
use crate::counts::Counts;
use crate::lines::{counts_line, row_answer_line};
use crate::records::{
    MAXIMUM_INPUT_BYTES, begins_with_end, is_correct_end, parse_header_name, read_record,
    record_reader,
};
use crate::rows::Rows;
use brk_io::{BatchFault, Clock, FaultKind, write_all_bytes};
use brk_money::{Fault, Refusal};
use brk_ref::{Answer, BatchName};
use csv::{ByteRecord, Reader};
use std::alloc::Global;
use std::io::{Read, Take, Write};
use std::mem;

fn write_answer<W: Write, D: Rows>(
    alloc: Global,
    writer: &mut W,
    n: u64,
    answer: &Answer<D::Reply>,
) -> Result<(), FaultKind>
    ensures ok { OnOk result (Appends (W.contents writer.old) (W.contents writer.new) (answer_line n (abstract_answer D.told answer.now))) }
    ensures err { IfErr result (λ kind. LineWriteFailsWith (W.contents writer.old) (W.contents writer.new)
        (answer_line n (abstract_answer D.told answer.now)) kind) }
{
    let Ok(text) = row_answer_line::<D>(alloc, n, answer) else {
        return Err(FaultKind::Desk(Fault::Memory));
    };
    match write_all_bytes(writer, text.as_slice()) {
        Ok(()) => Ok(()),
        Err(_) => Err(FaultKind::Write),
    }
}

// Returns the fault that ends the batch: `NoEnd` if the line was written.
fn refuse_last_row<W: Write, D: Rows>(alloc: Global, writer: &mut W, n: u64) -> FaultKind
    ensures { LastRowEndsBatchWith (W.contents writer.old) (W.contents writer.new) (answer_line n (Refused BadText)) result }
{
    match write_answer::<W, D>(alloc, writer, n, &Answer::Refused(Refusal::BadText)) {
        Ok(()) => FaultKind::NoEnd,
        Err(kind) => kind,
    }
}

// Writes the end line if the end record has the number `n` of rows; otherwise fails with `BadEnd`.
fn answer_end_record<W: Write>(
    alloc: Global,
    writer: &mut W,
    row: &ByteRecord,
    n: u64,
    counts: Counts,
) -> Result<(), BatchFault>
    ensures right { OnOk result (fields_of row.now ≡ correct_end_record n) }
    ensures ok { OnOk result (Appends (W.contents writer.old) (W.contents writer.new) (end_line_with_counts counts)) }
    ensures rows { IfErr result (λ fault. fault.rows ≡ n) }
    ensures err { IfErr result (λ fault. EndRecordFailsWith (W.contents writer.old) (W.contents writer.new) (fields_of row.now) n counts fault.kind) }
{
    if !is_correct_end(row, n) {
        return Err(BatchFault {
            rows: n,
            kind: FaultKind::BadEnd,
        });
    }
    let Ok(text) = counts_line(alloc, counts) else {
        return Err(BatchFault {
            rows: n,
            kind: FaultKind::Desk(Fault::Memory),
        });
    };
    match write_all_bytes(writer, text.as_slice()) {
        Ok(()) => Ok(()),
        Err(_) => Err(BatchFault {
            rows: n,
            kind: FaultKind::Write,
        }),
    }
}

fn read_batch_name<R: Read>(alloc: Global, records: &mut Reader<R>) -> Result<BatchName, FaultKind>
    // The reader has the settings for a batch, before the call and, at `Ok`, after it.
    requires { IsBatchReader records.old }
    ensures setup { OnOk result (IsBatchReader records.new) }

    // At `Ok` the name is well-formed and the reader is after the header.
    ensures named { IfOk result (λ name. IsBatchName name) }
    ensures ok { IfOk result (λ name. (text : Option (List ℕ)) → ReaderIsAfterRecords text [] (reader_state records.old) (source_of R.remaining records.old)
        → ReaderIsAfterRecords text (batch_header name ∷ []) (reader_state records.new) (source_of R.remaining records.new)) }

    // At an error: why the header was not read.
    ensures err { IfErr result (λ kind. (text : Option (List ℕ)) → ReaderIsAfterRecords text [] (reader_state records.old) (source_of R.remaining records.old)
        → HeaderReadFailsWith text kind) }
{
    let mut header = ByteRecord::new(alloc);
    if !read_record(records, &mut header)? {
        return Err(FaultKind::BadHeader);
    }
    match parse_header_name(alloc, &header) {
        Ok(Some(name)) => Ok(name),
        Ok(None) => Err(FaultKind::BadHeader),
        Err(_) => Err(FaultKind::Desk(Fault::Memory)),
    }
}

// Fails with `NoEnd` if there is no such record.
fn read_record_after_header<R: Read>(
    records: &mut Reader<R>,
    row: &mut ByteRecord,
) -> Result<(), BatchFault>
    requires { IsBatchReader records.old }
    ensures setup { OnOk result (IsBatchReader records.new) }
    ensures read { OnOk result (ReadsOneRecord R.remaining records.old records.new (fields_of row.new)) }
    ensures err { IfErr result (FirstReadEndsBatchWith R.remaining records.old) }
{
    let has_first = match read_record(records, row) {
        Ok(found) => found,
        Err(kind) => return Err(BatchFault { rows: 0, kind }),
    };
    if !has_first {
        return Err(BatchFault {
            rows: 0,
            kind: FaultKind::NoEnd,
        });
    }
    Ok(())
}

// Reads the record after row `settled + 1`. If there is none, this row is the last, without an end
// record after it: it is refused with `BadText` and counts as decided.
fn look_ahead<R: Read, W: Write, D: Rows>(
    alloc: Global,
    records: &mut Reader<R>,
    writer: &mut W,
    settled: u64,
    after: &mut ByteRecord,
) -> Result<(), BatchFault>
    requires setup { IsBatchReader records.old }
    requires settled { settled < 67108864 }
    ensures setup { OnOk result (IsBatchReader records.new) }
    ensures read { OnOk result (ReadsOneRecord R.remaining records.old records.new (fields_of after.new)) }
    ensures unwritten { OnOk result (W.contents writer.new ≡ W.contents writer.old) }
    ensures err { IfErr result (NextReadEndsBatchWith R.remaining records.old settled (W.contents writer.old) (W.contents writer.new)) }
{
    let has_next = match read_record(records, after) {
        Ok(found) => found,
        Err(kind) => {
            return Err(BatchFault {
                rows: settled,
                kind,
            });
        }
    };
    let n = settled + 1;
    if !has_next {
        let kind = refuse_last_row::<W, D>(alloc, writer, n);
        return Err(BatchFault { rows: n, kind });
    }
    Ok(())
}

// Executes row `settled + 1`, and writes the line of its answer.
fn answer_row<W: Write, C: Clock, D: Rows>(
    alloc: Global,
    name: &BatchName,
    writer: &mut W,
    clock: &mut C,
    desk: &mut D::Desk,
    settled: u64,
    counts: Counts,
    row: &ByteRecord,
) -> Result<Counts, BatchFault>
    requires settled { settled < 67108864 }
    requires counted { counts.ok + counts.again + counts.no ≡ settled }
    ensures disk_was_clean { D.meets_disk_assumption desk.new → D.meets_disk_assumption desk.old }
    ensures ok { IfOk result (RowIsDecidedAndWritten D.meets_disk_assumption D.represents D.crash_exposes_only D.acts D.step C.gives
        (D.form (fields_of row.now)) name.now settled desk.old desk.new
        (record { clock = clock.old; later = clock.new; old = W.contents writer.old; new = W.contents writer.new }) counts) }
    ensures err { IfErr result (RowEndsBatchWith D.meets_disk_assumption D.represents D.crash_exposes_only D.acts D.step C.gives
        (D.form (fields_of row.now)) name.now settled desk.old desk.new
        (record { clock = clock.old; later = clock.new; old = W.contents writer.old; new = W.contents writer.new })) }
{
    let n = settled + 1;
    let told = match execute_row::<C, D>(alloc, desk, clock, name, n, row) {
        Ok(told) => told,
        Err(fault) => {
            return Err(BatchFault {
                rows: settled,
                kind: FaultKind::Desk(fault),
            });
        }
    };
    if let Err(kind) = write_answer::<W, D>(alloc, writer, n, &told) {
        return Err(BatchFault { rows: n, kind });
    }
    Ok(counts.with_answer(&told))
}

// Reads one record ahead, because a row is executed only if a record follows it. Each record has at
// least one byte, which limits the turns of the loop to the number of bytes.
fn answer_rows<R: Read, W: Write, C: Clock, D: Rows>(
    alloc: Global,
    records: &mut Reader<R>,
    name: &BatchName,
    writer: &mut W,
    clock: &mut C,
    desk: &mut D::Desk,
) -> Result<Counts, BatchFault>
    requires setup { IsBatchReader records.old }
    requires named { IsBatchName name.now }
    ensures { (text : Option (List ℕ)) → ReaderIsAfterRecords text (batch_header name.now ∷ []) (reader_state records.old) (source_of R.remaining records.old)
        → BatchPost D.meets_disk_assumption D.represents D.crash_exposes_only D.acts D.form D.step C.gives text desk.old desk.new
        (record { clock = clock.old; later = clock.new; old = W.contents writer.old; new = W.contents writer.new }) result }
{
    let mut counts = Counts::NONE;
    let mut row = ByteRecord::new(alloc);
    let mut after = ByteRecord::new(alloc);
    read_record_after_header(records, &mut row)?;
    for settled in 0..MAXIMUM_INPUT_BYTES {
        if begins_with_end(&row) {
            answer_end_record(alloc, writer, &row, settled, counts)?;
            return Ok(counts);
        }
        look_ahead::<R, W, D>(alloc, records, writer, settled, &mut after)?;
        counts = answer_row::<W, C, D>(alloc, name, writer, clock, desk, settled, counts, &row)?;
        mem::swap(&mut row, &mut after);
    }
    Err(BatchFault {
        rows: MAXIMUM_INPUT_BYTES,
        kind: FaultKind::Desk(Fault::Memory),
    })
}

/// Reads a batch, executes its rows in order, and writes their lines and the end line. Only the
/// first `MAXIMUM_INPUT_BYTES` bytes are read, a byte order mark at their start is skipped, and
/// records after the first end record are ignored. A row is executed only if a record follows it.
///
/// At an error the changes of the decided rows remain, and their lines are written; but after
/// `Write` the line of the last one, or the end line, is written in part, perhaps not at all or
/// whole, and after `Desk(Memory)` the line of the last one may be missing. After a fault of the
/// desk, a crash may also expose the next row as committed.
pub fn execute_batch_on_desk<R: Read + Drop, W: Write, C: Clock, D: Rows>(
    alloc: Global,
    reader: R,
    writer: &mut W,
    clock: &mut C,
    desk: &mut D::Desk,
) -> Result<Counts, BatchFault>
    ensures changed_only_by_calls { ChangesOnlyByRowCalls D.acts D.form C.gives (option_map input_text (R.remaining reader)) desk.old desk.new
        (record { clock = clock.old; later = clock.new; old = W.contents writer.old; new = W.contents writer.new }) result }
    ensures refines_model { BatchRefinesModel D.meets_disk_assumption D.represents D.form D.step C.gives
        (option_map input_text (R.remaining reader)) desk.old desk.new
        (record { clock = clock.old; later = clock.new; old = W.contents writer.old; new = W.contents writer.new }) result }
    ensures crash_safe { IsBatchCrashSafe D.meets_disk_assumption D.represents D.crash_exposes_only D.form D.step C.gives
        (option_map input_text (R.remaining reader)) desk.old desk.new
        (record { clock = clock.old; later = clock.new; old = W.contents writer.old; new = W.contents writer.new }) result }
{
    let mut records = record_reader(alloc, reader);
    match read_batch_name(alloc, &mut records) {
        Ok(name) => answer_rows::<Take<R>, W, C, D>(
            alloc,
            &mut records,
            &name,
            writer,
            clock,
            desk,
        ),
        Err(kind) => Err(BatchFault { rows: 0, kind }),
    }
}
