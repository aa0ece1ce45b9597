//! The records of the input of a batch: read in order, and tested for the header and the end
//! record.

ghost use Rattle.std.specs.Prelude.{◌≡◌, ◌⊎◌, ◌↔◌, ◌∷◌, ◌++◌, [], ℕ, List, Option, Some, IsTrue, IfOk};
ghost use Rattle.std.specs.Prelude.{IfErr, OnOk, MatchBool, MatchOption, option_map};
ghost use Rattle.std.specs.Io.Take.{take_remaining};
ghost use Rattle.csv.specs.Reading.{reader_state, source_of};
ghost use Rattle.csv.specs.Records.{field_at, fields_of};
ghost use Rattle.brk_model.specs.Answers.{Fields};
ghost use Rattle.brk_money.specs.declared.fault.Fault.TheVariants.{Memory};
ghost use Rattle.brk_model.specs.Input.{HasExactlyRecords, IsEndRecord, IsBatchName, correct_end_record, batch_header, input_text};
ghost use Rattle.brk_ref.specs.Fields.{texts_of_fields};
ghost use Rattle.brk_import_engine.specs.Reading.{IsBatchReader, ReaderIsAfterRecords};

use brk_io::FaultKind;
use brk_money::Fault;
use brk_ref::BatchName;
use csv::{ByteRecord, Reader, ReaderBuilder};
use itoa::Buffer;
use std::alloc::{AllocError, Global};
use std::io::{Read, Take};

/// The greatest number of bytes of an input that are read: 64 MiB. The rest of a longer input is
/// ignored.
pub const MAXIMUM_INPUT_BYTES: u64 = 67_108_864;

/// Returns a reader of the records in the first `MAXIMUM_INPUT_BYTES` bytes of `reader`, without a
/// byte order mark at their start. A record has any number of fields, separated by commas and not
/// trimmed; the first record is not skipped as a header.
pub fn record_reader<R: Read + Drop>(alloc: Global, reader: R) -> Reader<Take<R>>
    ensures setup { IsBatchReader result }
    ensures start { ReaderIsAfterRecords (option_map input_text (R.remaining reader)) [] (reader_state result) (source_of (take_remaining R.remaining) result) }
{
    ReaderBuilder::new()
        .has_headers(false)
        .flexible(true)
        .from_reader(alloc, reader.take(MAXIMUM_INPUT_BYTES))
}

/// Reads the next record into `row`; returns false if no record is left. After a fault no clause
/// states what `row` and the reader contain.
pub fn read_record<R: Read>(
    records: &mut Reader<R>,
    row: &mut ByteRecord,
) -> Result<bool, FaultKind>
    requires { IsBatchReader records.old }
    ensures setup { OnOk result (IsBatchReader records.new) }
    ensures found { IfOk result (λ found. (text : Option (List ℕ)) (before : List Fields)
        → ReaderIsAfterRecords text before (reader_state records.old) (source_of R.remaining records.old)
        → MatchBool found
        (ReaderIsAfterRecords text (before ++ (fields_of row.new ∷ [])) (reader_state records.new) (source_of R.remaining records.new))
        (HasExactlyRecords text before)) }
    ensures kind { IfErr result (λ kind. (kind ≡ FaultKind.Read) ⊎ (kind ≡ FaultKind.Desk Fault.Memory)) }
{
    match records.read_byte_record(row) {
        Ok(found) => Ok(found),
        Err(e) => {
            if e.is_io_error() {
                Err(FaultKind::Read)
            } else {
                Err(FaultKind::Desk(Fault::Memory))
            }
        }
    }
}

/// Returns the bytes of each field, in order.
pub fn record_fields(alloc: Global, row: &ByteRecord) -> Result<Vec<&[u8]>, AllocError>
    ensures { IfOk result (λ all. texts_of_fields all.items ≡ fields_of row.now) }
{
    let mut all = Vec::new(alloc);
    while let Some(field) = row.get(all.len()) {
        all.push(field)?;
    }
    Ok(all)
}

fn field_equals(row: &ByteRecord, i: usize, text: &[u8]) -> bool
    ensures { IsTrue result ↔ (field_at (fields_of row.now) i ≡ Some text.now) }
{
    match row.get(i) {
        Some(field) => field == text,
        None => false,
    }
}

#[tactic(auto, using(crate::proofs::Reading::pair_found, crate::proofs::Reading::pair_fields))]
fn is_pair(row: &ByteRecord, first: &[u8], second: &[u8]) -> bool
    ensures { IsTrue result ↔ (fields_of row.now ≡ first.now ∷ second.now ∷ []) }
{
    if row.len() != 2 {
        return false;
    }
    if !field_equals(row, 0, first) {
        return false;
    }
    field_equals(row, 1, second)
}

/// Returns true if the first field is `end`, whatever the others are.
pub fn begins_with_end(row: &ByteRecord) -> bool
    ensures { IsTrue result ↔ IsEndRecord (fields_of row.now) }
{
    field_equals(row, 0, b"end")
}

/// Returns true if the record has exactly the fields `end` and `n`, in decimal digits.
pub fn is_correct_end(row: &ByteRecord, n: u64) -> bool
    ensures { IsTrue result ↔ (fields_of row.now ≡ correct_end_record n) }
{
    let mut buffer = Buffer::new();
    is_pair(row, b"end", buffer.format(n).as_bytes())
}

/// Returns the name of the batch if the record is exactly `batch` and a well-formed name.
#[tactic(auto, using(crate::proofs::Reading::header_name_is))]
pub fn parse_header_name(alloc: Global, row: &ByteRecord) -> Result<Option<BatchName>, AllocError>
    ensures header { IfOk result (λ found. MatchOption found
        ((name : List ℕ) → IsBatchName name → fields_of row.now ≡ batch_header name → ⊥)
        (λ name. IsBatchName name × (fields_of row.now ≡ batch_header name))) }
{
    let Some(name) = row.get(1) else {
        return Ok(None);
    };
    if !is_pair(row, b"batch", name) {
        return Ok(None);
    }
    BatchName::parse(alloc, name)
}
