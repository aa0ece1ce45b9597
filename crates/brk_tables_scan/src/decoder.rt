//! The decoding of the rows of one table after the other, which continues after a malformed row.

ghost use Rattle.std.specs.Prelude.{◌≡◌, Err, IfOk, false, map, true};
ghost use Rattle.std.specs.List.{list_all};
ghost use Rattle.brk_trade_rows.specs.Schemas.{abstract_schema};
ghost use Rattle.brk_tables_schema.specs.Cells.{desk_row_cells, rule_cells};
ghost use Rattle.brk_tables_schema.specs.Desk.{desk_rows, rule_rows};
ghost use Rattle.brk_tables_schema.specs.declared.decode_error.DecodeError.TheVariants.{Form as Formless};
ghost use Rattle.brk_tables_schema.specs.Formed.{has_at_most_one_valid_rule_row, has_one_valid_desk_row, kept_column_cell_checks, passes_all_cell_checks};
ghost use Rattle.brk_tables_scan.specs.Decoded.{ContinuesDecoding};
ghost use Rattle.brk_tables_scan.specs.KeptKeys.{AreKeysOfRawRows, IsKeyOfRawRow};

use brk_money::{Day, Stamp};
use brk_ref::{Kept, Key};
use brk_tables_schema::DecodeError;
use brk_tables_schema::desk_row::last_stamp_in_desk_rows;
use brk_tables_schema::record::Record;
use brk_tables_schema::rule_row::one_day_start_in_rule_rows;
use brk_trade_rows::Schema;
use sqlite::Row;
use std::alloc::{AllocError, Global};

// Drops each raw row once it is decoded, so that the rows are not in memory twice.
fn decode_table_rows<R: Record>(alloc: Global, rows: Vec<Row>) -> Result<Vec<R>, DecodeError>
    ensures value { IfOk result (λ all. map R.cells all.items ≡ rows.items) }
    ensures form { result ≡ Err Formless → list_all (passes_all_cell_checks R.forms) rows.items ≡ false }
{
    let mut all = Vec::with_capacity(alloc, rows.len())?;
    for row in rows {
        all.push(R::from_row(&row)?)?;
    }
    Ok(all)
}

// Decodes the whole row, so that a malformed text is an error too.
fn decode_kept_key(row: &Row) -> Result<Key, DecodeError>
    ensures value { IfOk result (λ key. IsKeyOfRawRow key row.now) }
    ensures form { result ≡ Err Formless → passes_all_cell_checks kept_column_cell_checks row.now ≡ false }
{
    let whole = Kept::from_row(row)?;
    Ok(whole.key)
}

fn decode_keys_of_kept_rows(alloc: Global, rows: Vec<Row>) -> Result<Vec<Key>, DecodeError>
    ensures value { IfOk result (λ all. AreKeysOfRawRows all.items rows.items) }
    ensures form { result ≡ Err Formless → list_all (passes_all_cell_checks kept_column_cell_checks) rows.items ≡ false }
{
    let mut all = Vec::with_capacity(alloc, rows.len())?;
    for row in rows {
        all.push(decode_kept_key(&row)?)?;
    }
    Ok(all)
}

/// A decoder of the rows of one table after the other. If a row of a table is malformed, a method
/// returns no records, or `None`, and sets `are_well_formed` to false; the next table is decoded
/// all the same.
#[derive(Clone, Copy)]
pub(crate) struct Decoder {
    /// True if all rows so far are well-formed.
    pub(crate) are_well_formed: bool,
}

impl Decoder {
    pub(crate) fn new() -> Decoder
        ensures { result.are_well_formed ≡ true }
    {
        Decoder {
            are_well_formed: true,
        }
    }

    pub(crate) fn decode<R: Record>(
        &mut self,
        alloc: Global,
        rows: Vec<Row>,
    ) -> Result<Vec<R>, AllocError>
        ensures decoding { IfOk result (λ all. ContinuesDecoding self.old.are_well_formed self.new.are_well_formed
            (list_all (passes_all_cell_checks R.forms) rows.items)
            (map R.cells all.items ≡ rows.items)) }
    {
        match decode_table_rows(alloc, rows) {
            Ok(all) => Ok(all),
            Err(DecodeError::Form) => {
                self.are_well_formed = false;
                Ok(Vec::new(alloc))
            }
            Err(DecodeError::Memory) => Err(AllocError),
        }
    }

    /// Leaves out the texts: an audit checks only that they are UTF-8, which the decoding does.
    pub(crate) fn decode_kept_keys(
        &mut self,
        alloc: Global,
        rows: Vec<Row>,
    ) -> Result<Vec<Key>, AllocError>
        ensures decoding { IfOk result (λ all. ContinuesDecoding self.old.are_well_formed self.new.are_well_formed
            (list_all (passes_all_cell_checks kept_column_cell_checks) rows.items) (AreKeysOfRawRows all.items rows.items)) }
    {
        match decode_keys_of_kept_rows(alloc, rows) {
            Ok(all) => Ok(all),
            Err(DecodeError::Form) => {
                self.are_well_formed = false;
                Ok(Vec::new(alloc))
            }
            Err(DecodeError::Memory) => Err(AllocError),
        }
    }

    pub(crate) fn decode_last_stamp(
        &mut self,
        schema: Schema,
        rows: Vec<Row>,
    ) -> Result<Option<Stamp>, AllocError>
        ensures decoding { IfOk result (λ last. ContinuesDecoding self.old.are_well_formed self.new.are_well_formed
            (has_one_valid_desk_row (abstract_schema schema) rows.items)
            (map desk_row_cells (desk_rows (abstract_schema schema) last) ≡ rows.items)) }
    {
        match last_stamp_in_desk_rows(schema, &rows) {
            Ok(last) => Ok(last),
            Err(DecodeError::Form) => {
                self.are_well_formed = false;
                Ok(None)
            }
            Err(DecodeError::Memory) => Err(AllocError),
        }
    }

    pub(crate) fn decode_rule(&mut self, rows: Vec<Row>) -> Result<Option<Day>, AllocError>
        ensures decoding { IfOk result (λ day. ContinuesDecoding self.old.are_well_formed self.new.are_well_formed
            (has_at_most_one_valid_rule_row rows.items)
            (map rule_cells (rule_rows day) ≡ rows.items)) }
    {
        match one_day_start_in_rule_rows(&rows) {
            Ok(day) => Ok(day),
            Err(DecodeError::Form) => {
                self.are_well_formed = false;
                Ok(None)
            }
            Err(DecodeError::Memory) => Err(AllocError),
        }
    }
}
