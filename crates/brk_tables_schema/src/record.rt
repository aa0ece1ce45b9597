//! Rows of a table as typed records.

ghost use Rattle.std.specs.Prelude.{◌≡◌, Bool, Err, IfOk, List, false, map, option_map, slice_get};
ghost use Rattle.std.specs.List.{list_all};
ghost use Rattle.sqlite_value.specs.declared.value.Value.{Value};
ghost use Rattle.sqlite_value.specs.Order.{Row as Cells};
ghost use Rattle.brk_tables_schema.specs.Formed.{passes_all_cell_checks};
ghost use Rattle.brk_tables_schema.specs.declared.decode_error.DecodeError.TheVariants.{Form as Formless};

use crate::decode_error::DecodeError;
use brk_money::{CallFault, StoreFailed};
use sqlite::Row;
use std::alloc::Global;

/// A typed record that a row of a table encodes.
pub trait Record: Drop {
    /// The values of the row that encodes the record, in the order of the columns.
    ghost cells: { Self → Cells };

    /// The check of each column of a row that encodes a record, in the order of the columns.
    ghost forms: { List (Value → Bool) };

    /// Decodes the record that a row encodes. Fails with `Form` if a column is malformed or the
    /// number of columns is wrong.
    fn from_row(row: &Row) -> Result<Self, DecodeError>
        ensures value { IfOk result (λ r. cells r ≡ row.now) }
        ensures form { result ≡ Err Formless → passes_all_cell_checks forms row.now ≡ false };
}

/// Decodes the first row, or returns `None` if there is no row. Fails also if memory runs out.
pub fn decode_first_row<T: Record>(rows: &[Row]) -> Result<Option<T>, StoreFailed>
    ensures value { IfOk result (λ o. option_map T.cells o ≡ slice_get rows.now 0) }
{
    match rows.first() {
        Some(row) => Ok(Some(T::from_row(row)?)),
        None => Ok(None),
    }
}

/// Decodes all rows, in order. Fails with `Store` at the first malformed one.
pub fn decode_rows<T: Record>(alloc: Global, rows: &[Row]) -> Result<Vec<T>, CallFault>
    ensures value { IfOk result (λ all. map T.cells all.items ≡ rows.now) }
{
    Ok(decode_rows_with_reason(alloc, rows)?)
}

/// Decodes all rows, in order. Fails at the first malformed one, with the reason.
#[tactic(auto, using(crate::proofs::Unformed::not_all))]
pub fn decode_rows_with_reason<T: Record>(
    alloc: Global,
    rows: &[Row],
) -> Result<Vec<T>, DecodeError>
    ensures value { IfOk result (λ all. map T.cells all.items ≡ rows.now) }
    ensures form { result ≡ Err Formless → list_all (passes_all_cell_checks T.forms) rows.now ≡ false }
{
    let mut all = Vec::with_capacity(alloc, rows.len())?;
    for row in rows {
        all.push(T::from_row(row)?)?;
    }
    Ok(all)
}
