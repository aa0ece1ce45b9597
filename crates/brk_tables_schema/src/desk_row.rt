//! The row of DESK: the stamp of the last accepted command, set, read and decoded.

ghost use Rattle.std.specs.Prelude.{◌≡◌, ◌∷◌, [], IfOk, map, Err, false};
ghost use Rattle.brk_tables_sql.specs.Model.{IsConnectionStep};
ghost use Rattle.brk_model.specs.Schemas.{third_schema};
ghost use Rattle.brk_trade_rows.specs.Changes.{tables_with_last_stamp};
ghost use Rattle.brk_trade_rows.specs.Schemas.{abstract_schema};
ghost use Rattle.brk_tables_schema.specs.Cells.{desk_row_cells};
ghost use Rattle.brk_tables_schema.specs.Desk.{desk_rows};
ghost use Rattle.brk_tables_schema.specs.Formed.{passes_all_cell_checks, desk_column_cell_checks, has_one_valid_desk_row};
ghost use Rattle.brk_tables_schema.specs.declared.decode_error.DecodeError.TheVariants.{Form as Formless};
ghost use Rattle.brk_tables_schema.specs.Statements.{ReadsDeskTables, WritesDeskTables};

use crate::calls::{execute_statement, select_rows};
use crate::cells::{check_column_count, natural_cell, optional_stamp_cell};
use crate::decode_error::DecodeError;
use crate::values::{integer_param, stamp_param};
use brk_money::{Stamp, StoreFailed};
use brk_trade_rows::Schema;
use sqlite::{Alter, Row, Transaction};

/// Sets the stamp of the last accepted command (D_LAST), in milliseconds since 1970-01-01 UTC.
/// Changes nothing if DESK has no row with the id 1.
pub fn set_last_stamp<S: Alter>(
    tx: &mut Transaction<'_, S>,
    stamp: Stamp,
) -> Result<(), StoreFailed>
    ensures same_reference { tx.new.conn.ghost_name ≡ tx.old.conn.ghost_name }
    ensures step { WritesDeskTables S.Store tx.old tx.new result (tables_with_last_stamp stamp) }
{
    execute_statement(
        tx,
        "UPDATE DESK SET D_LAST = ?1 WHERE D_ID = ?2",
        &[stamp_param(stamp), integer_param(1)],
    )
}

fn last_stamp_in_desk_row(schema: Schema, row: &Row) -> Result<Option<Stamp>, DecodeError>
    ensures value { IfOk result (λ last. map desk_row_cells (desk_rows (abstract_schema schema) last) ≡ row.now ∷ []) }
    ensures form { result ≡ Err Formless → passes_all_cell_checks (desk_column_cell_checks (abstract_schema schema)) row.now ≡ false }
{
    check_column_count(row, 3)?;
    if natural_cell(row, 0)? != 1 || natural_cell(row, 1)? != u64::from(schema.number()) {
        return Err(DecodeError::Form);
    }
    optional_stamp_cell(row, 2)
}

/// Decodes the stamp of the last accepted command from all rows of DESK, or returns `None` if none
/// is stored. Fails with `Form` unless there is exactly one row, with the id 1 and the number of
/// `schema`.
pub fn last_stamp_in_desk_rows(schema: Schema, rows: &[Row]) -> Result<Option<Stamp>, DecodeError>
    ensures value { IfOk result (λ last. map desk_row_cells (desk_rows (abstract_schema schema) last) ≡ rows.now) }
    ensures form { result ≡ Err Formless → has_one_valid_desk_row (abstract_schema schema) rows.now ≡ false }
{
    match rows {
        [row] => last_stamp_in_desk_row(schema, row),
        _ => Err(DecodeError::Form),
    }
}

// Decodes like `last_stamp_in_desk_rows`, for a caller that returns `StoreFailed`.
fn last_stamp_in_third_schema(rows: &[Row]) -> Result<Option<Stamp>, StoreFailed>
    ensures value { IfOk result (λ last. map desk_row_cells (desk_rows third_schema last) ≡ rows.now) }
{
    Ok(last_stamp_in_desk_rows(Schema::Third, rows)?)
}

/// Returns the stamp of the last accepted command (D_LAST), in milliseconds since 1970-01-01 UTC,
/// or `None` if none is stored. Fails also if DESK does not have exactly one row, with the id 1 and
/// the number of schema 3.
pub fn last_stamp<S: Alter>(tx: &mut Transaction<'_, S>) -> Result<Option<Stamp>, StoreFailed>
    ensures same_reference { tx.new.conn.ghost_name ≡ tx.old.conn.ghost_name }
    ensures step { ReadsDeskTables S.Store tx.old tx.new result (λ last t. last ≡ t.last) }
{
    let rows = select_rows(
        tx,
        "SELECT D_ID, D_SCHEMA, D_LAST FROM DESK ORDER BY D_ID",
        &[],
    )?;
    last_stamp_in_third_schema(&rows)
}
