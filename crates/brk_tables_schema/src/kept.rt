//! The rows of KEPT, stored requests and replies: added, decoded, and read by key.

ghost use Rattle.std.specs.Prelude.{◌≡◌, ◌==◌, ◌&&◌, bytes_eq};
ghost use Rattle.brk_ref.specs.Records.{abstract_kept_row};
ghost use Rattle.brk_trade_rows.specs.Changes.{tables_with_stored_reply};
ghost use Rattle.brk_tables_schema.specs.Cells.{kept_cells};
ghost use Rattle.brk_tables_schema.specs.Desk.{KeptRows};
ghost use Rattle.brk_tables_schema.specs.Formed.{kept_column_cell_checks};
ghost use Rattle.brk_tables_schema.specs.Statements.{ReadsFirstMatch, WritesDeskTables};

use crate::calls::{execute_statement, select_rows};
use crate::cells::{check_column_count, formed_text_cell, row_number_cell, text_cell};
use crate::decode_error::DecodeError;
use crate::record::{Record, decode_first_row};
use crate::values::{row_number_param, text_param};
use brk_money::StoreFailed;
use brk_ref::{Kept, Key};
use sqlite::{Alter, Row, Transaction};

/// Inserts a row of KEPT, a stored request and its reply. Fails also if its key exists.
pub fn add_kept_row<S: Alter>(tx: &mut Transaction<'_, S>, kept: &Kept) -> Result<(), StoreFailed>
    ensures same_reference { tx.new.conn.ghost_name ≡ tx.old.conn.ghost_name }
    ensures step { WritesDeskTables S.Store tx.old tx.new result (tables_with_stored_reply (abstract_kept_row kept.now)) }
{
    execute_statement(
        tx,
        "INSERT INTO KEPT (K_BATCH, K_N, K_ROW, K_LINE) VALUES (?1, ?2, ?3, ?4)",
        &[
            text_param(kept.key.batch.as_str()),
            row_number_param(kept.key.n),
            text_param(kept.row_text.as_str()),
            text_param(kept.line.as_str()),
        ],
    )
}

impl Record for Kept {
    ghost cells = { λ r. kept_cells (abstract_kept_row r) };

    ghost forms = { kept_column_cell_checks };

    fn from_row(row: &Row) -> Result<Kept, DecodeError> {
        check_column_count(row, 4)?;
        let key = Key {
            batch: formed_text_cell(row, 0)?,
            n: row_number_cell(row, 1)?,
        };
        Ok(Kept {
            key,
            row_text: text_cell(row, 2)?,
            line: text_cell(row, 3)?,
        })
    }
}

/// Returns the row of KEPT with the key `key`, or `None` if there is none.
pub fn kept_row_by_key<S: Alter>(
    tx: &mut Transaction<'_, S>,
    key: &Key,
) -> Result<Option<Kept>, StoreFailed>
    ensures same_reference { tx.new.conn.ghost_name ≡ tx.old.conn.ghost_name }
    ensures step { ReadsFirstMatch S.Store tx.old tx.new result KeptRows abstract_kept_row (λ k. bytes_eq k.key.batch key.now.batch
        && (k.key.n == key.now.n)) }
{
    let rows = select_rows(
        tx,
        "SELECT K_BATCH, K_N, K_ROW, K_LINE FROM KEPT WHERE K_BATCH = ?1 AND K_N = ?2 ORDER BY K_BATCH, K_N",
        &[text_param(key.batch.as_str()), row_number_param(key.n)],
    )?;
    decode_first_row(&rows)
}
