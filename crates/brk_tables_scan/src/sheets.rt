//! The typed rows of all tables of a desk, or `None` if a row is malformed.

ghost use Rattle.std.specs.Prelude.{◌≡◌, IfOk, IfSome, IsTrue};
ghost use Rattle.brk_trade_rows.specs.Schemas.{abstract_schema};
ghost use Rattle.brk_tables_sql.specs.Model.{IsConnectionStep};
ghost use Rattle.brk_tables_scan.specs.Schemas.{DatabaseHasSchema, TablesWithSchemaNamesAreDeskTables};
ghost use Rattle.brk_tables_scan.specs.Whole.{AreSheetsOfDatabase};

use crate::all_tables::read_all_tables;
use crate::decoder::Decoder;
use brk_money::CallFault;
use brk_trade_rows::{Schema, Sheets};
use sqlite::{Alter, Transaction};
use std::alloc::Global;

/// Returns `schema` and the typed rows of its tables, each list sorted by key, ascending; of KEPT
/// it returns the keys alone. Returns `None` only if a row is malformed (the texts of KEPT must be
/// UTF-8) or SETTLE_RULE has two rows or more, and only after all tables were read.
///
/// The result is specified only if the database has the schema (`database_has_schema`) and its
/// tables are defined as a desk defines them.
pub fn read_sheets<S: Alter>(
    tx: &mut Transaction<'_, S>,
    alloc: Global,
    schema: Schema,
) -> Result<Option<Sheets>, CallFault>
    ensures same_reference { tx.new.conn.ghost_name ≡ tx.old.conn.ghost_name }
    ensures step { IsConnectionStep S.Store tx.old tx.new result (λ read a b. IsTrue a.is_open × (b.now ≡ a.now)
        × (TablesWithSchemaNamesAreDeskTables (abstract_schema schema) a.now → DatabaseHasSchema (abstract_schema schema) a.now
        → AreSheetsOfDatabase (abstract_schema schema) a.now read)) }
    ensures of_schema { IfOk result (λ read. IfSome read (λ sheets. sheets.schema ≡ schema)) }
{
    let mut decoder = Decoder::new();
    let sheets = read_all_tables(tx, alloc, schema, &mut decoder)?;
    if !decoder.are_well_formed {
        return Ok(None);
    }
    Ok(Some(sheets))
}
