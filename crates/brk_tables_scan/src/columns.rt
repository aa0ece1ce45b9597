//! The check of a desk's tables by their names and columns.

ghost use Rattle.std.specs.Prelude.{◌≡◌, ◌↔◌, ◌≤◌, length, map, IsTrue};
ghost use Rattle.brk_tables_sql.specs.Model.{IsConnectionStep};
ghost use Rattle.brk_tables_scan.specs.Headings.{IsHeadingCheckOutcome, heading_of_borrowed_texts, heading_of_table};
ghost use Rattle.brk_trade_rows.specs.Schemas.{abstract_schema};
ghost use Rattle.brk_tables_schema.specs.Desk.{tables_in_schema};
ghost use Rattle.brk_tables_scan.specs.Schemas.{HasTablesOfSchema, LacksTablesOfLaterSchemas};

use crate::column_names::COLUMNS_OF_ALL_TABLES;
use crate::presence::has_table_names;
use brk_money::StoreFailed;
use brk_tables_schema::calls::statement_has_columns;
use brk_trade_rows::Schema;
use sqlite::{Alter, Transaction};

// A heading is a statement that selects all columns of a table, with their names.
fn headings_match<S: Alter>(
    tx: &mut Transaction<'_, S>,
    headings: &[(&str, &[&str])],
) -> Result<bool, StoreFailed>
    ensures same_reference { tx.new.conn.ghost_name ≡ tx.old.conn.ghost_name }
    ensures step { IsConnectionStep S.Store tx.old tx.new result (λ has a b. (b.now ≡ a.now)
        × IsHeadingCheckOutcome (map heading_of_borrowed_texts headings.now) has a.now.schema) }
{
    for (text, names) in headings {
        if !statement_has_columns(tx, text, names)? {
            return Ok(false);
        }
    }
    Ok(true)
}

// The tables of `schema` are the first ones in `COLUMNS_OF_ALL_TABLES`.
fn table_count(schema: Schema) -> usize
    ensures count { result ≡ length (tables_in_schema (abstract_schema schema)) }
    ensures at_most_all { result ≤ 22 }
{
    match schema {
        Schema::First => 20,
        Schema::Second => 21,
        Schema::Third => 22,
    }
}

fn tables_have_columns<S: Alter>(
    tx: &mut Transaction<'_, S>,
    schema: Schema,
) -> Result<bool, StoreFailed>
    ensures same_reference { tx.new.conn.ghost_name ≡ tx.old.conn.ghost_name }
    ensures step { IsConnectionStep S.Store tx.old tx.new result (λ has a b. (b.now ≡ a.now)
        × IsHeadingCheckOutcome (map heading_of_table (tables_in_schema (abstract_schema schema))) has a.now.schema) }
{
    headings_match(tx, &COLUMNS_OF_ALL_TABLES[..table_count(schema)])
}

/// Returns true if each table of `schema` exists by name, with exactly its column names, in order,
/// and no table has a name that a later schema adds. Other properties of the tables are not
/// checked.
pub fn tables_match<S: Alter>(
    tx: &mut Transaction<'_, S>,
    schema: Schema,
) -> Result<bool, StoreFailed>
    ensures same_reference { tx.new.conn.ghost_name ≡ tx.old.conn.ghost_name }
    ensures step { IsConnectionStep S.Store tx.old tx.new result (λ has a b. IsTrue a.is_open × (b.now ≡ a.now)
        × (IsTrue has ↔ HasTablesOfSchema (abstract_schema schema) a.now.schema × LacksTablesOfLaterSchemas (abstract_schema schema) a.now.schema)) }
{
    if !has_table_names(tx, schema)? {
        return Ok(false);
    }
    tables_have_columns(tx, schema)
}
