//! The test of which schema a database has: by its tables, and by the number in its row of DESK.

ghost use Rattle.std.specs.Prelude.{◌≡◌, ◌≢◌, ◌↔◌, ◌<◌, IsTrue, length, false, pos};
ghost use Rattle.sqlite_value.specs.declared.value.Value.TheVariants.{Int};
ghost use Rattle.sqlite_value.specs.Order.{column};
ghost use Rattle.brk_trade_rows.specs.Schemas.{abstract_schema};
ghost use Rattle.brk_tables_sql.specs.Model.{IsConnectionStep};
ghost use Rattle.brk_tables_scan.specs.Schemas.{DatabaseHasSchema, TablesWithSchemaNamesAreDeskTables, IsDeskRowOfSchema, IsOneDeskRowOfSchema};

use crate::columns::tables_match;
use crate::rows::desk_rows;
use brk_money::StoreFailed;
use brk_trade_rows::Schema;
use sqlite::{Alter, Row, Transaction};
use sqlite_value::value::ValueRef;

fn schema_number(schema: Schema) -> i64
    ensures { result ≡ pos (abstract_schema schema).number }
{
    match schema {
        Schema::First => 1,
        Schema::Second => 2,
        Schema::Third => 3,
    }
}

fn column_equals_integer(row: &Row, at: usize, wanted: i64) -> bool
    ensures if_true { IsTrue result → column row.now at ≡ Int wanted }
    ensures if_false { result ≡ false → at < length row.now → column row.now at ≢ Int wanted }
{
    match row.get_ref(at) {
        Ok(ValueRef::Int(number)) => number == wanted,
        _ => false,
    }
}

// The third column, the stamp, may have any value.
#[tactic(auto, using(crate::proofs::Firsts::is_row, crate::proofs::Firsts::not_three, crate::proofs::Firsts::not_id, crate::proofs::Firsts::not_schema))]
fn is_desk_row_of_schema(schema: Schema, row: &Row) -> bool
    ensures if_true { IsTrue result → IsDeskRowOfSchema (abstract_schema schema) row.now }
    ensures if_false { result ≡ false → ¬ IsDeskRowOfSchema (abstract_schema schema) row.now }
{
    if row.column_count() != 3 {
        return false;
    }
    column_equals_integer(row, 0, 1) && column_equals_integer(row, 1, schema_number(schema))
}

// The row must also have the number of `schema`.
#[tactic(auto, using(crate::proofs::Firsts::says_one, crate::proofs::Firsts::first_of))]
fn has_one_desk_row(schema: Schema, rows: &[Row]) -> bool
    ensures if_true { IsTrue result → IsOneDeskRowOfSchema (abstract_schema schema) rows.now }
    ensures if_false { result ≡ false → ¬ IsOneDeskRowOfSchema (abstract_schema schema) rows.now }
{
    match rows {
        [row] => is_desk_row_of_schema(schema, row),
        _ => false,
    }
}

/// Returns true if the database has the tables of `schema` (`tables_match`), and in
/// DESK exactly one row, with the id 1 and the number of the schema. The result is specified only
/// if the tables with these names and columns are defined as a desk defines them.
pub fn database_has_schema<S: Alter>(
    tx: &mut Transaction<'_, S>,
    schema: Schema,
) -> Result<bool, StoreFailed>
    ensures same_reference { tx.new.conn.ghost_name ≡ tx.old.conn.ghost_name }
    ensures step { IsConnectionStep S.Store tx.old tx.new result (λ has a b. IsTrue a.is_open × (b.now ≡ a.now)
        × (TablesWithSchemaNamesAreDeskTables (abstract_schema schema) a.now → IsTrue has ↔ DatabaseHasSchema (abstract_schema schema) a.now)) }
{
    if !tables_match(tx, schema)? {
        return Ok(false);
    }
    Ok(has_one_desk_row(schema, &desk_rows(tx)?))
}
