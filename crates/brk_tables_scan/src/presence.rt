//! Look-ups of a desk's tables by name, in which upper and lower case of ASCII letters are equal. A
//! table of this name may have any columns.

ghost use Rattle.std.specs.Prelude.{◌≡◌, ◌&&◌, IsTrue, not};
ghost use Rattle.std.specs.List.{list_all, list_any};
ghost use Rattle.brk_trade_rows.specs.Schemas.{abstract_schema};
ghost use Rattle.brk_tables_sql.specs.Model.{IsConnectionStep};
ghost use Rattle.brk_tables_scan.specs.Present.{has_table_of_desk, has_exact_table_names, has_table_named};
ghost use Rattle.brk_tables_schema.specs.Texts.{abstract_table};

use brk_money::StoreFailed;
use brk_tables_schema::calls::statement_compiles;
use brk_tables_schema::table::{
    ADDED_AFTER_FIRST, ADDED_AFTER_SECOND, TABLES_OF_FIRST_SCHEMA, TABLES_OF_SECOND_SCHEMA,
    TABLES_OF_THIRD_SCHEMA, Table,
};
use brk_trade_rows::Schema;
use sqlite::{Alter, Transaction};

fn table_exists<S: Alter>(tx: &mut Transaction<'_, S>, table: Table) -> Result<bool, StoreFailed>
    ensures same_reference { tx.new.conn.ghost_name ≡ tx.old.conn.ghost_name }
    ensures step { IsConnectionStep S.Store tx.old tx.new result (λ has a b. IsTrue a.is_open × (b.now ≡ a.now)
        × (has ≡ has_table_named a.now.schema (abstract_table table))) }
{
    statement_compiles(tx, table.existence_probe_text())
}

fn has_any_of_tables<S: Alter>(
    tx: &mut Transaction<'_, S>,
    tables: &[Table],
) -> Result<bool, StoreFailed>
    ensures same_reference { tx.new.conn.ghost_name ≡ tx.old.conn.ghost_name }
    ensures step { IsConnectionStep S.Store tx.old tx.new result (λ has a b. (b.now ≡ a.now)
        × (has ≡ list_any (λ table. has_table_named a.now.schema (abstract_table table)) tables.now)) }
{
    for table in tables {
        if table_exists(tx, *table)? {
            return Ok(true);
        }
    }
    Ok(false)
}

fn has_each_of_tables<S: Alter>(
    tx: &mut Transaction<'_, S>,
    tables: &[Table],
) -> Result<bool, StoreFailed>
    ensures same_reference { tx.new.conn.ghost_name ≡ tx.old.conn.ghost_name }
    ensures step { IsConnectionStep S.Store tx.old tx.new result (λ has a b. (b.now ≡ a.now)
        × (has ≡ list_all (λ table. has_table_named a.now.schema (abstract_table table)) tables.now)) }
{
    for table in tables {
        if !table_exists(tx, *table)? {
            return Ok(false);
        }
    }
    Ok(true)
}

/// Returns true if the database has a table with the name of some table of a desk.
pub fn has_some_desk_table<S: Alter>(tx: &mut Transaction<'_, S>) -> Result<bool, StoreFailed>
    ensures same_reference { tx.new.conn.ghost_name ≡ tx.old.conn.ghost_name }
    ensures step { IsConnectionStep S.Store tx.old tx.new result (λ has a b. (b.now ≡ a.now) × (has ≡ has_table_of_desk a.now.schema)) }
{
    has_any_of_tables(tx, &TABLES_OF_THIRD_SCHEMA)
}

fn presence_matches<S: Alter>(
    tx: &mut Transaction<'_, S>,
    present: &[Table],
    absent: &[Table],
) -> Result<bool, StoreFailed>
    ensures same_reference { tx.new.conn.ghost_name ≡ tx.old.conn.ghost_name }
    ensures step { IsConnectionStep S.Store tx.old tx.new result (λ has a b. (b.now ≡ a.now)
        × (has
        ≡ (list_all (λ table. has_table_named a.now.schema (abstract_table table)) present.now
        && not (list_any (λ table. has_table_named a.now.schema (abstract_table table)) absent.now)))) }
{
    if !has_each_of_tables(tx, present)? {
        return Ok(false);
    }
    Ok(!has_any_of_tables(tx, absent)?)
}

// The check of `has_table_names`, without the look-up that fails if the database is not open.
fn names_match<S: Alter>(tx: &mut Transaction<'_, S>, schema: Schema) -> Result<bool, StoreFailed>
    ensures same_reference { tx.new.conn.ghost_name ≡ tx.old.conn.ghost_name }
    ensures step { IsConnectionStep S.Store tx.old tx.new result (λ has a b. (b.now ≡ a.now)
        × (has ≡ has_exact_table_names (abstract_schema schema) a.now.schema)) }
{
    match schema {
        Schema::First => presence_matches(tx, &TABLES_OF_FIRST_SCHEMA, &ADDED_AFTER_FIRST),
        Schema::Second => presence_matches(tx, &TABLES_OF_SECOND_SCHEMA, &ADDED_AFTER_SECOND),
        Schema::Third => presence_matches(tx, &TABLES_OF_THIRD_SCHEMA, &[]),
    }
}

/// Returns true if each table of `schema` exists, and none that only a later schema has.
pub fn has_table_names<S: Alter>(
    tx: &mut Transaction<'_, S>,
    schema: Schema,
) -> Result<bool, StoreFailed>
    ensures same_reference { tx.new.conn.ghost_name ≡ tx.old.conn.ghost_name }
    ensures step { IsConnectionStep S.Store tx.old tx.new result (λ has a b. IsTrue a.is_open × (b.now ≡ a.now)
        × (has ≡ has_exact_table_names (abstract_schema schema) a.now.schema)) }
{
    // The value is not needed: the look-up succeeds only if the database is open.
    let _there = table_exists(tx, Table::TheDesk)?;
    names_match(tx, schema)
}
