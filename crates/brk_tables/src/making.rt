//! Creation of a desk's tables.

ghost use Rattle.std.specs.Prelude.{◌≡◌, ℕ, List, [], map};
ghost use Rattle.brk_trade_rows.specs.Schemas.{abstract_schema};
ghost use Rattle.brk_tables_sql.specs.Desk.{CreatesTableOfShape, CreatesEachTable};
ghost use Rattle.brk_tables_sql.specs.Model.{ExecutesStatement, IsConnectionStep};
ghost use Rattle.brk_tables_schema.specs.Desk.{table_definition_at_tree};
ghost use Rattle.brk_tables_schema.specs.Desk.{tables_of_later_schemas};
ghost use Rattle.brk_tables.specs.Made.{CreatesDeskTables, insert_desk_row_text};
ghost use Rattle.brk_tables_schema.specs.Texts.{abstract_table};

use brk_money::StoreFailed;
use brk_tables_schema::calls::execute_statement;
use brk_tables_schema::table::{
    ADDED_AFTER_FIRST, ADDED_AFTER_SECOND, TABLES_OF_THIRD_SCHEMA, Table,
};
use brk_trade_rows::Schema;
use sqlite::{Alter, Transaction};

fn create_empty_table<S: Alter>(
    tx: &mut Transaction<'_, S>,
    table: Table,
) -> Result<(), StoreFailed>
    ensures same_reference { tx.new.conn.ghost_name ≡ tx.old.conn.ghost_name }
    ensures step { IsConnectionStep S.Store tx.old tx.new result (λ _ a b. CreatesTableOfShape a.now b.now (table_definition_at_tree (abstract_table table))) }
{
    execute_statement(tx, table.create_table_text(), &[])
}

// After an error, the tables before the one that failed may exist in the transaction.
fn create_each_table<S: Alter>(
    tx: &mut Transaction<'_, S>,
    tables: &[Table],
) -> Result<(), StoreFailed>
    ensures same_reference { tx.new.conn.ghost_name ≡ tx.old.conn.ghost_name }
    ensures step { IsConnectionStep S.Store tx.old tx.new result
        (λ _ a b. CreatesEachTable (map (λ table. table_definition_at_tree (abstract_table table)) tables.now) a.now b.now) }
{
    for table in tables {
        create_empty_table(tx, *table)?;
    }
    Ok(())
}

fn add_desk_row<S: Alter>(tx: &mut Transaction<'_, S>) -> Result<(), StoreFailed>
    ensures same_reference { tx.new.conn.ghost_name ≡ tx.old.conn.ghost_name }
    ensures step { IsConnectionStep S.Store tx.old tx.new result (λ _. ExecutesStatement insert_desk_row_text []) }
{
    execute_statement(
        tx,
        "INSERT INTO DESK (D_ID, D_SCHEMA, D_LAST) VALUES (1, 3, NULL)",
        &[],
    )
}

/// Creates the tables of schema 3, empty but for the one row of DESK, with the schema number 3 and
/// no stamp. Fails also if a table with one of their names exists. After an error,
/// some may exist in the transaction.
pub fn create_desk_tables<S: Alter>(tx: &mut Transaction<'_, S>) -> Result<(), StoreFailed>
    ensures same_reference { tx.new.conn.ghost_name ≡ tx.old.conn.ghost_name }
    ensures step { IsConnectionStep S.Store tx.old tx.new result (λ _ a b. CreatesDeskTables a.now b.now) }
{
    create_each_table(tx, &TABLES_OF_THIRD_SCHEMA)?;
    add_desk_row(tx)
}

/// Creates the tables that `schema` does not have and later schemas add, without rows: CASH_MOVE
/// and SETTLE_RULE for schema 1, SETTLE_RULE for schema 2, none for schema 3. After an error,
/// CASH_MOVE may exist in the transaction.
pub fn create_later_tables<S: Alter>(
    tx: &mut Transaction<'_, S>,
    schema: Schema,
) -> Result<(), StoreFailed>
    ensures same_reference { tx.new.conn.ghost_name ≡ tx.old.conn.ghost_name }
    ensures step { IsConnectionStep S.Store tx.old tx.new result
        (λ _ a b. CreatesEachTable (map table_definition_at_tree (tables_of_later_schemas (abstract_schema schema))) a.now b.now) }
{
    match schema {
        Schema::First => create_each_table(tx, &ADDED_AFTER_FIRST),
        Schema::Second => create_each_table(tx, &ADDED_AFTER_SECOND),
        Schema::Third => create_each_table(tx, &[]),
    }
}
