//! Calls of the database within a transaction: a statement is executed, rows are selected, and a
//! statement is compiled without its execution. They commit nothing. At an error the database is
//! unchanged or the transaction is rolled back.

ghost use Rattle.std.specs.Prelude.{◌≡◌, ℕ, List, map, Ok, None, IsTrue};
ghost use Rattle.std.specs.Borrow.{Bor};
ghost use Rattle.sqlite.specs.Listing.{understood};
ghost use Rattle.sqlite.specs.Values.{bound};
ghost use Rattle.sqlite_resolve.specs.declared.compiled.Compiled.{Compiled};
ghost use Rattle.sqlite_schema.specs.declared.schema.Schema.{Schema};
ghost use Rattle.brk_tables_sql.specs.Desk.{IsResultColumnCheckOutcome, IsCompilationOutcome};
ghost use Rattle.brk_tables_sql.specs.Model.{ExecutesStatement, SelectsRows, IsConnectionStep};

use brk_money::StoreFailed;
use sqlite::{Alter, Row, Transaction};
use sqlite_value::value::ValueRef;

/// Executes a statement that creates a table or changes rows. A broken constraint is an error too.
pub fn execute_statement<S: Alter>(
    tx: &mut Transaction<'_, S>,
    text: &str,
    params: &[ValueRef<'_>],
) -> Result<(), StoreFailed>
    ensures same_reference { tx.new.conn.ghost_name ≡ tx.old.conn.ghost_name }
    ensures step { IsConnectionStep S.Store tx.old tx.new result (λ _. ExecutesStatement text.now (bound params.now)) }
{
    match tx.execute(text, params) {
        Ok(_) => Ok(()),
        Err(_) => Err(StoreFailed),
    }
}

/// Returns the rows that a statement selects, in the order of its result.
pub fn select_rows<S: Alter>(
    tx: &mut Transaction<'_, S>,
    text: &str,
    params: &[ValueRef<'_>],
) -> Result<Vec<Row>, StoreFailed>
    requires no_returning_clause { (schema : Schema) (c : Compiled) → understood schema text.now ≡ Ok c → c.returning ≡ None }
    ensures same_reference { tx.new.conn.ghost_name ≡ tx.old.conn.ghost_name }
    ensures step { IsConnectionStep S.Store tx.old tx.new result (λ rows. SelectsRows text.now (bound params.now) rows.items) }
{
    match tx.query_all(text, params) {
        Ok(rows) => Ok(rows),
        Err(_) => Err(StoreFailed),
    }
}

/// Returns true if the statement compiles, and false if a table that it names does not exist. The
/// statement is not executed.
pub fn statement_compiles<S: Alter>(
    tx: &mut Transaction<'_, S>,
    text: &str,
) -> Result<bool, StoreFailed>
    ensures same_reference { tx.new.conn.ghost_name ≡ tx.old.conn.ghost_name }
    ensures step { IsConnectionStep S.Store tx.old tx.new result (λ has a b. IsTrue a.is_open × (b.now ≡ a.now)
        × IsCompilationOutcome text.now has a.now.schema) }
{
    match brk_tables_sql::statement_compiles(tx, text) {
        Ok(has) => Ok(has),
        Err(_) => Err(StoreFailed),
    }
}

/// Returns true if the columns of the statement's result have exactly the names `names`, in order.
/// The statement is not executed.
pub fn statement_has_columns<S: Alter>(
    tx: &mut Transaction<'_, S>,
    text: &str,
    names: &[&str],
) -> Result<bool, StoreFailed>
    ensures same_reference { tx.new.conn.ghost_name ≡ tx.old.conn.ghost_name }
    ensures step { IsConnectionStep S.Store tx.old tx.new result (λ has a b. IsTrue a.is_open × (b.now ≡ a.now)
        × IsResultColumnCheckOutcome text.now (map (λ (name : Bor (List ℕ)). name.now) names.now) has a.now.schema) }
{
    match brk_tables_sql::statement_has_columns(tx, text, names) {
        Ok(has) => Ok(has),
        Err(_) => Err(StoreFailed),
    }
}
