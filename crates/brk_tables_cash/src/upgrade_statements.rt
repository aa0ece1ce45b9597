//! The statements that only an upgrade needs: it sets the number of the schema, and deletes the
//! rows of CASH_TRANSACTION.

ghost use Rattle.std.specs.Prelude.{◌≡◌};
ghost use Rattle.brk_tables_sql.specs.Model.{IsConnectionStep};
ghost use Rattle.brk_tables_schema.specs.Statements.{WritesDeskTables};
ghost use Rattle.brk_tables_cash.specs.UpgradeStatements.{SetsSchemaNumberToThree, tables_without_cash_transactions};

use brk_money::StoreFailed;
use brk_tables_schema::calls::execute_statement;
use brk_tables_schema::values::integer_param;
use sqlite::{Alter, Transaction};

/// Sets the number of the schema in DESK to 3 (D_SCHEMA). The effect is specified only if all
/// tables of schema 3 exist.
pub fn set_third_schema<S: Alter>(tx: &mut Transaction<'_, S>) -> Result<(), StoreFailed>
    ensures same_reference { tx.new.conn.ghost_name ≡ tx.old.conn.ghost_name }
    ensures step { IsConnectionStep S.Store tx.old tx.new result (λ _ a b. SetsSchemaNumberToThree a.now b.now) }
{
    execute_statement(
        tx,
        "UPDATE DESK SET D_SCHEMA = ?1 WHERE D_ID = ?2",
        &[integer_param(3), integer_param(1)],
    )
}

/// Deletes all rows of CASH_TRANSACTION.
pub fn remove_cash_transactions<S: Alter>(tx: &mut Transaction<'_, S>) -> Result<(), StoreFailed>
    ensures same_reference { tx.new.conn.ghost_name ≡ tx.old.conn.ghost_name }
    ensures step { WritesDeskTables S.Store tx.old tx.new result tables_without_cash_transactions }
{
    execute_statement(tx, "DELETE FROM CASH_TRANSACTION", &[])
}
