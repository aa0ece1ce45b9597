ghost use Rattle.std.specs.Prelude.{◌≡◌};
ghost use Rattle.brk_trade_rows.specs.Changes.{tables_with_balance};
ghost use Rattle.brk_tables_schema.specs.Statements.{WritesDeskTables};

use brk_money::{Cents, Id, StoreFailed};
use brk_tables_schema::calls::execute_statement;
use brk_tables_schema::values::{cents_param, id_param};
use sqlite::{Alter, Transaction};

/// Sets the balance of an account (CA_BAL), in cents.
pub fn set_account_balance<S: Alter>(
    tx: &mut Transaction<'_, S>,
    account: Id,
    balance: Cents,
) -> Result<(), StoreFailed>
    ensures same_reference { tx.new.conn.ghost_name ≡ tx.old.conn.ghost_name }
    ensures step { WritesDeskTables S.Store tx.old tx.new result (tables_with_balance account balance) }
{
    execute_statement(
        tx,
        "UPDATE CUSTOMER_ACCOUNT SET CA_BAL = ?1 WHERE CA_ID = ?2",
        &[cents_param(balance), id_param(account)],
    )
}
