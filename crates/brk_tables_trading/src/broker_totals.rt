ghost use Rattle.std.specs.Prelude.{◌≡◌};
ghost use Rattle.brk_trade_rows.specs.Changes.{tables_with_broker_totals};
ghost use Rattle.brk_tables_schema.specs.Statements.{WritesDeskTables};

use brk_money::{Id, StoreFailed};
use brk_tables_schema::calls::execute_statement;
use brk_tables_schema::values::{amount_param, id_param, integer_param};
use brk_trade_rows::Amount;
use sqlite::{Alter, Transaction};

/// Sets the number of a broker's completed trades (B_NUM_TRADES) and the sum of their commissions,
/// in cents (B_COMM_TOTAL).
pub fn set_broker_totals<S: Alter>(
    tx: &mut Transaction<'_, S>,
    broker: Id,
    trades: i64,
    commissions: Amount,
) -> Result<(), StoreFailed>
    ensures same_reference { tx.new.conn.ghost_name ≡ tx.old.conn.ghost_name }
    ensures step { WritesDeskTables S.Store tx.old tx.new result (tables_with_broker_totals broker trades commissions) }
{
    execute_statement(
        tx,
        "UPDATE BROKER SET B_NUM_TRADES = ?1, B_COMM_TOTAL = ?2 WHERE B_ID = ?3",
        &[
            integer_param(trades),
            amount_param(commissions),
            id_param(broker),
        ],
    )
}
