//! The insertion of the settlement of a completed trade (SETTLEMENT); its read and its update are
//! in `updates`.

ghost use Rattle.std.specs.Prelude.{◌≡◌};
ghost use Rattle.brk_trade_rows.specs.Changes.{tables_with_settlement};
ghost use Rattle.brk_ref.specs.Rows.{abstract_settlement_row};
ghost use Rattle.brk_tables_schema.specs.Statements.{WritesDeskTables};

use brk_money::StoreFailed;
use brk_ref::SettlementRow;
use brk_tables_schema::calls::execute_statement;
use brk_tables_schema::values::{cash_type_param, cents_param, day_param, id_param};
use sqlite::{Alter, Transaction};

/// Inserts the settlement of a completed trade (SETTLEMENT).
pub fn add_settlement<S: Alter>(
    tx: &mut Transaction<'_, S>,
    settlement: &SettlementRow,
) -> Result<(), StoreFailed>
    ensures same_reference { tx.new.conn.ghost_name ≡ tx.old.conn.ghost_name }
    ensures step { WritesDeskTables S.Store tx.old tx.new result (tables_with_settlement (abstract_settlement_row settlement.now)) }
{
    execute_statement(
        tx,
        "INSERT INTO SETTLEMENT (SE_T_ID, SE_CASH_TYPE, SE_CASH_DUE_DATE, SE_AMT) VALUES (?1, ?2, ?3, ?4)",
        &[
            id_param(settlement.trade),
            cash_type_param(settlement.cash_type),
            day_param(settlement.due_day),
            cents_param(settlement.amount),
        ],
    )
}
