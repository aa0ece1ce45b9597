//! The insertion of a status change of a trade (TRADE_HISTORY); its read is in `trade_lists`.

ghost use Rattle.std.specs.Prelude.{◌≡◌};
ghost use Rattle.brk_trade_rows.specs.Changes.{tables_with_history_row};
ghost use Rattle.brk_ref.specs.Rows.{abstract_history_row};
ghost use Rattle.brk_tables_schema.specs.Statements.{WritesDeskTables};

use brk_money::StoreFailed;
use brk_ref::HistoryRow;
use brk_tables_schema::calls::execute_statement;
use brk_tables_schema::values::{id_param, stamp_param, status_param};
use sqlite::{Alter, Transaction};

/// Inserts a status that a trade reached, and the stamp of this change (TRADE_HISTORY).
pub fn add_trade_history_row<S: Alter>(
    tx: &mut Transaction<'_, S>,
    mark: &HistoryRow,
) -> Result<(), StoreFailed>
    ensures same_reference { tx.new.conn.ghost_name ≡ tx.old.conn.ghost_name }
    ensures step { WritesDeskTables S.Store tx.old tx.new result (tables_with_history_row (abstract_history_row mark.now)) }
{
    execute_statement(
        tx,
        "INSERT INTO TRADE_HISTORY (TH_T_ID, TH_ST_ID, TH_DTS) VALUES (?1, ?2, ?3)",
        &[
            id_param(mark.trade),
            status_param(mark.status),
            stamp_param(mark.stamp),
        ],
    )
}
