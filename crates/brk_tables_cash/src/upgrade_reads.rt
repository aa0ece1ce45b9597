//! The reads of the upgrade: the cash rows of schema 1, and the account of a trade.

ghost use Rattle.std.specs.Prelude.{◌≡◌, map, option_map};
ghost use Rattle.brk_model.specs.Joins.{trade_row_with_id};
ghost use Rattle.brk_ref.specs.Rows.{abstract_old_cash_row};
ghost use Rattle.brk_tables_schema.specs.Statements.{ReadsDeskTables};

use brk_money::{CallFault, Id, StoreFailed};
use brk_ref::OldCashRow;
use brk_tables_schema::calls::select_rows;
use brk_tables_schema::record::{decode_first_row, decode_rows};
use brk_tables_schema::values::id_param;
use sqlite::{Alter, Transaction};
use std::alloc::Global;

/// Returns all rows of CASH_TRANSACTION, sorted by trade, ascending.
pub fn all_cash_transactions<S: Alter>(
    tx: &mut Transaction<'_, S>,
    alloc: Global,
) -> Result<Vec<OldCashRow>, CallFault>
    ensures same_reference { tx.new.conn.ghost_name ≡ tx.old.conn.ghost_name }
    ensures step { ReadsDeskTables S.Store tx.old tx.new result (λ all t. map abstract_old_cash_row all.items ≡ t.cash) }
{
    let rows = select_rows(
        tx,
        "SELECT CT_T_ID, CT_DTS, CT_AMT, CT_NAME FROM CASH_TRANSACTION ORDER BY CT_T_ID",
        &[],
    )?;
    decode_rows(alloc, &rows)
}

/// Returns `None` if the trade does not exist.
pub fn account_id_of_trade<S: Alter>(
    tx: &mut Transaction<'_, S>,
    trade: Id,
) -> Result<Option<Id>, StoreFailed>
    ensures same_reference { tx.new.conn.ghost_name ≡ tx.old.conn.ghost_name }
    ensures step { ReadsDeskTables S.Store tx.old tx.new result (λ account t. account ≡ option_map (λ r. r.account) (trade_row_with_id t trade)) }
{
    let rows = select_rows(
        tx,
        "SELECT T_CA_ID FROM TRADE WHERE T_ID = ?1 ORDER BY T_ID",
        &[id_param(trade)],
    )?;
    decode_first_row(&rows)
}
