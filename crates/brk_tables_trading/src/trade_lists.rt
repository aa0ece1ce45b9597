//! Reads for the views of an account: the most recent trades of the account, and the statuses that
//! a trade reached.

ghost use Rattle.std.specs.Prelude.{◌≡◌, ◌==◌, map, take};
ghost use Rattle.brk_model.specs.Joins.{trade_rows_recent_first, trade_rows_of_account};
ghost use Rattle.brk_ref.specs.Rows.{abstract_history_row, abstract_trade_row};
ghost use Rattle.brk_tables_schema.specs.Desk.{TradeHistory};
ghost use Rattle.brk_tables_schema.specs.Statements.{ReadsMatchingRows, ReadsDeskTables};

use brk_money::{CallFault, Id};
use brk_ref::{HistoryRow, TradeRow};
use brk_tables_schema::calls::select_rows;
use brk_tables_schema::record::decode_rows;
use brk_tables_schema::values::id_param;
use sqlite::{Alter, Transaction};
use std::alloc::Global;

/// Returns the ten most recent trades of an account, or all if it has fewer, sorted by the stamp of
/// their last status change and then by id, both descending.
pub fn last_ten_trades<S: Alter>(
    tx: &mut Transaction<'_, S>,
    alloc: Global,
    account: Id,
) -> Result<Vec<TradeRow>, CallFault>
    ensures same_reference { tx.new.conn.ghost_name ≡ tx.old.conn.ghost_name }
    ensures step { ReadsDeskTables S.Store tx.old tx.new result (λ all t. map abstract_trade_row all.items
        ≡ take 10 (trade_rows_recent_first (trade_rows_of_account t account))) }
{
    let rows = select_rows(
        tx,
        "SELECT T_ID, T_DTS, T_ST_ID, T_TT_ID, T_IS_CASH, T_S_SYMB, T_QTY, T_BID_PRICE, T_CA_ID, \
         T_EXEC_NAME, T_TRADE_PRICE, T_CHRG, T_COMM, T_TAX, T_LIFO \
         FROM TRADE WHERE T_CA_ID = ?1 ORDER BY T_DTS DESC, T_ID DESC LIMIT 10",
        &[id_param(account)],
    )?;
    decode_rows(alloc, &rows)
}

/// Returns the fifty most recent trades of an account, or all if it has fewer, in the order of
/// `last_ten_trades`.
pub fn last_fifty_trades<S: Alter>(
    tx: &mut Transaction<'_, S>,
    alloc: Global,
    account: Id,
) -> Result<Vec<TradeRow>, CallFault>
    ensures same_reference { tx.new.conn.ghost_name ≡ tx.old.conn.ghost_name }
    ensures step { ReadsDeskTables S.Store tx.old tx.new result (λ all t. map abstract_trade_row all.items
        ≡ take 50 (trade_rows_recent_first (trade_rows_of_account t account))) }
{
    let rows = select_rows(
        tx,
        "SELECT T_ID, T_DTS, T_ST_ID, T_TT_ID, T_IS_CASH, T_S_SYMB, T_QTY, T_BID_PRICE, T_CA_ID, \
         T_EXEC_NAME, T_TRADE_PRICE, T_CHRG, T_COMM, T_TAX, T_LIFO \
         FROM TRADE WHERE T_CA_ID = ?1 ORDER BY T_DTS DESC, T_ID DESC LIMIT 50",
        &[id_param(account)],
    )?;
    decode_rows(alloc, &rows)
}

/// Returns each status that a trade reached, with its stamp, sorted by the code of the status,
/// ascending.
pub fn history_of_trade<S: Alter>(
    tx: &mut Transaction<'_, S>,
    alloc: Global,
    trade: Id,
) -> Result<Vec<HistoryRow>, CallFault>
    ensures same_reference { tx.new.conn.ghost_name ≡ tx.old.conn.ghost_name }
    ensures step { ReadsMatchingRows S.Store tx.old tx.new result TradeHistory abstract_history_row (λ r. r.trade == trade) }
{
    let rows = select_rows(
        tx,
        "SELECT TH_T_ID, TH_ST_ID, TH_DTS FROM TRADE_HISTORY WHERE TH_T_ID = ?1 ORDER BY TH_T_ID, TH_ST_ID",
        &[id_param(trade)],
    )?;
    decode_rows(alloc, &rows)
}
