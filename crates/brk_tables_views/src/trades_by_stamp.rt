//! Reads of trades of any status, sorted by the stamp of their last status change and then by id,
//! both ascending.

ghost use Rattle.std.specs.Prelude.{◌≡◌, ◌==◌, ◌&&◌, bytes_eq, filter, map, nat_le, option_map, option_to_list, take};
ghost use Rattle.brk_model.specs.Joins.{trade_rows_oldest_first, trade_rows_of_account};
ghost use Rattle.brk_model.specs.LookupView.{row_stamp_is_between};
ghost use Rattle.brk_ref.specs.Rows.{abstract_trade_row};
ghost use Rattle.brk_tables_schema.specs.Statements.{ReadsDeskTables};

use brk_money::{CallFault, Id, Stamp, StoreFailed};
use brk_ref::{Symbol, TradeRow};
use brk_tables_schema::calls::select_rows;
use brk_tables_schema::record::{decode_first_row, decode_rows};
use brk_tables_schema::values::{id_param, stamp_param, text_param};
use sqlite::{Alter, Transaction};
use std::alloc::Global;

/// Returns the first twenty, or all if there are fewer, of the trades of an account with a stamp
/// from `first` to `last`, both included.
pub fn twenty_trades_of_account<S: Alter>(
    tx: &mut Transaction<'_, S>,
    alloc: Global,
    account: Id,
    first: Stamp,
    last: Stamp,
) -> Result<Vec<TradeRow>, CallFault>
    ensures same_reference { tx.new.conn.ghost_name ≡ tx.old.conn.ghost_name }
    ensures step { ReadsDeskTables S.Store tx.old tx.new result (λ all t. map abstract_trade_row all.items
        ≡ take 20 (trade_rows_oldest_first (filter (λ r. (r.account == account) && row_stamp_is_between first last r) t.trades))) }
{
    let rows = select_rows(
        tx,
        "SELECT T_ID, T_DTS, T_ST_ID, T_TT_ID, T_IS_CASH, T_S_SYMB, T_QTY, T_BID_PRICE, T_CA_ID, \
         T_EXEC_NAME, T_TRADE_PRICE, T_CHRG, T_COMM, T_TAX, T_LIFO \
         FROM TRADE \
         WHERE T_CA_ID = ?1 AND T_DTS >= ?2 AND T_DTS <= ?3 ORDER BY T_DTS, T_ID LIMIT 20",
        &[id_param(account), stamp_param(first), stamp_param(last)],
    )?;
    decode_rows(alloc, &rows)
}

/// Returns the first twenty, or all if there are fewer, of the trades in a security with a stamp
/// from `first` to `last`, both included.
pub fn twenty_trades_of_symbol<S: Alter>(
    tx: &mut Transaction<'_, S>,
    alloc: Global,
    symbol: &Symbol,
    first: Stamp,
    last: Stamp,
) -> Result<Vec<TradeRow>, CallFault>
    ensures same_reference { tx.new.conn.ghost_name ≡ tx.old.conn.ghost_name }
    ensures step { ReadsDeskTables S.Store tx.old tx.new result (λ all t. map abstract_trade_row all.items
        ≡ take 20 (trade_rows_oldest_first (filter (λ r. bytes_eq r.symbol symbol.now && row_stamp_is_between first last r) t.trades))) }
{
    let rows = select_rows(
        tx,
        "SELECT T_ID, T_DTS, T_ST_ID, T_TT_ID, T_IS_CASH, T_S_SYMB, T_QTY, T_BID_PRICE, T_CA_ID, \
         T_EXEC_NAME, T_TRADE_PRICE, T_CHRG, T_COMM, T_TAX, T_LIFO \
         FROM TRADE \
         WHERE T_S_SYMB = ?1 AND T_DTS >= ?2 AND T_DTS <= ?3 ORDER BY T_DTS, T_ID LIMIT 20",
        &[
            text_param(symbol.as_str()),
            stamp_param(first),
            stamp_param(last),
        ],
    )?;
    decode_rows(alloc, &rows)
}

/// Returns the first of the trades of an account with a stamp of at least `first`, or `None` if
/// there is none.
pub fn first_trade_of_account_since<S: Alter>(
    tx: &mut Transaction<'_, S>,
    account: Id,
    first: Stamp,
) -> Result<Option<TradeRow>, StoreFailed>
    ensures same_reference { tx.new.conn.ghost_name ≡ tx.old.conn.ghost_name }
    ensures step { ReadsDeskTables S.Store tx.old tx.new result (λ o t. option_to_list (option_map abstract_trade_row o)
        ≡ take 1 (trade_rows_oldest_first (filter (λ r. nat_le first r.stamp) (trade_rows_of_account t account)))) }
{
    let rows = select_rows(
        tx,
        "SELECT T_ID, T_DTS, T_ST_ID, T_TT_ID, T_IS_CASH, T_S_SYMB, T_QTY, T_BID_PRICE, T_CA_ID, \
         T_EXEC_NAME, T_TRADE_PRICE, T_CHRG, T_COMM, T_TAX, T_LIFO \
         FROM TRADE WHERE T_CA_ID = ?1 AND T_DTS >= ?2 ORDER BY T_DTS, T_ID LIMIT 1",
        &[id_param(account), stamp_param(first)],
    )?;
    decode_first_row(&rows)
}
