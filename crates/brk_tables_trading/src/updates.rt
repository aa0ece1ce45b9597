//! Text updates of trades: the reads of the selected trades and of their texts, and the writes.

ghost use Rattle.std.specs.Prelude.{◌≡◌, ◌==◌, map};
ghost use Rattle.brk_trade_rows.specs.Changes.{tables_with_cash_type, tables_with_executor_name};
ghost use Rattle.brk_trade_rows.specs.Chosen as chosen;
ghost use Rattle.brk_ref.specs.Rows.{cash_type_text, abstract_settlement_row, abstract_trade_row};
ghost use Rattle.brk_tables_schema.specs.Desk.{Settlements};
ghost use Rattle.brk_tables_schema.specs.Statements.{ReadsFirstMatch, ReadsDeskTables, WritesDeskTables};

use brk_money::{CallFault, Id, Stamp, Status, StoreFailed};
use brk_ref::{CashType, SettlementRow, Symbol, TradeRow};
use brk_tables_schema::calls::{execute_statement, select_rows};
use brk_tables_schema::record::{decode_first_row, decode_rows};
use brk_tables_schema::values::{
    cash_type_param, flag_param, id_param, stamp_param, status_param, text_param,
};
use sqlite::{Alter, Transaction};
use std::alloc::Global;

/// Returns the first twenty, or all if there are fewer, of the trades of an account that were
/// completed from `first` to `last`, both included, sorted by the stamp of completion and then by
/// id, ascending.
pub fn twenty_completed_trades<S: Alter>(
    tx: &mut Transaction<'_, S>,
    alloc: Global,
    account: Id,
    first: Stamp,
    last: Stamp,
) -> Result<Vec<TradeRow>, CallFault>
    ensures same_reference { tx.new.conn.ghost_name ≡ tx.old.conn.ghost_name }
    ensures step { ReadsDeskTables S.Store tx.old tx.new result (λ all t. map abstract_trade_row all.items
        ≡ chosen.first_twenty_completed_trade_rows_of_account account first last t) }
{
    let rows = select_rows(
        tx,
        "SELECT T_ID, T_DTS, T_ST_ID, T_TT_ID, T_IS_CASH, T_S_SYMB, T_QTY, T_BID_PRICE, T_CA_ID, \
         T_EXEC_NAME, T_TRADE_PRICE, T_CHRG, T_COMM, T_TAX, T_LIFO \
         FROM TRADE WHERE T_ST_ID = ?1 AND T_CA_ID = ?2 \
         AND T_DTS >= ?3 AND T_DTS <= ?4 ORDER BY T_DTS, T_ID LIMIT 20",
        &[
            status_param(Status::Completed),
            id_param(account),
            stamp_param(first),
            stamp_param(last),
        ],
    )?;
    decode_rows(alloc, &rows)
}

/// Returns the first twenty, or all if there are fewer, of the cash trades of a symbol that were
/// completed from `first` to `last`, both included, sorted by the stamp of completion and then by
/// id, ascending.
pub fn twenty_completed_cash_trades<S: Alter>(
    tx: &mut Transaction<'_, S>,
    alloc: Global,
    symbol: &Symbol,
    first: Stamp,
    last: Stamp,
) -> Result<Vec<TradeRow>, CallFault>
    ensures same_reference { tx.new.conn.ghost_name ≡ tx.old.conn.ghost_name }
    ensures step { ReadsDeskTables S.Store tx.old tx.new result (λ all t. map abstract_trade_row all.items
        ≡ chosen.first_twenty_completed_cash_trade_rows_of_symbol symbol.now first last t) }
{
    let rows = select_rows(
        tx,
        "SELECT T_ID, T_DTS, T_ST_ID, T_TT_ID, T_IS_CASH, T_S_SYMB, T_QTY, T_BID_PRICE, T_CA_ID, \
         T_EXEC_NAME, T_TRADE_PRICE, T_CHRG, T_COMM, T_TAX, T_LIFO \
         FROM TRADE WHERE T_ST_ID = ?1 AND T_IS_CASH = ?2 AND T_S_SYMB = ?3 \
         AND T_DTS >= ?4 AND T_DTS <= ?5 ORDER BY T_DTS, T_ID LIMIT 20",
        &[
            status_param(Status::Completed),
            flag_param(true),
            text_param(symbol.as_str()),
            stamp_param(first),
            stamp_param(last),
        ],
    )?;
    decode_rows(alloc, &rows)
}

pub fn settlement_by_trade<S: Alter>(
    tx: &mut Transaction<'_, S>,
    trade: Id,
) -> Result<Option<SettlementRow>, StoreFailed>
    ensures same_reference { tx.new.conn.ghost_name ≡ tx.old.conn.ghost_name }
    ensures step { ReadsFirstMatch S.Store tx.old tx.new result Settlements abstract_settlement_row (λ r. r.trade == trade) }
{
    let rows = select_rows(
        tx,
        "SELECT SE_T_ID, SE_CASH_TYPE, SE_CASH_DUE_DATE, SE_AMT FROM SETTLEMENT WHERE SE_T_ID = ?1 ORDER BY SE_T_ID",
        &[id_param(trade)],
    )?;
    decode_first_row(&rows)
}

/// Sets the name of the executor of a trade (T_EXEC_NAME).
pub fn set_executor<S: Alter>(
    tx: &mut Transaction<'_, S>,
    trade: Id,
    executor: &str,
) -> Result<(), StoreFailed>
    ensures same_reference { tx.new.conn.ghost_name ≡ tx.old.conn.ghost_name }
    ensures step { WritesDeskTables S.Store tx.old tx.new result (tables_with_executor_name trade executor.now) }
{
    execute_statement(
        tx,
        "UPDATE TRADE SET T_EXEC_NAME = ?1 WHERE T_ID = ?2",
        &[text_param(executor), id_param(trade)],
    )
}

/// Sets the cash type in the settlement of a trade (SE_CASH_TYPE).
pub fn set_cash_type<S: Alter>(
    tx: &mut Transaction<'_, S>,
    trade: Id,
    cash_type: CashType,
) -> Result<(), StoreFailed>
    ensures same_reference { tx.new.conn.ghost_name ≡ tx.old.conn.ghost_name }
    ensures step { WritesDeskTables S.Store tx.old tx.new result (tables_with_cash_type trade (cash_type_text cash_type)) }
{
    execute_statement(
        tx,
        "UPDATE SETTLEMENT SET SE_CASH_TYPE = ?1 WHERE SE_T_ID = ?2",
        &[cash_type_param(cash_type), id_param(trade)],
    )
}
