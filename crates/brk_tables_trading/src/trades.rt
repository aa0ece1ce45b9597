//! Trades (TRADE): their writes, and the reads by id, of all and of submitted trades; the reads for
//! views are in `trade_lists`, those for text updates in `updates`.

ghost use Rattle.std.specs.Prelude.{◌≡◌, ◌==◌, map, option_map, reverse, slice_get};
ghost use Rattle.brk_money.specs.Kinds.{is_same_trade_status};
ghost use Rattle.brk_money.specs.declared.status.Status.TheVariants.{Submitted};
ghost use Rattle.brk_trade_rows.specs.Changes.{tables_with_trade_completed, tables_with_trade_status, tables_with_trade};
ghost use Rattle.brk_ref.specs.Rows.{abstract_trade_row};
ghost use Rattle.brk_tables_schema.specs.Desk.{Trades};
ghost use Rattle.brk_tables_schema.specs.Statements.{ReadsFirstMatch, ReadsMatchingRows, ReadsDeskTables, WritesDeskTables};

use brk_money::{CallFault, Id, Price, Stamp, Status, StoreFailed};
use brk_ref::TradeRow;
use brk_tables_schema::calls::{execute_statement, select_rows};
use brk_tables_schema::record::{decode_first_row, decode_rows};
use brk_tables_schema::values::{
    amount_param, charge_param, flag_param, id_param, optional_price_param, price_param, qty_param,
    stamp_param, status_param, text_param, trade_type_param,
};
use brk_trade_rows::Amount;
use sqlite::{Alter, Transaction};
use std::alloc::Global;

pub fn add_trade<S: Alter>(tx: &mut Transaction<'_, S>, trade: &TradeRow) -> Result<(), StoreFailed>
    ensures same_reference { tx.new.conn.ghost_name ≡ tx.old.conn.ghost_name }
    ensures step { WritesDeskTables S.Store tx.old tx.new result (tables_with_trade (abstract_trade_row trade.now)) }
{
    execute_statement(
        tx,
        "INSERT INTO TRADE (T_ID, T_DTS, T_ST_ID, T_TT_ID, T_IS_CASH, T_S_SYMB, T_QTY, \
         T_BID_PRICE, T_CA_ID, T_EXEC_NAME, T_TRADE_PRICE, T_CHRG, T_COMM, T_TAX, T_LIFO) \
         VALUES (?1, ?2, ?3, ?4, ?5, ?6, ?7, ?8, ?9, ?10, ?11, ?12, ?13, ?14, ?15)",
        &[
            id_param(trade.id),
            stamp_param(trade.stamp),
            status_param(trade.status),
            trade_type_param(trade.kind),
            flag_param(trade.is_cash),
            text_param(trade.symbol.as_str()),
            qty_param(trade.qty),
            price_param(trade.bid),
            id_param(trade.account),
            text_param(trade.executor.as_str()),
            optional_price_param(trade.price),
            charge_param(trade.charge),
            amount_param(trade.commission),
            amount_param(trade.tax),
            flag_param(trade.is_lifo),
        ],
    )
}

/// Sets the status of a trade (T_ST_ID) and the stamp at which the trade reached it (T_DTS).
/// Inserts no row of TRADE_HISTORY.
pub fn set_trade_status<S: Alter>(
    tx: &mut Transaction<'_, S>,
    id: Id,
    status: Status,
    stamp: Stamp,
) -> Result<(), StoreFailed>
    ensures same_reference { tx.new.conn.ghost_name ≡ tx.old.conn.ghost_name }
    ensures step { WritesDeskTables S.Store tx.old tx.new result (tables_with_trade_status id status stamp) }
{
    execute_statement(
        tx,
        "UPDATE TRADE SET T_ST_ID = ?1, T_DTS = ?2 WHERE T_ID = ?3",
        &[status_param(status), stamp_param(stamp), id_param(id)],
    )
}

/// Sets the status of a trade to completed, with its stamp, price per share, commission and tax.
/// Inserts no row of TRADE_HISTORY.
pub fn complete_trade<S: Alter>(
    tx: &mut Transaction<'_, S>,
    trade: Id,
    stamp: Stamp,
    price: Price,
    commission: Amount,
    tax: Amount,
) -> Result<(), StoreFailed>
    ensures same_reference { tx.new.conn.ghost_name ≡ tx.old.conn.ghost_name }
    ensures step { WritesDeskTables S.Store tx.old tx.new result (tables_with_trade_completed trade stamp price commission tax) }
{
    execute_statement(
        tx,
        "UPDATE TRADE SET T_ST_ID = ?1, T_DTS = ?2, T_TRADE_PRICE = ?3, T_COMM = ?4, T_TAX = ?5 WHERE T_ID = ?6",
        &[
            status_param(Status::Completed),
            stamp_param(stamp),
            price_param(price),
            amount_param(commission),
            amount_param(tax),
            id_param(trade),
        ],
    )
}

pub fn trade_by_id<S: Alter>(
    tx: &mut Transaction<'_, S>,
    id: Id,
) -> Result<Option<TradeRow>, StoreFailed>
    ensures same_reference { tx.new.conn.ghost_name ≡ tx.old.conn.ghost_name }
    ensures step { ReadsFirstMatch S.Store tx.old tx.new result Trades abstract_trade_row (λ r. r.id == id) }
{
    let rows = select_rows(
        tx,
        "SELECT T_ID, T_DTS, T_ST_ID, T_TT_ID, T_IS_CASH, T_S_SYMB, T_QTY, T_BID_PRICE, T_CA_ID, \
         T_EXEC_NAME, T_TRADE_PRICE, T_CHRG, T_COMM, T_TAX, T_LIFO \
         FROM TRADE WHERE T_ID = ?1 ORDER BY T_ID",
        &[id_param(id)],
    )?;
    decode_first_row(&rows)
}

/// Returns all trades, sorted by id, ascending.
pub fn all_trades<S: Alter>(
    tx: &mut Transaction<'_, S>,
    alloc: Global,
) -> Result<Vec<TradeRow>, CallFault>
    ensures same_reference { tx.new.conn.ghost_name ≡ tx.old.conn.ghost_name }
    ensures step { ReadsDeskTables S.Store tx.old tx.new result (λ all t. map abstract_trade_row all.items ≡ t.trades) }
{
    let rows = select_rows(
        tx,
        "SELECT T_ID, T_DTS, T_ST_ID, T_TT_ID, T_IS_CASH, T_S_SYMB, T_QTY, T_BID_PRICE, T_CA_ID, \
         T_EXEC_NAME, T_TRADE_PRICE, T_CHRG, T_COMM, T_TAX, T_LIFO \
         FROM TRADE ORDER BY T_ID",
        &[],
    )?;
    decode_rows(alloc, &rows)
}

pub fn greatest_trade_id<S: Alter>(tx: &mut Transaction<'_, S>) -> Result<Option<Id>, StoreFailed>
    ensures same_reference { tx.new.conn.ghost_name ≡ tx.old.conn.ghost_name }
    ensures step { ReadsDeskTables S.Store tx.old tx.new result (λ o t. o ≡ option_map (λ r. r.id) (slice_get (reverse t.trades) 0)) }
{
    let rows = select_rows(tx, "SELECT T_ID FROM TRADE ORDER BY T_ID DESC LIMIT 1", &[])?;
    decode_first_row(&rows)
}

/// Returns the trades with the status submitted, sorted by id, ascending.
pub fn submitted_trades<S: Alter>(
    tx: &mut Transaction<'_, S>,
    alloc: Global,
) -> Result<Vec<TradeRow>, CallFault>
    ensures same_reference { tx.new.conn.ghost_name ≡ tx.old.conn.ghost_name }
    ensures step { ReadsMatchingRows S.Store tx.old tx.new result Trades abstract_trade_row (λ r. is_same_trade_status r.status Submitted) }
{
    let rows = select_rows(
        tx,
        "SELECT T_ID, T_DTS, T_ST_ID, T_TT_ID, T_IS_CASH, T_S_SYMB, T_QTY, T_BID_PRICE, T_CA_ID, \
         T_EXEC_NAME, T_TRADE_PRICE, T_CHRG, T_COMM, T_TAX, T_LIFO \
         FROM TRADE WHERE T_ST_ID = ?1 ORDER BY T_ID",
        &[status_param(Status::Submitted)],
    )?;
    decode_rows(alloc, &rows)
}
