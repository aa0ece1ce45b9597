//! The last trade of a security on the market (LAST_TRADE); the last trades of an account are in
//! `trade_lists`.

ghost use Rattle.std.specs.Prelude.{◌≡◌, bytes_eq, map};
ghost use Rattle.brk_ref.specs.Records.{abstract_last_trade_row};
ghost use Rattle.brk_trade_rows.specs.Changes.{tables_with_last_trade_replaced};
ghost use Rattle.brk_tables_schema.specs.Desk.{LastTrades};
ghost use Rattle.brk_tables_schema.specs.Statements.{ReadsDeskTables, ReadsFirstMatch, WritesDeskTables};

use brk_money::{CallFault, StoreFailed};
use brk_ref::{LastTrade, Symbol};
use brk_tables_schema::calls::{execute_statement, select_rows};
use brk_tables_schema::record::{decode_first_row, decode_rows};
use brk_tables_schema::values::{price_param, stamp_param, text_param, volume_param};
use sqlite::{Alter, Transaction};
use std::alloc::Global;

/// Sets the last trade of a security on the market (LAST_TRADE).
pub fn set_last_trade<S: Alter>(
    tx: &mut Transaction<'_, S>,
    last_trade: &LastTrade,
) -> Result<(), StoreFailed>
    ensures same_reference { tx.new.conn.ghost_name ≡ tx.old.conn.ghost_name }
    ensures step { WritesDeskTables S.Store tx.old tx.new result (tables_with_last_trade_replaced (abstract_last_trade_row last_trade.now)) }
{
    execute_statement(
        tx,
        "UPDATE LAST_TRADE SET LT_DTS = ?1, LT_PRICE = ?2, LT_VOL = ?3 WHERE LT_S_SYMB = ?4",
        &[
            stamp_param(last_trade.stamp),
            price_param(last_trade.price),
            volume_param(last_trade.volume),
            text_param(last_trade.symbol.as_str()),
        ],
    )
}

pub fn last_trade_by_symbol<S: Alter>(
    tx: &mut Transaction<'_, S>,
    symbol: &Symbol,
) -> Result<Option<LastTrade>, StoreFailed>
    ensures same_reference { tx.new.conn.ghost_name ≡ tx.old.conn.ghost_name }
    ensures step { ReadsFirstMatch S.Store tx.old tx.new result LastTrades abstract_last_trade_row (λ r. bytes_eq r.symbol symbol.now) }
{
    let rows = select_rows(
        tx,
        "SELECT LT_S_SYMB, LT_DTS, LT_PRICE, LT_VOL FROM LAST_TRADE WHERE LT_S_SYMB = ?1 ORDER BY LT_S_SYMB",
        &[text_param(symbol.as_str())],
    )?;
    decode_first_row(&rows)
}

/// Returns the last trades of all securities, sorted by symbol, ascending.
pub fn all_last_trades<S: Alter>(
    tx: &mut Transaction<'_, S>,
    alloc: Global,
) -> Result<Vec<LastTrade>, CallFault>
    ensures same_reference { tx.new.conn.ghost_name ≡ tx.old.conn.ghost_name }
    ensures step { ReadsDeskTables S.Store tx.old tx.new result (λ all t. map abstract_last_trade_row all.items ≡ t.last_trades) }
{
    let rows = select_rows(
        tx,
        "SELECT LT_S_SYMB, LT_DTS, LT_PRICE, LT_VOL FROM LAST_TRADE ORDER BY LT_S_SYMB",
        &[],
    )?;
    decode_rows(alloc, &rows)
}
