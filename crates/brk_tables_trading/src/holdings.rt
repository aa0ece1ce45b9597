//! Reads of the lots of accounts (HOLDING).

ghost use Rattle.std.specs.Prelude.{◌≡◌, ◌==◌, map, pos, reverse};
ghost use Rattle.sqlite_value.specs.Value.{owned};
ghost use Rattle.sqlite_value.specs.declared.value.Value.TheVariants.{Int};
ghost use Rattle.brk_ref.specs.Rows.{abstract_holding_row};
ghost use Rattle.brk_tables_schema.specs.Desk.{Holdings};
ghost use Rattle.brk_tables_schema.specs.Statements.{ReadsFirstMatch, ReadsDeskTables};
ghost use Rattle.brk_tables_trading.specs.Pages.{position_lots_by_age, page_after_skipped};

use brk_money::{CallFault, Id, StoreFailed};
use brk_ref::{HoldingRow, Symbol};
use brk_tables_schema::calls::select_rows;
use brk_tables_schema::record::{decode_first_row, decode_rows};
use brk_tables_schema::values::{id_param, text_param};
use sqlite::{Alter, Transaction};
use sqlite_value::value::ValueRef;
use std::alloc::Global;

fn skip_parameter<'a>(skipped: u32) -> ValueRef<'a>
    ensures { owned result ≡ Int (pos skipped) }
{
    ValueRef::Int(skipped as i64)
}

/// Returns the next lots of an account in a security after the first `skipped`, at most 4, sorted
/// by the stamp of their opening and then by the id of the trade that opened them, both ascending.
pub fn oldest_lots<S: Alter>(
    tx: &mut Transaction<'_, S>,
    alloc: Global,
    account: Id,
    symbol: &Symbol,
    skipped: u32,
) -> Result<Vec<HoldingRow>, CallFault>
    ensures same_reference { tx.new.conn.ghost_name ≡ tx.old.conn.ghost_name }
    ensures step { ReadsDeskTables S.Store tx.old tx.new result (λ all t. map abstract_holding_row all.items
        ≡ page_after_skipped skipped (position_lots_by_age account symbol.now t)) }
{
    let rows = select_rows(
        tx,
        "SELECT H_T_ID, H_CA_ID, H_S_SYMB, H_DTS, H_PRICE, H_QTY FROM HOLDING WHERE H_CA_ID = ?1 AND H_S_SYMB = ?2 ORDER BY H_DTS, H_T_ID LIMIT 4 OFFSET ?3",
        &[
            id_param(account),
            text_param(symbol.as_str()),
            skip_parameter(skipped),
        ],
    )?;
    decode_rows(alloc, &rows)
}

/// Returns the next lots of an account in a security after the first `skipped`, at most 4, in the
/// reverse of the order of `oldest_lots`.
pub fn newest_lots<S: Alter>(
    tx: &mut Transaction<'_, S>,
    alloc: Global,
    account: Id,
    symbol: &Symbol,
    skipped: u32,
) -> Result<Vec<HoldingRow>, CallFault>
    ensures same_reference { tx.new.conn.ghost_name ≡ tx.old.conn.ghost_name }
    ensures step { ReadsDeskTables S.Store tx.old tx.new result (λ all t. map abstract_holding_row all.items
        ≡ page_after_skipped skipped (reverse (position_lots_by_age account symbol.now t))) }
{
    let rows = select_rows(
        tx,
        "SELECT H_T_ID, H_CA_ID, H_S_SYMB, H_DTS, H_PRICE, H_QTY \
         FROM HOLDING \
         WHERE H_CA_ID = ?1 AND H_S_SYMB = ?2 ORDER BY H_DTS DESC, H_T_ID DESC LIMIT 4 OFFSET ?3",
        &[
            id_param(account),
            text_param(symbol.as_str()),
            skip_parameter(skipped),
        ],
    )?;
    decode_rows(alloc, &rows)
}

/// Returns the lot that a trade opened, or `None` if there is none.
pub fn lot_by_trade<S: Alter>(
    tx: &mut Transaction<'_, S>,
    trade: Id,
) -> Result<Option<HoldingRow>, StoreFailed>
    ensures same_reference { tx.new.conn.ghost_name ≡ tx.old.conn.ghost_name }
    ensures step { ReadsFirstMatch S.Store tx.old tx.new result Holdings abstract_holding_row (λ r. r.trade == trade) }
{
    let rows = select_rows(
        tx,
        "SELECT H_T_ID, H_CA_ID, H_S_SYMB, H_DTS, H_PRICE, H_QTY FROM HOLDING WHERE H_T_ID = ?1 ORDER BY H_T_ID",
        &[id_param(trade)],
    )?;
    decode_first_row(&rows)
}

/// Returns all lots, sorted by the id of the trade that opened them, ascending.
pub fn all_lots<S: Alter>(
    tx: &mut Transaction<'_, S>,
    alloc: Global,
) -> Result<Vec<HoldingRow>, CallFault>
    ensures same_reference { tx.new.conn.ghost_name ≡ tx.old.conn.ghost_name }
    ensures step { ReadsDeskTables S.Store tx.old tx.new result (λ all t. map abstract_holding_row all.items ≡ t.holdings) }
{
    let rows = select_rows(
        tx,
        "SELECT H_T_ID, H_CA_ID, H_S_SYMB, H_DTS, H_PRICE, H_QTY FROM HOLDING ORDER BY H_T_ID",
        &[],
    )?;
    decode_rows(alloc, &rows)
}
