//! Cash rows: the rows of CASH_MOVE.

ghost use Rattle.std.specs.Prelude.{◌≡◌, ◌==◌, filter, is_none, length, map, nat_le, option_map, reverse, slice_get};
ghost use Rattle.brk_model.specs.Limits.{greatest_id};
ghost use Rattle.brk_model.specs.LookupView.{is_cash_row_of_trade};
ghost use Rattle.brk_trade_rows.specs.Changes.{tables_with_cash_text, tables_with_cash_row};
ghost use Rattle.brk_ref.specs.Rows.{abstract_cash_row};
ghost use Rattle.brk_tables_schema.specs.Desk.{CashMoves};
ghost use Rattle.brk_tables_schema.specs.Statements.{ReadsFirstMatch, ReadsDeskTables, WritesDeskTables};

use brk_money::{CallFault, Id, MoveId, StoreFailed};
use brk_ref::CashRow;
use brk_tables_schema::calls::{execute_statement, select_rows};
use brk_tables_schema::record::{decode_first_row, decode_rows};
use brk_tables_schema::values::{
    cash_row_id_param, cents_param, id_param, integer_param, optional_id_param, stamp_param,
    text_param,
};
use sqlite::{Alter, Transaction};
use std::alloc::Global;

/// Inserts a cash row. Fails also if its trade has a cash row.
pub fn add_cash_row<S: Alter>(tx: &mut Transaction<'_, S>, row: &CashRow) -> Result<(), StoreFailed>
    ensures same_reference { tx.new.conn.ghost_name ≡ tx.old.conn.ghost_name }
    ensures step { WritesDeskTables S.Store tx.old tx.new result (tables_with_cash_row (abstract_cash_row row.now)) }
{
    execute_statement(
        tx,
        "INSERT INTO CASH_MOVE (CM_ID, CM_CA_ID, CM_T_ID, CM_DTS, CM_AMT, CM_NAME) VALUES (?1, ?2, ?3, ?4, ?5, ?6)",
        &[
            cash_row_id_param(row.id),
            id_param(row.account),
            optional_id_param(row.trade),
            stamp_param(row.stamp),
            cents_param(row.amount),
            text_param(row.name.as_str()),
        ],
    )
}

pub fn cash_row_with_greatest_id<S: Alter>(
    tx: &mut Transaction<'_, S>,
) -> Result<Option<CashRow>, StoreFailed>
    ensures same_reference { tx.new.conn.ghost_name ≡ tx.old.conn.ghost_name }
    ensures step { ReadsDeskTables S.Store tx.old tx.new result (λ o t. option_map abstract_cash_row o ≡ slice_get (reverse t.moves) 0) }
{
    let rows = select_rows(
        tx,
        "SELECT CM_ID, CM_CA_ID, CM_T_ID, CM_DTS, CM_AMT, CM_NAME FROM CASH_MOVE ORDER BY CM_ID DESC LIMIT 1",
        &[],
    )?;
    decode_first_row(&rows)
}

pub fn cash_row_by_id<S: Alter>(
    tx: &mut Transaction<'_, S>,
    id: MoveId,
) -> Result<Option<CashRow>, StoreFailed>
    ensures same_reference { tx.new.conn.ghost_name ≡ tx.old.conn.ghost_name }
    ensures step { ReadsFirstMatch S.Store tx.old tx.new result CashMoves abstract_cash_row (λ r. r.id == id) }
{
    let rows = select_rows(
        tx,
        "SELECT CM_ID, CM_CA_ID, CM_T_ID, CM_DTS, CM_AMT, CM_NAME FROM CASH_MOVE WHERE CM_ID = ?1 ORDER BY CM_ID",
        &[cash_row_id_param(id)],
    )?;
    decode_first_row(&rows)
}

/// Returns the cash rows of all accounts, sorted by number, ascending.
pub fn all_cash_rows<S: Alter>(
    tx: &mut Transaction<'_, S>,
    alloc: Global,
) -> Result<Vec<CashRow>, CallFault>
    ensures same_reference { tx.new.conn.ghost_name ≡ tx.old.conn.ghost_name }
    ensures step { ReadsDeskTables S.Store tx.old tx.new result (λ all t. map abstract_cash_row all.items ≡ t.moves) }
{
    let rows = select_rows(
        tx,
        "SELECT CM_ID, CM_CA_ID, CM_T_ID, CM_DTS, CM_AMT, CM_NAME FROM CASH_MOVE ORDER BY CM_ID",
        &[],
    )?;
    decode_rows(alloc, &rows)
}

/// Returns true if CASH_MOVE has at least 10^12 rows without a trade, which are the deposits and
/// withdrawals. The query steps over these rows, so its time grows with their number.
pub fn has_reached_movement_limit<S: Alter>(
    tx: &mut Transaction<'_, S>,
) -> Result<bool, StoreFailed>
    ensures same_reference { tx.new.conn.ghost_name ≡ tx.old.conn.ghost_name }
    ensures step { ReadsDeskTables S.Store tx.old tx.new result (λ all t. all ≡ nat_le greatest_id (length (filter (λ r. is_none r.trade) t.moves))) }
{
    let rows = select_rows(
        tx,
        "SELECT CM_ID, CM_CA_ID, CM_T_ID, CM_DTS, CM_AMT, CM_NAME FROM CASH_MOVE WHERE CM_T_ID IS NULL ORDER BY CM_ID LIMIT 1 OFFSET ?1",
        &[integer_param(999_999_999_999)],
    )?;
    Ok(!rows.is_empty())
}

pub fn cash_row_by_trade<S: Alter>(
    tx: &mut Transaction<'_, S>,
    trade: Id,
) -> Result<Option<CashRow>, StoreFailed>
    ensures same_reference { tx.new.conn.ghost_name ≡ tx.old.conn.ghost_name }
    ensures step { ReadsFirstMatch S.Store tx.old tx.new result CashMoves abstract_cash_row (is_cash_row_of_trade trade) }
{
    let rows = select_rows(
        tx,
        "SELECT CM_ID, CM_CA_ID, CM_T_ID, CM_DTS, CM_AMT, CM_NAME FROM CASH_MOVE WHERE CM_T_ID = ?1 ORDER BY CM_ID",
        &[id_param(trade)],
    )?;
    decode_first_row(&rows)
}

/// Sets the text of the cash row of a trade (CM_NAME).
pub fn set_cash_row_name<S: Alter>(
    tx: &mut Transaction<'_, S>,
    trade: Id,
    name: &str,
) -> Result<(), StoreFailed>
    ensures same_reference { tx.new.conn.ghost_name ≡ tx.old.conn.ghost_name }
    ensures step { WritesDeskTables S.Store tx.old tx.new result (tables_with_cash_text trade name.now) }
{
    execute_statement(
        tx,
        "UPDATE CASH_MOVE SET CM_NAME = ?1 WHERE CM_T_ID = ?2",
        &[text_param(name), id_param(trade)],
    )
}
