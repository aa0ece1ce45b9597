//! Holding summaries (HOLDING_SUMMARY): the number of shares of each security that an account holds
//! in total.

ghost use Rattle.std.specs.Prelude.{◌≡◌, ◌==◌, ◌&&◌, bytes_eq};
ghost use Rattle.brk_trade_rows.specs.Changes.{tables_with_summary, tables_with_summary_quantity, tables_without_summary};
ghost use Rattle.brk_ref.specs.Rows.{abstract_summary_row};
ghost use Rattle.brk_tables_schema.specs.Desk.{Summaries};
ghost use Rattle.brk_tables_schema.specs.Statements.{ReadsFirstMatch, ReadsMatchingRows, WritesDeskTables};

use brk_money::{CallFault, Id, StoreFailed};
use brk_ref::{SummaryRow, Symbol};
use brk_tables_schema::calls::{execute_statement, select_rows};
use brk_tables_schema::record::{decode_first_row, decode_rows};
use brk_tables_schema::values::{id_param, integer_param, text_param};
use sqlite::{Alter, Transaction};
use std::alloc::Global;

pub fn add_holding_summary<S: Alter>(
    tx: &mut Transaction<'_, S>,
    summary: &SummaryRow,
) -> Result<(), StoreFailed>
    ensures same_reference { tx.new.conn.ghost_name ≡ tx.old.conn.ghost_name }
    ensures step { WritesDeskTables S.Store tx.old tx.new result (tables_with_summary (abstract_summary_row summary.now)) }
{
    execute_statement(
        tx,
        "INSERT INTO HOLDING_SUMMARY (HS_CA_ID, HS_S_SYMB, HS_QTY) VALUES (?1, ?2, ?3)",
        &[
            id_param(summary.account),
            text_param(summary.symbol.as_str()),
            integer_param(summary.qty),
        ],
    )
}

/// Sets the number of shares (HS_QTY), below 0 if they were sold short.
pub fn set_summary_quantity<S: Alter>(
    tx: &mut Transaction<'_, S>,
    summary: &SummaryRow,
) -> Result<(), StoreFailed>
    ensures same_reference { tx.new.conn.ghost_name ≡ tx.old.conn.ghost_name }
    ensures step { WritesDeskTables S.Store tx.old tx.new result (tables_with_summary_quantity (abstract_summary_row summary.now)) }
{
    execute_statement(
        tx,
        "UPDATE HOLDING_SUMMARY SET HS_QTY = ?1 WHERE HS_CA_ID = ?2 AND HS_S_SYMB = ?3",
        &[
            integer_param(summary.qty),
            id_param(summary.account),
            text_param(summary.symbol.as_str()),
        ],
    )
}

pub fn remove_holding_summary<S: Alter>(
    tx: &mut Transaction<'_, S>,
    account: Id,
    symbol: &Symbol,
) -> Result<(), StoreFailed>
    ensures same_reference { tx.new.conn.ghost_name ≡ tx.old.conn.ghost_name }
    ensures step { WritesDeskTables S.Store tx.old tx.new result (tables_without_summary account symbol.now) }
{
    execute_statement(
        tx,
        "DELETE FROM HOLDING_SUMMARY WHERE HS_CA_ID = ?1 AND HS_S_SYMB = ?2",
        &[id_param(account), text_param(symbol.as_str())],
    )
}

/// Returns the number of shares of each security that an account holds, sorted by symbol,
/// ascending.
pub fn account_summaries<S: Alter>(
    tx: &mut Transaction<'_, S>,
    alloc: Global,
    account: Id,
) -> Result<Vec<SummaryRow>, CallFault>
    ensures same_reference { tx.new.conn.ghost_name ≡ tx.old.conn.ghost_name }
    ensures step { ReadsMatchingRows S.Store tx.old tx.new result Summaries abstract_summary_row (λ r. r.account == account) }
{
    let rows = select_rows(
        tx,
        "SELECT HS_CA_ID, HS_S_SYMB, HS_QTY FROM HOLDING_SUMMARY WHERE HS_CA_ID = ?1 ORDER BY HS_CA_ID, HS_S_SYMB",
        &[id_param(account)],
    )?;
    decode_rows(alloc, &rows)
}

/// Returns the number of shares of a security that an account holds, below 0 if sold short.
pub fn position_summary<S: Alter>(
    tx: &mut Transaction<'_, S>,
    account: Id,
    symbol: &Symbol,
) -> Result<Option<SummaryRow>, StoreFailed>
    ensures same_reference { tx.new.conn.ghost_name ≡ tx.old.conn.ghost_name }
    ensures step { ReadsFirstMatch S.Store tx.old tx.new result Summaries abstract_summary_row (λ r. (r.account == account) && bytes_eq r.symbol symbol.now) }
{
    let rows = select_rows(
        tx,
        "SELECT HS_CA_ID, HS_S_SYMB, HS_QTY FROM HOLDING_SUMMARY WHERE HS_CA_ID = ?1 AND HS_S_SYMB = ?2 ORDER BY HS_CA_ID, HS_S_SYMB",
        &[id_param(account), text_param(symbol.as_str())],
    )?;
    decode_first_row(&rows)
}
