//! Lot changes: rows of HOLDING_HISTORY, sorted by lot and then by trade.

ghost use Rattle.std.specs.Prelude.{◌≡◌, ◌==◌, ◌&&◌, map};
ghost use Rattle.brk_ref.specs.Rows.{abstract_lot_change_row};
ghost use Rattle.brk_tables_schema.specs.Desk.{HoldingHistory};
ghost use Rattle.brk_tables_schema.specs.Statements.{ReadsDeskTables, ReadsFirstMatch, ReadsMatchingRows};

use brk_money::{CallFault, Id, StoreFailed};
use brk_ref::LotChange;
use brk_tables_schema::calls::select_rows;
use brk_tables_schema::record::{decode_first_row, decode_rows};
use brk_tables_schema::values::id_param;
use sqlite::{Alter, Transaction};
use std::alloc::Global;

/// Returns all lot changes.
pub fn all_lot_changes<S: Alter>(
    tx: &mut Transaction<'_, S>,
    alloc: Global,
) -> Result<Vec<LotChange>, CallFault>
    ensures same_reference { tx.new.conn.ghost_name ≡ tx.old.conn.ghost_name }
    ensures step { ReadsDeskTables S.Store tx.old tx.new result (λ all t. map abstract_lot_change_row all.items ≡ t.holding_history) }
{
    let rows = select_rows(
        tx,
        "SELECT HH_H_T_ID, HH_T_ID, HH_BEFORE_QTY, HH_AFTER_QTY FROM HOLDING_HISTORY ORDER BY HH_H_T_ID, HH_T_ID",
        &[],
    )?;
    decode_rows(alloc, &rows)
}

/// Returns the change that a trade made to the lot that the trade `lot` opened, or `None` if there
/// is none.
pub fn lot_change_by_key<S: Alter>(
    tx: &mut Transaction<'_, S>,
    lot: Id,
    trade: Id,
) -> Result<Option<LotChange>, StoreFailed>
    ensures same_reference { tx.new.conn.ghost_name ≡ tx.old.conn.ghost_name }
    ensures step { ReadsFirstMatch S.Store tx.old tx.new result HoldingHistory abstract_lot_change_row (λ r. (r.lot == lot) && (r.trade == trade)) }
{
    let rows = select_rows(
        tx,
        "SELECT HH_H_T_ID, HH_T_ID, HH_BEFORE_QTY, HH_AFTER_QTY FROM HOLDING_HISTORY WHERE HH_H_T_ID = ?1 AND HH_T_ID = ?2 ORDER BY HH_H_T_ID, HH_T_ID",
        &[id_param(lot), id_param(trade)],
    )?;
    decode_first_row(&rows)
}

/// Returns all changes that a trade made to lots, sorted by the id of the trade that opened the
/// lot, ascending.
pub fn lot_changes_by_trade<S: Alter>(
    tx: &mut Transaction<'_, S>,
    alloc: Global,
    trade: Id,
) -> Result<Vec<LotChange>, CallFault>
    ensures same_reference { tx.new.conn.ghost_name ≡ tx.old.conn.ghost_name }
    ensures step { ReadsMatchingRows S.Store tx.old tx.new result HoldingHistory abstract_lot_change_row (λ r. r.trade == trade) }
{
    let rows = select_rows(
        tx,
        "SELECT HH_H_T_ID, HH_T_ID, HH_BEFORE_QTY, HH_AFTER_QTY FROM HOLDING_HISTORY WHERE HH_T_ID = ?1 ORDER BY HH_H_T_ID, HH_T_ID",
        &[id_param(trade)],
    )?;
    decode_rows(alloc, &rows)
}

/// Returns all changes of the lot that the trade `lot` opened, sorted by the id of the trade that
/// made the change, ascending.
pub fn lot_changes_of_lot<S: Alter>(
    tx: &mut Transaction<'_, S>,
    alloc: Global,
    lot: Id,
) -> Result<Vec<LotChange>, CallFault>
    ensures same_reference { tx.new.conn.ghost_name ≡ tx.old.conn.ghost_name }
    ensures step { ReadsMatchingRows S.Store tx.old tx.new result HoldingHistory abstract_lot_change_row (λ r. r.lot == lot) }
{
    let rows = select_rows(
        tx,
        "SELECT HH_H_T_ID, HH_T_ID, HH_BEFORE_QTY, HH_AFTER_QTY FROM HOLDING_HISTORY WHERE HH_H_T_ID = ?1 ORDER BY HH_H_T_ID, HH_T_ID",
        &[id_param(lot)],
    )?;
    decode_rows(alloc, &rows)
}
