//! Writes of the lots of accounts (HOLDING), and of their changes by trades (HOLDING_HISTORY); the
//! reads of lots are in `holdings`.

ghost use Rattle.std.specs.Prelude.{◌≡◌};
ghost use Rattle.brk_trade_rows.specs.Changes.{tables_with_lot, tables_with_lot_change, tables_with_lot_quantity, tables_without_lot};
ghost use Rattle.brk_ref.specs.Rows.{abstract_holding_row, abstract_lot_change_row};
ghost use Rattle.brk_tables_schema.specs.Statements.{WritesDeskTables};

use brk_money::{Id, StoreFailed};
use brk_ref::{HoldingRow, LotChange};
use brk_tables_schema::calls::execute_statement;
use brk_tables_schema::values::{id_param, integer_param, price_param, stamp_param, text_param};
use sqlite::{Alter, Transaction};

/// Inserts the lot that a trade opened (HOLDING).
pub fn add_lot<S: Alter>(tx: &mut Transaction<'_, S>, lot: &HoldingRow) -> Result<(), StoreFailed>
    ensures same_reference { tx.new.conn.ghost_name ≡ tx.old.conn.ghost_name }
    ensures step { WritesDeskTables S.Store tx.old tx.new result (tables_with_lot (abstract_holding_row lot.now)) }
{
    execute_statement(
        tx,
        "INSERT INTO HOLDING (H_T_ID, H_CA_ID, H_S_SYMB, H_DTS, H_PRICE, H_QTY) VALUES (?1, ?2, ?3, ?4, ?5, ?6)",
        &[
            id_param(lot.trade),
            id_param(lot.account),
            text_param(lot.symbol.as_str()),
            stamp_param(lot.stamp),
            price_param(lot.price),
            integer_param(lot.qty),
        ],
    )
}

/// Sets the number of shares of the lot that a trade opened (H_QTY), below 0 if they were sold
/// short.
pub fn set_lot_quantity<S: Alter>(
    tx: &mut Transaction<'_, S>,
    trade: Id,
    qty: i64,
) -> Result<(), StoreFailed>
    ensures same_reference { tx.new.conn.ghost_name ≡ tx.old.conn.ghost_name }
    ensures step { WritesDeskTables S.Store tx.old tx.new result (tables_with_lot_quantity trade qty) }
{
    execute_statement(
        tx,
        "UPDATE HOLDING SET H_QTY = ?1 WHERE H_T_ID = ?2",
        &[integer_param(qty), id_param(trade)],
    )
}

/// Deletes the lot that a trade opened.
pub fn remove_lot<S: Alter>(tx: &mut Transaction<'_, S>, trade: Id) -> Result<(), StoreFailed>
    ensures same_reference { tx.new.conn.ghost_name ≡ tx.old.conn.ghost_name }
    ensures step { WritesDeskTables S.Store tx.old tx.new result (tables_without_lot trade) }
{
    execute_statement(
        tx,
        "DELETE FROM HOLDING WHERE H_T_ID = ?1",
        &[id_param(trade)],
    )
}

/// Inserts the change that a trade made to a lot: the lot's number of shares before and after it
/// (HOLDING_HISTORY).
pub fn add_lot_change<S: Alter>(
    tx: &mut Transaction<'_, S>,
    change: &LotChange,
) -> Result<(), StoreFailed>
    ensures same_reference { tx.new.conn.ghost_name ≡ tx.old.conn.ghost_name }
    ensures step { WritesDeskTables S.Store tx.old tx.new result (tables_with_lot_change (abstract_lot_change_row change.now)) }
{
    execute_statement(
        tx,
        "INSERT INTO HOLDING_HISTORY (HH_H_T_ID, HH_T_ID, HH_BEFORE_QTY, HH_AFTER_QTY) VALUES (?1, ?2, ?3, ?4)",
        &[
            id_param(change.lot),
            id_param(change.trade),
            integer_param(change.before),
            integer_param(change.after),
        ],
    )
}
