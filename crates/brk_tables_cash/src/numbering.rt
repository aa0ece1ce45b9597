//! The insertion of the cash rows of schema 1 into CASH_MOVE, under numbers.

ghost use Rattle.std.specs.Prelude.{◌≡◌, map};
ghost use Rattle.brk_ref.specs.Rows.{abstract_old_cash_row};
ghost use Rattle.brk_tables_schema.specs.Statements.{WritesDeskTables};
ghost use Rattle.brk_tables_cash.specs.Upgrade.{tables_with_cash_rows_numbered_from, tables_with_numbered_cash_row};

use crate::moves::add_cash_row;
use crate::upgrade_reads::account_id_of_trade;
use brk_money::{CallFault, MoveId};
use brk_ref::{CashRow, OldCashRow};
use sqlite::{Alter, Transaction};

// The new row has the account of its trade; the fault is `Store` if the trade does not exist.
fn add_numbered_cash_row<S: Alter>(
    tx: &mut Transaction<'_, S>,
    id: MoveId,
    row: &OldCashRow,
) -> Result<(), CallFault>
    ensures same_reference { tx.new.conn.ghost_name ≡ tx.old.conn.ghost_name }
    ensures step { WritesDeskTables S.Store tx.old tx.new result (tables_with_numbered_cash_row id (abstract_old_cash_row row.now)) }
{
    let Some(account) = account_id_of_trade(tx, row.trade)? else {
        return Err(CallFault::Store);
    };
    let numbered = CashRow {
        id,
        account,
        trade: Some(row.trade),
        stamp: row.stamp,
        amount: row.amount,
        name: row.name.clone()?,
    };
    Ok(add_cash_row(tx, &numbered)?)
}

/// Inserts rows of CASH_TRANSACTION into CASH_MOVE, in order, numbered from 1, with the accounts of
/// their trades. Fails with `Store` also if a trade does not exist or a number exceeds the greatest
/// `MoveId`. After an error, the rows before the one that failed may be inserted.
pub fn add_numbered_cash_rows<S: Alter>(
    tx: &mut Transaction<'_, S>,
    rows: &[OldCashRow],
) -> Result<(), CallFault>
    ensures same_reference { tx.new.conn.ghost_name ≡ tx.old.conn.ghost_name }
    ensures step { WritesDeskTables S.Store tx.old tx.new result (tables_with_cash_rows_numbered_from 1 (map abstract_old_cash_row rows.now)) }
{
    let mut number: u64 = 1;
    for row in rows {
        let Some(id) = MoveId::new(number) else {
            return Err(CallFault::Store);
        };
        add_numbered_cash_row(tx, id, row)?;
        number = id.get() + 1;
    }
    Ok(())
}
