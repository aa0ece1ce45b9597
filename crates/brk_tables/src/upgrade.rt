//! The upgrade of the tables of an older schema to schema 3.

ghost use Rattle.std.specs.Prelude.{◌≡◌, true};
ghost use Rattle.brk_trade_rows.specs.Schemas.{abstract_schema};
ghost use Rattle.brk_tables_sql.specs.Model.{IsConnectionStep};
ghost use Rattle.brk_tables_schema.specs.Statements.{WritesDeskTables};
ghost use Rattle.brk_tables_cash.specs.Upgrade.{AddsTablesOfLaterSchemas, UpgradesTables, tables_with_cash_transactions_moved};

use crate::create_later_tables;
use brk_money::{CallFault, StoreFailed};
use brk_tables_cash::numbering::add_numbered_cash_rows;
use brk_tables_cash::ordering::sort_by_stamp;
use brk_tables_cash::upgrade_reads::all_cash_transactions;
use brk_tables_cash::upgrade_statements::{remove_cash_transactions, set_third_schema};
use brk_trade_rows::Schema;
use sqlite::{Alter, Transaction};
use std::alloc::Global;

// Creates the tables that `schema` lacks and sets the number of the schema to 3. Moves no rows.
fn raise_schema<S: Alter>(tx: &mut Transaction<'_, S>, schema: Schema) -> Result<(), StoreFailed>
    ensures same_reference { tx.new.conn.ghost_name ≡ tx.old.conn.ghost_name }
    ensures step { IsConnectionStep S.Store tx.old tx.new result (λ _ a b. AddsTablesOfLaterSchemas (abstract_schema schema) a.now b.now) }
{
    create_later_tables(tx, schema)?;
    set_third_schema(tx)
}

// Deletes no row before all are inserted.
fn move_cash_transactions<S: Alter>(
    tx: &mut Transaction<'_, S>,
    alloc: Global,
) -> Result<(), CallFault>
    ensures same_reference { tx.new.conn.ghost_name ≡ tx.old.conn.ghost_name }
    ensures step { WritesDeskTables S.Store tx.old tx.new result tables_with_cash_transactions_moved }
{
    let found = all_cash_transactions(tx, alloc)?;
    let rows = sort_by_stamp(found)?;
    add_numbered_cash_rows(tx, &rows)?;
    Ok(remove_cash_transactions(tx)?)
}

/// Upgrades the tables of `schema`, with any rows, to schema 3: creates the missing tables, sets
/// the number of the schema, and for schema 1 moves the rows of CASH_TRANSACTION to CASH_MOVE,
/// numbered from 1 by stamp and then by trade, both ascending. Fails also if one of these rows is
/// malformed or its trade does not exist; a part of the changes may then be made in the
/// transaction.
///
/// The effect is specified only if the tables of `schema` exist, and none that a later schema adds.
pub fn upgrade_tables<S: Alter>(
    tx: &mut Transaction<'_, S>,
    alloc: Global,
    schema: Schema,
) -> Result<(), CallFault>
    ensures same_reference { tx.new.conn.ghost_name ≡ tx.old.conn.ghost_name }
    ensures step { IsConnectionStep S.Store tx.old tx.new result (λ _ a b. UpgradesTables (abstract_schema schema) a.now b.now) }
{
    raise_schema(tx, schema)?;
    if schema.has_cash_move_table() {
        return Ok(());
    }
    move_cash_transactions(tx, alloc)
}
