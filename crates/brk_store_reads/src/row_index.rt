//! The index of rows in memory, made of what the tables have.

ghost use Rattle.std.specs.Prelude.{◌≡◌, false, map};
ghost use Rattle.brk_ref.specs.Records.{abstract_account_row, abstract_last_trade_row};
ghost use Rattle.brk_ref.specs.Rows.{abstract_cash_row, abstract_holding_row, abstract_lot_change_row, abstract_trade_row};
ghost use Rattle.brk_store_index.specs.Index.{IsIndexOf};
ghost use Rattle.brk_store_index.specs.Terms.{AreTermsOf};
ghost use Rattle.brk_store_transactions.specs.Holds.{ReadPost};

use crate::terms::read_terms;
use brk_money::CallFault;
use brk_ref::{AccountRow, CashRow, HoldingRow, LastTrade, LotChange, TradeRow};
use brk_store_index::{RowIndex, Terms};
use brk_store_transactions::begin_transaction;
use sqlite::{Alter, Connection};
use std::alloc::Global;

#[tactic(auto, using(brk_store_transactions::proofs::Ending::read_is_over))]
fn read_all_lots<S: Alter>(
    conn: &mut Connection<S>,
    alloc: Global,
) -> Result<Vec<HoldingRow>, CallFault>
    requires { conn.old.in_transaction ≡ false }
    ensures mode { conn.new.in_transaction ≡ false }
    ensures read { ReadPost S.Store conn.old conn.new result (λ all t. map abstract_holding_row all.items ≡ t.holdings) }
{
    let mut tx = begin_transaction(conn);
    brk_tables_trading::all_lots(&mut tx, alloc)
}

#[tactic(auto, using(brk_store_transactions::proofs::Ending::read_is_over))]
fn read_all_trades<S: Alter>(
    conn: &mut Connection<S>,
    alloc: Global,
) -> Result<Vec<TradeRow>, CallFault>
    requires { conn.old.in_transaction ≡ false }
    ensures mode { conn.new.in_transaction ≡ false }
    ensures read { ReadPost S.Store conn.old conn.new result (λ all t. map abstract_trade_row all.items ≡ t.trades) }
{
    let mut tx = begin_transaction(conn);
    brk_tables_trading::all_trades(&mut tx, alloc)
}

#[tactic(auto, using(brk_store_transactions::proofs::Ending::read_is_over))]
fn read_all_accounts<S: Alter>(
    conn: &mut Connection<S>,
    alloc: Global,
) -> Result<Vec<AccountRow>, CallFault>
    requires { conn.old.in_transaction ≡ false }
    ensures mode { conn.new.in_transaction ≡ false }
    ensures read { ReadPost S.Store conn.old conn.new result (λ all t. map abstract_account_row all.items ≡ t.accounts) }
{
    let mut tx = begin_transaction(conn);
    brk_tables_reference::all_accounts(&mut tx, alloc)
}

#[tactic(auto, using(brk_store_transactions::proofs::Ending::read_is_over))]
fn read_all_lot_changes<S: Alter>(
    conn: &mut Connection<S>,
    alloc: Global,
) -> Result<Vec<LotChange>, CallFault>
    requires { conn.old.in_transaction ≡ false }
    ensures mode { conn.new.in_transaction ≡ false }
    ensures read { ReadPost S.Store conn.old conn.new result (λ all t. map abstract_lot_change_row all.items ≡ t.holding_history) }
{
    let mut tx = begin_transaction(conn);
    brk_tables_views::all_lot_changes(&mut tx, alloc)
}

#[tactic(auto, using(brk_store_transactions::proofs::Ending::read_is_over))]
fn read_all_cash_rows<S: Alter>(
    conn: &mut Connection<S>,
    alloc: Global,
) -> Result<Vec<CashRow>, CallFault>
    requires { conn.old.in_transaction ≡ false }
    ensures mode { conn.new.in_transaction ≡ false }
    ensures read { ReadPost S.Store conn.old conn.new result (λ all t. map abstract_cash_row all.items ≡ t.moves) }
{
    let mut tx = begin_transaction(conn);
    brk_tables_cash::all_cash_rows(&mut tx, alloc)
}

#[tactic(auto, using(brk_store_transactions::proofs::Ending::read_is_over))]
fn read_all_last_trades<S: Alter>(
    conn: &mut Connection<S>,
    alloc: Global,
) -> Result<Vec<LastTrade>, CallFault>
    requires { conn.old.in_transaction ≡ false }
    ensures mode { conn.new.in_transaction ≡ false }
    ensures read { ReadPost S.Store conn.old conn.new result (λ all t. map abstract_last_trade_row all.items ≡ t.last_trades) }
{
    let mut tx = begin_transaction(conn);
    brk_tables_trading::all_last_trades(&mut tx, alloc)
}

fn read_index_with_terms<S: Alter>(
    conn: &mut Connection<S>,
    alloc: Global,
    terms: Terms,
) -> Result<RowIndex, CallFault>
    requires { conn.old.in_transaction ≡ false }
    ensures mode { conn.new.in_transaction ≡ false }
    ensures read { ReadPost S.Store conn.old conn.new result (λ index t. AreTermsOf terms t → IsIndexOf index t) }
{
    let lots = read_all_lots(conn, alloc)?;
    let trades = read_all_trades(conn, alloc)?;
    let accounts = read_all_accounts(conn, alloc)?;
    let changes = read_all_lot_changes(conn, alloc)?;
    let cash = read_all_cash_rows(conn, alloc)?;
    let last_trades = read_all_last_trades(conn, alloc)?;
    match RowIndex::of_rows(
        alloc,
        &lots,
        &trades,
        &accounts,
        &changes,
        &cash,
        &last_trades,
        terms,
    ) {
        Ok(index) => Ok(index),
        Err(_) => Err(CallFault::Memory),
    }
}

/// Returns the index of all rows of the tables that it is made of. Fails with `Memory` also if two
/// rows of a table have one key, or if a cash row has a number greater than any id.
pub fn read_row_index<S: Alter>(
    conn: &mut Connection<S>,
    alloc: Global,
) -> Result<RowIndex, CallFault>
    requires { conn.old.in_transaction ≡ false }
    ensures mode { conn.new.in_transaction ≡ false }
    ensures read { ReadPost S.Store conn.old conn.new result IsIndexOf }
{
    let terms = read_terms(conn, alloc)?;
    read_index_with_terms(conn, alloc, terms)
}
