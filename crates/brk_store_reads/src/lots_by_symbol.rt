//! The lots of an account: read by their ages, and sorted by symbol.

ghost use Rattle.std.specs.Prelude.{◌≡◌, ◌==◌, OnOk, Some, false, map};
ghost use Rattle.std.specs.Option.{option_copied};
ghost use Rattle.std.specs.Ordering.{is_lt};
ghost use Rattle.brk_model.specs.Keys.{is_row_key_less, rows_sorted_by_key};
ghost use Rattle.brk_ref.specs.Rows.{abstract_holding_row};
ghost use Rattle.brk_store_index.specs.Ages.{ages_in};
ghost use Rattle.brk_store_index.specs.Index.{lot_of_account_by_age};
ghost use Rattle.brk_store_reads.specs.RowsOfAccounts.{AreLotsBySymbol};
ghost use Rattle.brk_store_transactions.specs.Holds.{ReadPost};
ghost use Rattle.brk_tables_schema.specs.Desk.{Holdings};
ghost use Rattle.brk_tables_schema.specs.Statements.{IsFirstMatch};
ghost use Rattle.brk_tables_views.specs.Lists.{lot_sort_key};

use crate::by_age::{RowsByAge, read_all_rows};
use brk_money::{CallFault, Id, StoreFailed};
use brk_ref::HoldingRow;
use brk_store_index::RowAge;
use brk_store_transactions::begin_transaction;
use sqlite::{Alter, Connection};
use std::alloc::{AllocError, Global};
use std::cmp::Ordering;
use std::collections::VecDeque;

/// The lot that a trade opened.
#[tactic(auto, using(brk_store_transactions::proofs::Ending::read_is_over))]
pub fn read_lot_by_trade<S: Alter>(
    conn: &mut Connection<S>,
    trade: Id,
) -> Result<Option<HoldingRow>, StoreFailed>
    requires { conn.old.in_transaction ≡ false }
    ensures mode { conn.new.in_transaction ≡ false }
    ensures read { ReadPost S.Store conn.old conn.new result (IsFirstMatch Holdings abstract_holding_row (λ r. r.trade == trade)) }
{
    let mut tx = begin_transaction(conn);
    brk_tables_trading::lot_by_trade(&mut tx, trade)
}

fn is_lot_of_account(row: &HoldingRow, account: Id) -> bool
    ensures { result ≡ (row.now.account == account) }
{
    row.account == account
}

/// The lots of an account. An age has the stamp 0, and the opening trade.
#[derive(Clone, Copy)]
pub struct LotsOfAccount {
    pub account: Id,
}

impl<S: Alter> RowsByAge<S, HoldingRow> for LotsOfAccount {
    ghost found = { λ group age row t. Some (abstract_holding_row row) ≡ lot_of_account_by_age t.holdings group.account age };

    fn row_of_age(
        &self,
        conn: &mut Connection<S>,
        age: &RowAge,
    ) -> Result<HoldingRow, StoreFailed> {
        let Some(row) = read_lot_by_trade(conn, age.id)? else {
            return Err(StoreFailed);
        };
        if !is_lot_of_account(&row, self.account) {
            return Err(StoreFailed);
        }
        Ok(row)
    }
}

// By symbol, then by the stamp of the opening, then by the opening trade.
fn lot_order(one: &HoldingRow, other: &HoldingRow) -> Ordering
    ensures { is_lt result ≡ is_row_key_less lot_sort_key (abstract_holding_row one.now) (abstract_holding_row other.now) }
{
    let symbols = one.symbol.as_str().cmp(other.symbol.as_str());
    let stamps = one
        .stamp
        .get()
        .unsigned_abs()
        .cmp(&other.stamp.get().unsigned_abs());
    let trades = one.trade.get().cmp(&other.trade.get());
    symbols.then(stamps.then(trades))
}

fn sort_lots(lots: &mut Vec<HoldingRow>) -> Result<(), AllocError>
    ensures { OnOk result (map abstract_holding_row lots.new.items ≡ rows_sorted_by_key lot_sort_key (map abstract_holding_row lots.old.items)) }
{
    lots.sort_by(|one, other| lot_order(one, other))
}

/// Returns the lots of an account, sorted by symbol, by the stamp of their opening and by the
/// opening trade, all ascending.
pub fn read_lots_by_symbol<S: Alter>(
    conn: &mut Connection<S>,
    alloc: Global,
    account: Id,
    ages: Option<&VecDeque<RowAge>>,
) -> Result<Vec<HoldingRow>, CallFault>
    requires { conn.old.in_transaction ≡ false }
    ensures mode { conn.new.in_transaction ≡ false }
    ensures read { ReadPost S.Store conn.old conn.new result (λ lots t. AreLotsBySymbol t.holdings account (ages_in (option_copied ages.entry)) lots.items) }
{
    let mut lots = read_all_rows(conn, alloc, &LotsOfAccount { account }, ages)?;
    sort_lots(&mut lots)?;
    Ok(lots)
}
