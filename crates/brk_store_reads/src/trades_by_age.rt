//! Trades that are read by their ages: those of an account, of a symbol, and the submitted ones.

ghost use Rattle.std.specs.Prelude.{◌≡◌, ◌==◌, ◌&&◌, Some, bytes_eq, false, true};
ghost use Rattle.std.specs.Option.{option_copied};
ghost use Rattle.brk_money.specs.Kinds.{is_same_trade_status};
ghost use Rattle.brk_money.specs.declared.status.Status.TheVariants.{Submitted};
ghost use Rattle.brk_ref.specs.Rows.{abstract_trade_row};
ghost use Rattle.brk_store_index.specs.Ages.{ages_in};
ghost use Rattle.brk_store_index.specs.Index.{row_of_age, trade_of_age};
ghost use Rattle.brk_store_reads.specs.RowsByAge.{AreFirstTwentyBetween};
ghost use Rattle.brk_store_transactions.specs.Holds.{ReadPost};
ghost use Rattle.brk_tables_schema.specs.Desk.{Trades};
ghost use Rattle.brk_tables_schema.specs.Statements.{IsFirstMatch};

use crate::by_age::{RowsByAge, read_chosen_rows};
use crate::chosen_ages::places_of_span;
use brk_money::{CallFault, Id, Stamp, Status, StoreFailed};
use brk_ref::{Symbol, TradeRow};
use brk_store_index::RowAge;
use brk_store_transactions::begin_transaction;
use sqlite::{Alter, Connection};
use std::alloc::Global;
use std::collections::VecDeque;

#[tactic(auto, using(brk_store_transactions::proofs::Ending::read_is_over))]
fn read_trade_by_id<S: Alter>(
    conn: &mut Connection<S>,
    id: Id,
) -> Result<Option<TradeRow>, StoreFailed>
    requires { conn.old.in_transaction ≡ false }
    ensures mode { conn.new.in_transaction ≡ false }
    ensures read { ReadPost S.Store conn.old conn.new result (IsFirstMatch Trades abstract_trade_row (λ r. r.id == id)) }
{
    let mut tx = begin_transaction(conn);
    brk_tables_trading::trade_by_id(&mut tx, id)
}

// The trade must also have the stamp.
fn is_trade_of_account(row: &TradeRow, account: Id, stamp: Stamp) -> bool
    ensures { result ≡ ((row.now.account == account) && (row.now.stamp == stamp)) }
{
    row.account == account && row.stamp == stamp
}

/// The trades of an account. An age has the stamp of the last status.
#[derive(Clone, Copy)]
pub struct TradesOfAccount {
    pub account: Id,
}

impl<S: Alter> RowsByAge<S, TradeRow> for TradesOfAccount {
    ghost found = { λ group age row t. Some (abstract_trade_row row) ≡ trade_of_age (λ r. r.account == group.account) t.trades age };

    fn row_of_age(&self, conn: &mut Connection<S>, age: &RowAge) -> Result<TradeRow, StoreFailed> {
        let Some(row) = read_trade_by_id(conn, age.id)? else {
            return Err(StoreFailed);
        };
        if !is_trade_of_account(&row, self.account, age.stamp) {
            return Err(StoreFailed);
        }
        Ok(row)
    }
}

// The trade must also have the stamp.
fn is_trade_of_symbol(row: &TradeRow, symbol: &Symbol, stamp: Stamp) -> bool
    ensures { result ≡ (bytes_eq row.now.symbol symbol.now && (row.now.stamp == stamp)) }
{
    row.symbol.as_str() == symbol.as_str() && row.stamp == stamp
}

/// The trades in a security. An age has the stamp of the last status.
#[derive(Clone, Copy)]
pub struct TradesOfSymbol<'a> {
    pub symbol: &'a Symbol,
}

impl<S: Alter> RowsByAge<S, TradeRow> for TradesOfSymbol<'_> {
    ghost found = { λ group age row t. Some (abstract_trade_row row) ≡ trade_of_age (λ r. bytes_eq r.symbol group.symbol.now) t.trades age };

    fn row_of_age(&self, conn: &mut Connection<S>, age: &RowAge) -> Result<TradeRow, StoreFailed> {
        let Some(row) = read_trade_by_id(conn, age.id)? else {
            return Err(StoreFailed);
        };
        if !is_trade_of_symbol(&row, self.symbol, age.stamp) {
            return Err(StoreFailed);
        }
        Ok(row)
    }
}

fn is_submitted(row: &TradeRow) -> bool
    ensures { result ≡ is_same_trade_status row.now.status Submitted }
{
    row.status == Status::Submitted
}

/// The trades with the status submitted. An age has the stamp 0.
#[derive(Clone, Copy)]
pub struct SubmittedTrades;

impl<S: Alter> RowsByAge<S, TradeRow> for SubmittedTrades {
    ghost found = { λ group age row t. Some (abstract_trade_row row) ≡ row_of_age (λ r. r.id) (λ a r. is_same_trade_status r.status Submitted) t.trades age };

    fn row_of_age(&self, conn: &mut Connection<S>, age: &RowAge) -> Result<TradeRow, StoreFailed> {
        let Some(row) = read_trade_by_id(conn, age.id)? else {
            return Err(StoreFailed);
        };
        if !is_submitted(&row) {
            return Err(StoreFailed);
        }
        Ok(row)
    }
}

/// Reads the oldest twenty trades of a group whose stamps are from `first` to `last`, both included.
pub fn read_twenty_between<S: Alter, K: RowsByAge<S, TradeRow>>(
    conn: &mut Connection<S>,
    alloc: Global,
    kind: &K,
    ages: Option<&VecDeque<RowAge>>,
    first: Stamp,
    last: Stamp,
) -> Result<Vec<TradeRow>, CallFault>
    requires { conn.old.in_transaction ≡ false }
    ensures mode { conn.new.in_transaction ≡ false }
    ensures read { ReadPost S.Store conn.old conn.new result (λ rows t.
        AreFirstTwentyBetween (λ age row. K.found kind.now age row t) first last (ages_in (option_copied ages.entry)) rows.items) }
{
    let (from, until) = places_of_span(ages, first, last);
    let most = until.saturating_sub(from).min(20);
    read_chosen_rows(conn, alloc, kind, ages, false, from, most)
}
