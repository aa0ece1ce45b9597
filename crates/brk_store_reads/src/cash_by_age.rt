//! The cash rows of an account in a span: read by their ages.

ghost use Rattle.std.specs.Prelude.{◌≡◌, ◌==◌, ◌&&◌, Some, false};
ghost use Rattle.std.specs.Option.{option_copied};
ghost use Rattle.brk_ref.specs.Rows.{abstract_cash_row};
ghost use Rattle.brk_store_index.specs.Ages.{ages_in};
ghost use Rattle.brk_store_index.specs.Index.{cash_row_of_age};
ghost use Rattle.brk_store_reads.specs.RowsOfAccounts.{AreCashRowsBetween};
ghost use Rattle.brk_store_transactions.specs.Holds.{ReadPost};
ghost use Rattle.brk_tables_schema.specs.Desk.{CashMoves};
ghost use Rattle.brk_tables_schema.specs.Statements.{IsFirstMatch};

use crate::by_age::{RowsByAge, read_chosen_rows};
use crate::chosen_ages::places_of_span;
use brk_money::{CallFault, Id, MoveId, Stamp, StoreFailed};
use brk_ref::CashRow;
use brk_store_index::RowAge;
use brk_store_transactions::begin_transaction;
use sqlite::{Alter, Connection};
use std::alloc::Global;
use std::collections::VecDeque;

#[tactic(auto, using(brk_store_transactions::proofs::Ending::read_is_over))]
fn read_cash_row_by_id<S: Alter>(
    conn: &mut Connection<S>,
    id: MoveId,
) -> Result<Option<CashRow>, StoreFailed>
    requires { conn.old.in_transaction ≡ false }
    ensures mode { conn.new.in_transaction ≡ false }
    ensures read { ReadPost S.Store conn.old conn.new result (IsFirstMatch CashMoves abstract_cash_row (λ r. r.id == id)) }
{
    let mut tx = begin_transaction(conn);
    brk_tables_cash::cash_row_by_id(&mut tx, id)
}

// The cash row must also have the stamp.
fn is_cash_row_of_account(row: &CashRow, account: Id, stamp: Stamp) -> bool
    ensures { result ≡ ((row.now.account == account) && (row.now.stamp == stamp)) }
{
    row.account == account && row.stamp == stamp
}

/// The cash rows of an account. An age has the stamp of the row, and its number.
#[derive(Clone, Copy)]
pub struct CashRowsOfAccount {
    pub account: Id,
}

impl<S: Alter> RowsByAge<S, CashRow> for CashRowsOfAccount {
    ghost found = { λ group age row t. Some (abstract_cash_row row) ≡ cash_row_of_age t.moves group.account age };

    fn row_of_age(&self, conn: &mut Connection<S>, age: &RowAge) -> Result<CashRow, StoreFailed> {
        let Some(id) = MoveId::new(age.id.get()) else {
            return Err(StoreFailed);
        };
        let Some(row) = read_cash_row_by_id(conn, id)? else {
            return Err(StoreFailed);
        };
        if !is_cash_row_of_account(&row, self.account, age.stamp) {
            return Err(StoreFailed);
        }
        Ok(row)
    }
}

/// Returns the cash rows of an account with stamps from `first` to `last`, both included, sorted by
/// stamp and then by number, ascending.
pub fn read_cash_rows_between<S: Alter>(
    conn: &mut Connection<S>,
    alloc: Global,
    account: Id,
    ages: Option<&VecDeque<RowAge>>,
    first: Stamp,
    last: Stamp,
) -> Result<Vec<CashRow>, CallFault>
    requires { conn.old.in_transaction ≡ false }
    ensures mode { conn.new.in_transaction ≡ false }
    ensures read { ReadPost S.Store conn.old conn.new result (λ rows t. AreCashRowsBetween t.moves account first last (ages_in (option_copied ages.entry)) rows.items) }
{
    let (from, until) = places_of_span(ages, first, last);
    let most = until.saturating_sub(from);
    read_chosen_rows(
        conn,
        alloc,
        &CashRowsOfAccount { account },
        ages,
        false,
        from,
        most,
    )
}
