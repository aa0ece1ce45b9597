//! Accounts of a customer and lot changes of a trade that are read by their ages.

ghost use Rattle.std.specs.Prelude.{◌≡◌, ◌==◌, ◌&&◌, Some, false, find};
ghost use Rattle.brk_ref.specs.Records.{abstract_account_row};
ghost use Rattle.brk_ref.specs.Rows.{abstract_lot_change_row};
ghost use Rattle.brk_model.specs.Tables.{HoldingHistoryRow};
ghost use Rattle.brk_store_index.specs.Index.{row_of_age};
ghost use Rattle.brk_store_transactions.specs.Holds.{ReadPost};
ghost use Rattle.brk_tables_schema.specs.Desk.{Accounts, HoldingHistory};
ghost use Rattle.brk_tables_schema.specs.Statements.{IsFirstMatch};

use crate::by_age::RowsByAge;
use brk_money::{Id, StoreFailed};
use brk_ref::{AccountRow, LotChange};
use brk_store_index::RowAge;
use brk_store_transactions::begin_transaction;
use sqlite::{Alter, Connection};

#[tactic(auto, using(brk_store_transactions::proofs::Ending::read_is_over))]
fn read_account_by_id<S: Alter>(
    conn: &mut Connection<S>,
    id: Id,
) -> Result<Option<AccountRow>, StoreFailed>
    requires { conn.old.in_transaction ≡ false }
    ensures mode { conn.new.in_transaction ≡ false }
    ensures read { ReadPost S.Store conn.old conn.new result (IsFirstMatch Accounts abstract_account_row (λ r. r.id == id)) }
{
    let mut tx = begin_transaction(conn);
    brk_tables_reference::account_by_id(&mut tx, id)
}

#[tactic(auto, using(brk_store_transactions::proofs::Ending::read_is_over))]
fn read_lot_change_by_key<S: Alter>(
    conn: &mut Connection<S>,
    lot: Id,
    trade: Id,
) -> Result<Option<LotChange>, StoreFailed>
    requires { conn.old.in_transaction ≡ false }
    ensures mode { conn.new.in_transaction ≡ false }
    ensures read { ReadPost S.Store conn.old conn.new result (IsFirstMatch HoldingHistory abstract_lot_change_row (λ r. (r.lot == lot) && (r.trade == trade))) }
{
    let mut tx = begin_transaction(conn);
    brk_tables_views::lot_change_by_key(&mut tx, lot, trade)
}

fn is_account_of_customer(row: &AccountRow, customer: Id) -> bool
    ensures { result ≡ ((abstract_account_row row.now).customer == customer) }
{
    row.account.customer == customer
}

/// The accounts of a customer. An age has the stamp 0.
#[derive(Clone, Copy)]
pub struct AccountsOfCustomer {
    pub customer: Id,
}

impl<S: Alter> RowsByAge<S, AccountRow> for AccountsOfCustomer {
    ghost found = { λ group age row t. Some (abstract_account_row row) ≡ row_of_age (λ r. r.id) (λ a r. r.customer == group.customer) t.accounts age };

    fn row_of_age(
        &self,
        conn: &mut Connection<S>,
        age: &RowAge,
    ) -> Result<AccountRow, StoreFailed> {
        let Some(row) = read_account_by_id(conn, age.id)? else {
            return Err(StoreFailed);
        };
        if !is_account_of_customer(&row, self.customer) {
            return Err(StoreFailed);
        }
        Ok(row)
    }
}

/// The changes of lots by a trade. An age has the stamp 0, and the trade that opened the lot.
#[derive(Clone, Copy)]
pub struct LotChangesOfTrade {
    pub trade: Id,
}

impl<S: Alter> RowsByAge<S, LotChange> for LotChangesOfTrade {
    ghost found = { λ group age row t. Some (abstract_lot_change_row row) ≡ find (λ (r : HoldingHistoryRow). (r.lot == age.id) && (r.trade == group.trade)) t.holding_history };

    fn row_of_age(&self, conn: &mut Connection<S>, age: &RowAge) -> Result<LotChange, StoreFailed> {
        match read_lot_change_by_key(conn, age.id, self.trade)? {
            Some(row) => Ok(row),
            None => Err(StoreFailed),
        }
    }
}
