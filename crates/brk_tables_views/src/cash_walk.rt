//! A walk over the cash rows of an account.

ghost use Rattle.std.specs.Prelude.{◌≡◌, false};
ghost use Rattle.brk_ref.specs.Rows.{abstract_cash_row};
ghost use Rattle.brk_tables_views.specs.Lists.{account_cash_rows_between};
ghost use Rattle.brk_tables_views.specs.Walks.{TableWalkPost};

use crate::visitor::Visitor;
use crate::walking::{WalkError, walk_query_rows};
use brk_money::{Id, Stamp};
use brk_ref::CashRow;
use brk_tables_schema::values::{id_param, stamp_param};
use sqlite::{Alter, Connection};

/// Passes the cash rows of an account with stamps from `from` to `to`, both included, to the
/// visitor, sorted by stamp and then by number, ascending.
pub fn walk_account_cash_rows<S: Alter, E, V: Visitor<CashRow, E>>(
    conn: &mut Connection<S>,
    account: Id,
    from: Stamp,
    to: Stamp,
    visitor: &mut V,
) -> Result<(), WalkError<E>>
    // No transaction is open, and the visitor may be called, before and after the walk.
    requires mode { conn.old.in_transaction ≡ false }
    requires ready { V.ready visitor.old }
    ensures mode { conn.new.in_transaction ≡ false }
    ensures ready { V.ready visitor.new }

    // The visitor is in a state to which its calls can lead.
    ensures leads { V.leads visitor.old visitor.new }

    // The visitor took the records in sequence, all of them at `Ok`; the database is unchanged if
    // it is open.
    ensures walked { TableWalkPost S.Store conn.old conn.new abstract_cash_row
        (account_cash_rows_between account from to) V.takes V.stops visitor.old visitor.new result }
{
    // The value is not needed: the call shows that an open database outside a transaction is in its
    // committed state.
    let _is_autocommit = conn.is_autocommit();
    walk_query_rows::<S, CashRow, E, V>(
        conn,
        "SELECT CM_ID, CM_CA_ID, CM_T_ID, CM_DTS, CM_AMT, CM_NAME FROM CASH_MOVE WHERE CM_CA_ID = ?1 AND CM_DTS >= ?2 AND CM_DTS <= ?3 ORDER BY CM_DTS, CM_ID",
        &[id_param(account), stamp_param(from), stamp_param(to)],
        visitor,
    )
}
