//! A walk over the lots of an account.

ghost use Rattle.std.specs.Prelude.{◌≡◌, false};
ghost use Rattle.brk_ref.specs.Rows.{abstract_holding_row};
ghost use Rattle.brk_tables_views.specs.Lists.{account_lots_by_symbol};
ghost use Rattle.brk_tables_views.specs.Walks.{TableWalkPost};

use crate::visitor::Visitor;
use crate::walking::{WalkError, walk_query_rows};
use brk_money::Id;
use brk_ref::HoldingRow;
use brk_tables_schema::values::id_param;
use sqlite::{Alter, Connection};

/// Passes the lots of an account to the visitor, sorted by symbol, then by the stamp of their
/// opening, then by the id of the trade that opened them, all ascending.
pub fn walk_lots<S: Alter, E, V: Visitor<HoldingRow, E>>(
    conn: &mut Connection<S>,
    account: Id,
    visitor: &mut V,
) -> Result<(), WalkError<E>>
    // No transaction is open, and the visitor may be called, before and after the walk.
    requires mode { conn.old.in_transaction ≡ false }
    requires ready { V.ready visitor.old }
    ensures mode { conn.new.in_transaction ≡ false }
    ensures ready { V.ready visitor.new }

    // The visitor is in a state to which its calls can lead.
    ensures leads { V.leads visitor.old visitor.new }

    // The visitor took the records in sequence, all of them at `Ok`; the database is unchanged if
    // it is open.
    ensures walked { TableWalkPost S.Store conn.old conn.new abstract_holding_row
        (account_lots_by_symbol account) V.takes V.stops visitor.old visitor.new result }
{
    // The value is not needed: the call shows that an open database outside a transaction is in its
    // committed state.
    let _is_autocommit = conn.is_autocommit();
    walk_query_rows::<S, HoldingRow, E, V>(
        conn,
        "SELECT H_T_ID, H_CA_ID, H_S_SYMB, H_DTS, H_PRICE, H_QTY FROM HOLDING WHERE H_CA_ID = ?1 ORDER BY H_S_SYMB, H_DTS, H_T_ID",
        &[id_param(account)],
        visitor,
    )
}
