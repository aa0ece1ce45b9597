//! A walk over the completed trades.

ghost use Rattle.std.specs.Prelude.{◌≡◌, false};
ghost use Rattle.brk_ref.specs.Rows.{abstract_trade_row};
ghost use Rattle.brk_tables_views.specs.Lists.{completed_trades_by_stamp_and_id};
ghost use Rattle.brk_tables_views.specs.Walks.{TableWalkPost};

use crate::visitor::Visitor;
use crate::walking::{WalkError, walk_query_rows};
use brk_money::Status;
use brk_ref::TradeRow;
use brk_tables_schema::values::status_param;
use sqlite::{Alter, Connection};

/// Passes the completed trades of all accounts to the visitor, sorted by the stamp of completion
/// and then by id, both ascending.
pub fn walk_completed_trades<S: Alter, E, V: Visitor<TradeRow, E>>(
    conn: &mut Connection<S>,
    visitor: &mut V,
) -> Result<(), WalkError<E>>
    // No transaction is open, and the visitor may be called, before and after the walk.
    requires mode { conn.old.in_transaction ≡ false }
    requires ready { V.ready visitor.old }
    ensures mode { conn.new.in_transaction ≡ false }
    ensures ready { V.ready visitor.new }

    // The visitor is in a state to which its calls can lead.
    ensures leads { V.leads visitor.old visitor.new }

    // The visitor took the records in sequence, all of them at `Ok`; the database is unchanged if
    // it is open.
    ensures walked { TableWalkPost S.Store conn.old conn.new abstract_trade_row
        completed_trades_by_stamp_and_id V.takes V.stops visitor.old visitor.new result }
{
    // The value is not needed: the call shows that an open database outside a transaction is in its
    // committed state.
    let _is_autocommit = conn.is_autocommit();
    walk_query_rows::<S, TradeRow, E, V>(
        conn,
        "SELECT T_ID, T_DTS, T_ST_ID, T_TT_ID, T_IS_CASH, T_S_SYMB, T_QTY, T_BID_PRICE, T_CA_ID, \
         T_EXEC_NAME, T_TRADE_PRICE, T_CHRG, T_COMM, T_TAX, T_LIFO \
         FROM TRADE WHERE T_ST_ID = ?1 ORDER BY T_DTS, T_ID",
        &[status_param(Status::Completed)],
        visitor,
    )
}
