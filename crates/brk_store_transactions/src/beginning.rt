//! The transaction of a read, an audit or an adoption.

ghost use Rattle.std.specs.Prelude.{◌≡◌, IsTrue, false, true};
ghost use Rattle.sqlite.specs.Held.{state};

use sqlite::{Alter, Connection, Transaction};

/// Begins a transaction. Before it, an open database is in its committed state.
pub fn begin_transaction<S: Alter>(conn: &mut Connection<S>) -> Transaction<'_, S>
    requires { conn.old.in_transaction ≡ false }
    ensures same_reference { result.conn.ghost_name ≡ conn.entry.ghost_name }
    ensures begun { result.conn.now ≡ record conn.old { in_transaction = true } }
    ensures is_committed { IsTrue (state S.Store conn.old).is_open → (state S.Store conn.old).now ≡ (state S.Store conn.old).committed }
{
    // Called only for its contract, by which an open database outside a transaction is in its
    // committed state.
    let _is_autocommit = conn.is_autocommit();
    conn.transaction()
}
