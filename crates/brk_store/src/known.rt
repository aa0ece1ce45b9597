//! What is known from memory, returned if the database is open.

ghost use Rattle.std.specs.Prelude.{◌≡◌, false};
ghost use Rattle.brk_store_transactions.specs.Holds.{ReadPost};

use brk_money::{CallFault, StoreFailed};
use brk_store_transactions::require_open;
use sqlite::{Alter, Connection};

/// Returns `value`, and reads no row. Fails if the database is closed.
pub(crate) fn known_if_open<S: Alter, V: Drop>(
    conn: &mut Connection<S>,
    value: V,
) -> Result<V, StoreFailed>
    requires { conn.old.in_transaction ≡ false }
    ensures mode { conn.new.in_transaction ≡ false }
    ensures read { ReadPost S.Store conn.old conn.new result (λ known t. known ≡ value) }
{
    // Called only for its contract, by which an open database outside a transaction is in its
    // committed state.
    let _is_autocommit = conn.is_autocommit();
    match require_open(conn) {
        Ok(()) => Ok(value),
        Err(failed) => Err(failed),
    }
}

/// `known_if_open` for a caller that returns a `CallFault`.
pub(crate) fn known_rows_if_open<S: Alter, V: Drop>(
    conn: &mut Connection<S>,
    value: V,
) -> Result<V, CallFault>
    requires { conn.old.in_transaction ≡ false }
    ensures mode { conn.new.in_transaction ≡ false }
    ensures read { ReadPost S.Store conn.old conn.new result (λ known t. known ≡ value) }
{
    match known_if_open(conn, value) {
        Ok(known) => Ok(known),
        Err(_) => Err(CallFault::Store),
    }
}
