//! The test that a database is open.

ghost use Rattle.std.specs.Prelude.{◌≡◌, ◌⊎◌, IsTrue, OnOk, false};
ghost use Rattle.sqlite.specs.Held.{state};
ghost use Rattle.sqlite.specs.State.{HasCleanDisk, IsRolledBack, IsUnchanged, Survives};

use brk_money::StoreFailed;
use brk_tables_schema::Table;
use sqlite::{Alter, Connection};

/// Fails if the database is closed. Compiles a statement, and reads no row.
pub fn require_open<S: Alter>(conn: &mut Connection<S>) -> Result<(), StoreFailed>
    ensures mode { conn.old.in_transaction ≡ false → conn.new.in_transaction ≡ false }
    ensures is_open { HasCleanDisk (state S.Store conn.new) → OnOk result (IsTrue (state S.Store conn.new).is_open) }
    ensures unchanged { HasCleanDisk (state S.Store conn.new) → IsUnchanged (state S.Store conn.old) (state S.Store conn.new)
        ⊎ IsRolledBack (state S.Store conn.old) (state S.Store conn.new) }
    ensures survives { Survives (state S.Store conn.old) (state S.Store conn.new) (λ _. ⊥) }
{
    match conn.prepare(Table::TheDesk.existence_probe_text()) {
        Ok(_) => Ok(()),
        Err(_) => Err(StoreFailed),
    }
}
