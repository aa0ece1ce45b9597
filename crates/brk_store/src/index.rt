//! The index of a store in memory: made from its tables, and kept over changes.

ghost use Rattle.std.specs.Prelude.{◌≡◌, IfOk, IsTrue, OnErr, OnOk, false, true};
ghost use Rattle.sqlite.specs.Effect.{Database};
ghost use Rattle.sqlite.specs.Held.{state};
ghost use Rattle.sqlite.specs.State.{HasCleanDisk};
ghost use Rattle.brk_trade_rows.specs.Changes.{tables_after_changes};
ghost use Rattle.brk_model.specs.Tables.{Tables};
ghost use Rattle.brk_store.specs.Indexed.{IndexIsTrue, IsIndexOfDatabase};
ghost use Rattle.brk_store_index.specs.declared.store_index.StoreIndex.TheVariants.{Unmade};
ghost use Rattle.brk_store_reads.specs.ReadSequences.{IsUnchangedByReads};
ghost use Rattle.brk_tables_schema.specs.Made.{HasDeskTables};

use crate::Store;
use brk_money::StoreFailed;
use brk_store_index::StoreIndex;
use brk_store_reads::row_index::read_row_index;
use brk_store_transactions::require_open;
use brk_trade_rows::Change;
use sqlite::{Alter, Connection};
use std::alloc::Global;

/// An index that could not be updated is dropped, and may be made again.
pub(crate) fn index_after_changes(index: StoreIndex, changes: &[Change]) -> StoreIndex
    ensures { (a b : Database) → ((t : Tables) → HasDeskTables t a → HasDeskTables (tables_after_changes changes.now t) b)
        → IsIndexOfDatabase index a → IsIndexOfDatabase result b }
{
    match index {
        StoreIndex::Made(mut made) => match made.update(changes) {
            Ok(()) => StoreIndex::Made(made),
            Err(_) => StoreIndex::Unmade,
        },
        StoreIndex::Unmade => StoreIndex::Unmade,
        StoreIndex::Absent => StoreIndex::Absent,
    }
}

/// Reads the index of a database with the tables of a desk. An index that cannot be made is absent
/// from then on.
pub(crate) fn read_index<S: Alter>(conn: &mut Connection<S>, alloc: Global) -> StoreIndex
    requires { conn.old.in_transaction ≡ false }
    ensures mode { conn.new.in_transaction ≡ false }
    ensures unchanged { IsUnchangedByReads S.Store conn.old conn.new }
    ensures index { IndexIsTrue S.Store conn.old Unmade → IndexIsTrue S.Store conn.new result }
{
    match read_row_index(conn, alloc) {
        Ok(index) => StoreIndex::Made(index),
        Err(_) => StoreIndex::Absent,
    }
}

// Fails if the database is closed, or the read closed it.
fn read_index_while_open<S: Alter>(
    conn: &mut Connection<S>,
    alloc: Global,
) -> Result<StoreIndex, StoreFailed>
    requires { conn.old.in_transaction ≡ false }
    ensures mode { conn.new.in_transaction ≡ false }
    ensures is_open { HasCleanDisk (state S.Store conn.new) → OnOk result (IsTrue (state S.Store conn.new).is_open) }
    ensures unchanged { IsUnchangedByReads S.Store conn.old conn.new }
    ensures index { IndexIsTrue S.Store conn.old Unmade → IfOk result (IndexIsTrue S.Store conn.new) }
{
    let index = read_index(conn, alloc);
    // Called only for its contract, by which an open database outside a transaction is in its
    // committed state.
    let _is_autocommit = conn.is_autocommit();
    match require_open(conn) {
        Ok(()) => Ok(index),
        Err(failed) => Err(failed),
    }
}

/// Reads the index of a database that was adopted, if its definitions are known to be a desk's. After
/// an upgrade nothing is read, since the call would then fail with the upgrade committed. Fails if
/// the reads closed the database.
pub(crate) fn index_of_adopted<S: Alter>(
    conn: &mut Connection<S>,
    alloc: Global,
    has_definitions: bool,
    is_upgraded: bool,
) -> Result<StoreIndex, StoreFailed>
    requires { conn.old.in_transaction ≡ false }
    ensures mode { conn.new.in_transaction ≡ false }
    ensures is_open { (HasCleanDisk (state S.Store conn.old) → IsTrue (state S.Store conn.old).is_open)
        → HasCleanDisk (state S.Store conn.new) → OnOk result (IsTrue (state S.Store conn.new).is_open) }
    ensures unchanged { IsUnchangedByReads S.Store conn.old conn.new }
    ensures unread { is_upgraded ≡ true → conn.new ≡ conn.old }
    ensures fails_of_definitions { OnErr result (IsTrue has_definitions) }
    ensures fails_without_upgrade { OnErr result (is_upgraded ≡ false) }
    ensures index { (IsTrue has_definitions → IndexIsTrue S.Store conn.old Unmade) → IfOk result (IndexIsTrue S.Store conn.new) }
{
    if !has_definitions {
        return Ok(StoreIndex::Absent);
    }
    if is_upgraded {
        return Ok(StoreIndex::Unmade);
    }
    read_index_while_open(conn, alloc)
}

impl<S: Alter> Store<S> {
    ghost use Rattle.brk_store_reads.specs.ReadSequences.{IsUnchangedByReads};

    /// Makes the index if it is not made yet.
    pub(crate) fn prepare_index(&mut self, alloc: Global)
        ensures { IsUnchangedByReads S.Store self.old self.new }
    {
        if let StoreIndex::Unmade = &self.index {
            self.index = read_index(&mut self.conn, alloc);
        }
    }
}
