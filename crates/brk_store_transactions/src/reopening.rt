//! Theorems about a store that is reopened after a crash, and about one in memory.

ghost use Rattle.sqlite.specs.Held.{Held, state};
ghost use Rattle.sqlite.specs.State.{HasCleanDisk};
ghost use Rattle.sqlite.specs.Steps.{over_memory};
ghost use Rattle.sqlite_trees.specs.Tree.{Trees};
ghost use Rattle.sqlite_trees.specs.declared.memory.MemStore.{MemStore};
ghost use Rattle.std.specs.Prelude.{◌≡◌, IsTrue};
ghost use Rattle.brk_model.specs.Tables.{Tables};
ghost use Rattle.brk_store_transactions.specs.Holds.{IsDiskContentOfRows, HoldsRows, IsConnectionToDiskContent, CrashStatesSatisfy};

use sqlite::Alter;

/// A connection to the disk contents of rows holds these rows.
pub fn connection_holds_rows_of_disk_content<S: Alter>()
    ensures { (t : Tables) (trees : Trees) (conn : Held S) → IsDiskContentOfRows t trees → IsConnectionToDiskContent S.Store trees conn
        → HoldsRows S.Store conn t }
{}

/// A crash of an open store exposes only its last commit. The premise `is_open` implies the disk
/// assumption.
pub fn crash_of_open_store_exposes_last_commit<S: Alter>()
    ensures { (store : Held S) → IsTrue (state S.Store store).is_open
        → CrashStatesSatisfy S.Store store (λ trees. trees ≡ (state S.Store store).committed.trees) }
{}

/// A store in memory is always open. No content of it outlives its process.
pub fn a_store_in_memory_is_open()
    ensures { (store : Held MemStore) → HasCleanDisk (state over_memory store) × IsTrue (state over_memory store).is_open }
{}
