//! The store: its creation, the changes of its rows, and its connection; `adoption` opens an
//! existing database.

use crate::index::index_after_changes;
use brk_money::Fault;
use brk_store_index::StoreIndex;
use brk_store_transactions::{apply_changes, create_tables_atomically};
use brk_trade_rows::Change;
use sqlite::{Alter, Connection};
use std::marker::Model;
use std::mem;

/// A connection to a database with the tables of a desk. `HoldsRows` states which rows these tables
/// have; the type itself ensures only that the connection is in autocommit mode between calls. In
/// contracts the value of a store is its connection (`Held S`).
///
/// A store, its connection and its database are *open* until a failure of their disk closes them.
/// Only an I/O error, a full disk or file, or a corrupt page (SQLITE_CORRUPT) can do so, and not
/// each does. No function of this crate returns whether a store is open: after the fault `Store`,
/// drop the store, and open and adopt its file again.
///
/// A *crash* is the end of the process or the machine. It *exposes* what the next open of the
/// database finds, after the `sqlite` crate has recovered the write-ahead log. The clauses specify
/// a crash after a call has returned; no clause covers a crash within a call (docs/PROMISES.md,
/// "Trusted parts"). The clauses use the toolchain's model of a crash (`may_leave`), which supposes
/// that a successful sync has reached the disk, and limits what a torn write leaves. The disk
/// assumption is on reads alone, and does not include this model.
///
/// Under the disk assumption: a store that is still open after a fault is unchanged, and a crash
/// exposes only its last commit (`crash_of_open_store_exposes_last_commit`); if the fault closed
/// the store, a crash may expose the changes of the call as committed.
pub struct Store<S: Alter> {
    pub(crate) conn: Connection<S>,
    pub(crate) index: StoreIndex,
}

impl<S: Alter> Model for Store<S> {
    ghost use Rattle.sqlite.specs.Held.{Held, held_code};
    ghost use Rattle.std.specs.Prelude.{◌≡◌, false};
    ghost use Rattle.brk_store.specs.Indexed.{IndexIsTrue};

    ghost Value = { Held S };

    ghost coded = { held_code S.code };

    ghost view = { λ s. s.conn };

    ghost invariant = { λ s. (s.conn.in_transaction ≡ false) × IndexIsTrue S.Store s.conn s.index };
}

impl<S: Alter + Drop> Drop for Store<S> {
    fn drop(self) {
        let Store { conn: _, index: _ } = self;
    }
}

impl<S: Alter> Store<S> {
    ghost use Rattle.std.specs.Prelude.{◌≡◌, ◌⊎◌, Err, IfErr, MatchResult, Ok, OnErr, false, true};
    ghost use Rattle.brk_money.specs.declared.fault.Condition.TheVariants.{NotEmpty};
    ghost use Rattle.brk_money.specs.declared.fault.Fault.TheVariants as fault;
    ghost use Rattle.brk_trade_rows.specs.Changes.{tables_after_changes};
    ghost use Rattle.brk_store_transactions.specs.Holds.{ApplyPost, CreatePost};

    /// Creates the tables of a desk in the database of `conn`, without rows but the one of DESK,
    /// and commits them.
    ///
    /// Errors return the connection, in autocommit mode, and leave a database that is still open
    /// unchanged. The fault is `Damaged(NotEmpty)`, which here is no damage, only if a table with
    /// the name of a desk's table exists, or `Store`. If `conn` is in a transaction, the fault is
    /// `Store` and nothing changes.
    ///
    /// A crash after the call exposes what a crash before it could or the new tables: only these
    /// after `Ok`; after an error these only if the database is closed.
    pub fn create(mut conn: Connection<S>) -> Result<Store<S>, (Connection<S>, Fault)>
        ensures created { MatchResult result (λ store. CreatePost S.Store conn store (Ok tt)) (λ e. CreatePost S.Store conn e.0 (Err e.1)) }
        ensures fault { IfErr result (λ e. (e.1 ≡ fault.Store) ⊎ (e.1 ≡ fault.Damaged NotEmpty)) }
        ensures no_transaction_open { IfErr result (λ e. conn.in_transaction ≡ false → e.0.in_transaction ≡ false) }
        ensures fails_in_transaction { conn.in_transaction ≡ true → result ≡ Err (conn, fault.Store) }
    {
        if !conn.is_autocommit() {
            return Err((conn, Fault::Store));
        }
        match create_tables_atomically(&mut conn) {
            Ok(()) => Ok(Store {
                conn,
                index: StoreIndex::Unmade,
            }),
            Err(fault) => Err((conn, fault)),
        }
    }

    /// Applies `changes` in order, in one transaction, and commits them. A change of a row that
    /// does not exist changes nothing. The rows of other tables are unchanged, unless a foreign key
    /// of theirs says CASCADE, SET NULL or SET DEFAULT; no trigger runs.
    ///
    /// Fails with `Store` only, which may also mean a broken constraint or that the `sqlite` crate
    /// ran out of memory; neither closes the store. At an error a database that is still open is
    /// unchanged.
    ///
    /// A crash after the call exposes what a crash before it could or the rows with all changes:
    /// only these after `Ok`; after an error these only if the store is closed.
    pub fn apply(&mut self, changes: &[Change]) -> Result<(), Fault>
        ensures applied { ApplyPost S.Store self.old self.new result (tables_after_changes changes.now) }
        ensures fault { OnErr result (result ≡ Err fault.Store) }
    {
        match apply_changes(&mut self.conn, changes) {
            Ok(()) => {
                let index = mem::replace(&mut self.index, StoreIndex::Absent);
                self.index = index_after_changes(index, changes);
                Ok(())
            }
            Err(_) => Err(Fault::Store),
        }
    }

    /// Returns the connection, which is in autocommit mode.
    pub fn into_conn(self) -> Connection<S>
        ensures same { result ≡ self }
        ensures autocommit { result.in_transaction ≡ false }
    {
        let Store { conn, index: _ } = self;
        conn
    }
}
