//! A desk's database in a file, at any place that has files.

ghost use Rattle.std.specs.Prelude.{◌≡◌, Err, IfOk, MatchResult, Ok};
ghost use Rattle.brk_store_transactions.specs.Audited.{AdoptPost};
ghost use Rattle.brk_cli_jobs.specs.Opened.{RepresentsRowsOfFile};
ghost use Rattle.brk_cli_jobs.specs.Opening.{AdoptsConnection, AdoptsFile, ClosePost, IsClosed, OpenOrCreatePost, OpenPost};

use crate::file_place::FilePlace;
use brk_money::{Condition, Fault};
use brk_store::Store;
use sqlite::{Alter, Connection};
use std::alloc::Global;

/// Closes the file of a desk. Fails with `Store`.
pub fn close_desk<S: Alter, P: FilePlace<Open = Connection<S>>>(
    place: &P,
    store: Store<S>,
) -> Result<(), Fault>
    ensures { ClosePost P.disconnects store result }
{
    match place.disconnect(store.into_conn()) {
        Ok(()) => Ok(()),
        Err(_) => Err(Fault::Store),
    }
}

fn adopt_connection<S: Alter>(
    alloc: Global,
    conn: Connection<S>,
) -> Result<Store<S>, (Connection<S>, Fault)>
    ensures adopted { MatchResult result (λ store. AdoptPost S.Store conn store (Ok tt)) (λ e. AdoptPost S.Store conn e.0 (Err e.1)) }
    ensures represented { IfOk result (λ store. RepresentsRowsOfFile S.Store store) }
{
    Store::adopt(alloc, conn)
}

// Returns the fault. An error of the close is ignored: the fault is the cause.
fn close_after<S: Alter, P: FilePlace<Open = Connection<S>>>(
    place: &P,
    conn: Connection<S>,
    fault: Fault,
) -> Fault
    ensures closed { IsClosed P.disconnects conn }
    ensures same { result ≡ fault }
{
    let _ = place.disconnect(conn);
    fault
}

fn adopt_or_close<S: Alter, P: FilePlace<Open = Connection<S>>>(
    alloc: Global,
    place: &P,
    conn: Connection<S>,
) -> Result<Store<S>, Fault>
    ensures adopted { AdoptsConnection S.Store P.disconnects conn result }
    ensures represented { IfOk result (λ store. RepresentsRowsOfFile S.Store store) }
{
    match adopt_connection(alloc, conn) {
        Ok(store) => Ok(store),
        Err((conn, fault)) => Err(close_after(place, conn, fault)),
    }
}

fn adopt_file<S: Alter, P: FilePlace<Open = Connection<S>>>(
    alloc: Global,
    place: &P,
    path: &str,
) -> Result<Store<S>, Fault>
    ensures adopted { AdoptsFile S.Store P.connects P.disconnects path.now result }
    ensures represented { IfOk result (λ store. RepresentsRowsOfFile S.Store store) }
{
    match place.connect(path) {
        Ok(conn) => adopt_or_close(alloc, place, conn),
        Err(_) => Err(Fault::Store),
    }
}

/// Opens the desk in the file at `path`, and upgrades a file of an older schema. Creates a desk if
/// the file is missing or empty or has no table of a desk. Fails with `Damaged` and the first
/// condition that fails if the file has a table of a desk and does not pass the audit, or with
/// `Memory` or `Store`; a new desk may then have been created.
///
/// A new desk is closed and opened again, so that its tables are in the file itself, and a file
/// that then loses its log is never treated as a new one.
pub fn open_or_create_desk<S: Alter, P: FilePlace<Open = Connection<S>>>(
    alloc: Global,
    place: &P,
    path: &str,
) -> Result<Store<S>, Fault>
    ensures opened { OpenOrCreatePost S.Store P.connects P.disconnects path.now result }
    ensures represented { IfOk result (λ store. RepresentsRowsOfFile S.Store store) }
{
    let first = place.connect(path)?;
    match Store::create(first) {
        Ok(store) => {
            close_desk(place, store)?;
            adopt_file(alloc, place, path)
        }
        Err((conn, Fault::Damaged(_))) => adopt_or_close(alloc, place, conn),
        Err((conn, Fault::Store)) => Err(close_after(place, conn, Fault::Store)),
        Err((conn, Fault::Memory)) => Err(close_after(place, conn, Fault::Memory)),
    }
}

/// Opens the desk in the file at `path`, and upgrades a file of an older schema. Creates no desk.
/// Fails with `Damaged(Schema)` if the file is missing or empty, with `Damaged` and the first
/// condition that fails if it does not pass the audit, or with `Memory` or `Store`.
pub fn open_desk<S: Alter, P: FilePlace<Open = Connection<S>>>(
    alloc: Global,
    place: &P,
    path: &str,
) -> Result<Store<S>, Fault>
    ensures opened { OpenPost S.Store P.finds_blank P.connects P.disconnects path.now result }
    ensures represented { IfOk result (λ store. RepresentsRowsOfFile S.Store store) }
{
    if place.is_missing_or_empty(path) {
        return Err(Fault::Damaged(Condition::Schema));
    }
    adopt_file(alloc, place, path)
}
