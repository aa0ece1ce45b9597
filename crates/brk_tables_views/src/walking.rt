//! A walk over the rows of any query, and the errors that end it.

ghost use Rattle.std.specs.Prelude.{◌≡◌, ◌⊎◌, IfErr, IfOk, OnOk, false};
ghost use Rattle.sqlite.specs.Held.{state};
ghost use Rattle.sqlite.specs.State.{HasCleanDisk, IsRolledBack, IsUnchanged, Survives};
ghost use Rattle.sqlite.specs.Values.{bound};
ghost use Rattle.brk_tables_views.specs.Walk.{IsWalkError, WalkEndsEarly, HasNoReturningClause, TakesAllRecords};

use crate::visitor::Visitor;
use brk_money::CallFault;
use brk_tables_schema::record::Record;
use sqlite::{Alter, Connection, Row};
use sqlite_value::value::ValueRef;

/// The reason why a walk ended before its last record.
#[derive(Debug, Drop)]
pub enum WalkError<E> {
    /// A fault: out of memory, an error of the database, or a malformed row.
    Failed(CallFault),
    /// The visitor's own error.
    Cause(E),
}

fn decode_record<R: Record>(row: &Row) -> Result<R, CallFault>
    ensures value { IfOk result (λ r. R.cells r ≡ row.now) }
{
    Ok(R::from_row(row)?)
}

/// Passes the records in the rows of the query `sql` to the visitor, in the order of the query's
/// result, until all are passed or an error occurs.
///
/// Fails with `Store` also if no end of the result is found after 2^64 - 1 rows. The clauses on
/// the visitor's records hold under the disk assumption (every read so far returned what was
/// written).
pub fn walk_query_rows<S: Alter, R: Record, E, V: Visitor<R, E>>(
    conn: &mut Connection<S>,
    sql: &str,
    params: &[ValueRef<'_>],
    visitor: &mut V,
) -> Result<(), WalkError<E>>
    requires query { HasNoReturningClause sql.now }
    requires ready { V.ready visitor.old }
    ensures ready { V.ready visitor.new }
    ensures leads { V.leads visitor.old visitor.new }
    // If the walk returns `Ok`, the visitor took all records of the result, in order.
    ensures all { HasCleanDisk (state S.Store conn.new)
        → OnOk result (TakesAllRecords R.cells V.takes sql.now (bound params.now) (state S.Store conn.old) visitor.old visitor.new) }
    // At the visitor's error, the visitor took the records before the one at which it stopped. At a
    // fault it took a prefix of the records, possibly none.
    ensures early { HasCleanDisk (state S.Store conn.new)
        → IfErr result (WalkEndsEarly R.cells V.takes V.stops sql.now (bound params.now) (state S.Store conn.old) visitor.old visitor.new) }
    // An error of the visitor is one at which it stopped, whether or not the disk assumption holds.
    ensures fault { IfErr result (IsWalkError V.stops visitor.new) }
    ensures unchanged_if_ok { HasCleanDisk (state S.Store conn.new) → OnOk result (IsUnchanged (state S.Store conn.old) (state S.Store conn.new)) }
    ensures changes_at_most_by_rollback { HasCleanDisk (state S.Store conn.new)
        → IsUnchanged (state S.Store conn.old) (state S.Store conn.new) ⊎ IsRolledBack (state S.Store conn.old) (state S.Store conn.new) }
    ensures mode { conn.old.in_transaction ≡ false → conn.new.in_transaction ≡ false }
    ensures crash { Survives (state S.Store conn.old) (state S.Store conn.new) (λ _. ⊥) }
{
    let mut rows = match conn.query(sql, params) {
        Ok(rows) => rows,
        Err(_) => return Err(WalkError::Failed(CallFault::Store)),
    };
    'rows: for _ in 0..u64::MAX {
        let row = match rows.next() {
            Ok(Some(row)) => row,
            Ok(None) => return Ok(()),
            Err(_) => return Err(WalkError::Failed(CallFault::Store)),
        };
        let item = match decode_record::<R>(row) {
            Ok(item) => item,
            Err(fault) => return Err(WalkError::Failed(fault)),
        };
        match visitor.visit(&item) {
            Ok(()) => (),
            Err(cause) => return Err(WalkError::Cause(cause)),
        }
    }
    Err(WalkError::Failed(CallFault::Store))
}
