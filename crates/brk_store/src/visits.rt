//! Visits of rows that were read.

ghost use Rattle.brk_store.specs.Visits.{VisitsReadRows};

use brk_money::CallFault;
use brk_tables_views::{Visitor, WalkError};

/// Passes the rows, if they were read, to the visitor, one at a time.
pub(crate) fn visit_read_rows<R: Drop, E, V: Visitor<R, E>>(
    read: Result<Vec<R>, CallFault>,
    visitor: &mut V,
) -> Result<(), WalkError<E>>
    requires ready { V.ready visitor.old }
    ensures ready { V.ready visitor.new }
    ensures leads { V.leads visitor.old visitor.new }
    ensures visited { VisitsReadRows V.takes V.stops read visitor.old visitor.new result }
{
    let rows = match read {
        Ok(rows) => rows,
        Err(fault) => return Err(WalkError::Failed(fault)),
    };
    for row in &rows {
        match visitor.visit(row) {
            Ok(()) => (),
            Err(cause) => return Err(WalkError::Cause(cause)),
        }
    }
    Ok(())
}
