//! The lines of the cash rows, with that of the opening amount, and those of the lots, written row
//! by row while the desk walks; `parts` adds the closing amount and the totals.

ghost use Rattle.std.specs.Prelude.{◌≤◌};
ghost use Rattle.brk_report.specs.CashWalk.{WritesCashLines, WritesLinesOfCashWalk};
ghost use Rattle.brk_report.specs.StatementOutput.{PreservesDesk, HoldsForStoredTables, WritesLotLines};
ghost use Rattle.brk_store.specs.Walked.{cash_rows_in_span};

use crate::statements::visitors::{CashLineWriter, CashProgress, LineWriter, write_opening_once};
use crate::walk_faults::fault_from_walk_error;
use brk_desk::Desk;
use brk_money::{Cents, Day, Id, Stamp, Wide};
use brk_report_lines::{LinesFault, end_of_day, start_of_day};
use sqlite::Alter;
use std::alloc::Global;
use std::io::Write;

// The walk begins at the first cash row of the account, as the rows before `first` are part of the
// opening amount. Without a row from `first` on, no line is written.
fn walk_cash_lines<W: Write, S: Alter>(
    alloc: Global,
    desk: &mut Desk<S>,
    account: Id,
    first: Stamp,
    last: Stamp,
    opening: Cents,
    writer: &mut W,
) -> Result<CashProgress, LinesFault>
    ensures keeps { PreservesDesk S.Store desk.old desk.new }
    ensures written { HoldsForStoredTables S.Store desk.old desk.new
        (λ t. WritesLinesOfCashWalk (cash_rows_in_span account 0 last t) first opening (W.contents writer.old) (W.contents writer.new) result) }
{
    let mut visitor = CashLineWriter {
        alloc,
        writer,
        first,
        moved: CashProgress {
            is_opened: false,
            count: 0,
            total: Wide::from(opening),
        },
    };
    match desk.visit_cash_rows(account, Stamp::nearest(0), last, &mut visitor) {
        Ok(()) => Ok(visitor.progress()),
        Err(stop) => Err(fault_from_walk_error(stop)),
    }
}

/// Writes the opening amount also if no row has a line. Returns the number of rows that have a line
/// and the closing amount; no clause states `is_opened`.
pub(crate) fn write_cash_lines<W: Write, S: Alter>(
    alloc: Global,
    desk: &mut Desk<S>,
    account: Id,
    from: Day,
    to: Day,
    opening: Cents,
    writer: &mut W,
) -> Result<CashProgress, LinesFault>
    requires { from ≤ to }
    ensures keeps { PreservesDesk S.Store desk.old desk.new }
    ensures written { HoldsForStoredTables S.Store desk.old desk.new
        (λ t. WritesCashLines t account from to opening (W.contents writer.old) (W.contents writer.new) result) }
{
    let moved = walk_cash_lines(
        alloc,
        desk,
        account,
        start_of_day(from),
        end_of_day(to),
        opening,
        writer,
    )?;
    write_opening_once(alloc, moved.is_opened, moved.total, writer)?;
    Ok(moved)
}

/// Returns the number of lots.
pub(crate) fn write_lot_lines<W: Write, S: Alter>(
    alloc: Global,
    desk: &mut Desk<S>,
    account: Id,
    writer: &mut W,
) -> Result<u64, LinesFault>
    ensures keeps { PreservesDesk S.Store desk.old desk.new }
    ensures written { HoldsForStoredTables S.Store desk.old desk.new (λ t. WritesLotLines t account (W.contents writer.old) (W.contents writer.new) result) }
{
    let mut lines = LineWriter {
        alloc,
        writer,
        count: 0,
    };
    match desk.visit_lots(account, &mut lines) {
        Ok(()) => Ok(lines.count),
        Err(stop) => Err(fault_from_walk_error(stop)),
    }
}
