//! The parts of a statement: the header, the cash rows with the opening and the closing amount, and
//! the lots with the totals.

ghost use Rattle.std.specs.Prelude.{◌≤◌};
ghost use Rattle.brk_report.specs.StatementOutput.{PreservesDesk, HoldsForStoredTables};
ghost use Rattle.brk_report.specs.StatementParts.{WritesCashAndClosingLines, lot_and_total_lines, statement_header_lines};
ghost use Rattle.brk_report_lines.specs.Written.{WritesLines};

use crate::statements::sections::{write_cash_lines, write_lot_lines};
use brk_desk::{Desk, Head};
use brk_money::{Cents, Day, Id, Wide};
use brk_report_lines::{
    LinesFault, amount_line, name_line, period_line, row_counts_line, title_line, write_line,
};
use sqlite::Alter;
use std::alloc::Global;
use std::io::Write;

pub(crate) fn write_header<W: Write>(
    alloc: Global,
    account: Id,
    head: &Head,
    from: Day,
    to: Day,
    writer: &mut W,
) -> Result<(), LinesFault>
    ensures { WritesLines (statement_header_lines account head.now.name from to) (W.contents writer.old) (W.contents writer.new) result }
{
    write_line(writer, title_line(alloc, account))?;
    write_line(writer, name_line(alloc, &head.name))?;
    write_line(writer, period_line(alloc, from, to))
}

/// Writes also the opening and the closing amount. Returns the number of cash rows that have a
/// line.
pub(crate) fn write_cash_part<W: Write, S: Alter>(
    alloc: Global,
    desk: &mut Desk<S>,
    account: Id,
    from: Day,
    to: Day,
    opening: Cents,
    writer: &mut W,
) -> Result<u64, LinesFault>
    requires { from ≤ to }
    ensures keeps { PreservesDesk S.Store desk.old desk.new }
    ensures written { HoldsForStoredTables S.Store desk.old desk.new
        (λ t. WritesCashAndClosingLines t account from to opening (W.contents writer.old) (W.contents writer.new) result) }
{
    let moved = write_cash_lines(alloc, desk, account, from, to, opening, writer)?;
    write_line(writer, amount_line(alloc, "Closing", moved.total))?;
    Ok(moved.count)
}

/// Writes `holdings`, the market value in cents, and `cash`, the number of cash rows, after the
/// lots.
pub(crate) fn write_lot_part<W: Write, S: Alter>(
    alloc: Global,
    desk: &mut Desk<S>,
    account: Id,
    holdings: Wide,
    cash: u64,
    writer: &mut W,
) -> Result<(), LinesFault>
    ensures keeps { PreservesDesk S.Store desk.old desk.new }
    ensures written { HoldsForStoredTables S.Store desk.old desk.new
        (λ t. WritesLines (lot_and_total_lines t account holdings cash) (W.contents writer.old) (W.contents writer.new) result) }
{
    let lots = write_lot_lines(alloc, desk, account, writer)?;
    write_line(writer, amount_line(alloc, "Holdings", holdings))?;
    write_line(writer, row_counts_line(alloc, cash, lots))
}
