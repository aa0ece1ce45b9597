//! Visitors that write a line for each record, count the records, and add up their amounts.

ghost use Rattle.std.specs.Prelude.{◌≡◌, ◌++◌, ◌∷◌, [], IfOk, nat_lt};
ghost use Rattle.brk_ref.specs.Rows.{abstract_cash_row};
ghost use Rattle.brk_money.specs.Spelling.{Text};
ghost use Rattle.brk_model.specs.Statement.{cash_row_line};
ghost use Rattle.brk_report.specs.CashWalk.{opening_line_unless_written};
ghost use Rattle.brk_report_lines.specs.Written.{WritesLines, line_with_line_feed};

use crate::totals::plus_amount;
use brk_desk::Visitor;
use brk_money::{CallFault, Stamp, Wide};
use brk_ref::{CashRow, HoldingRow};
use brk_report_lines::{LinesFault, amount_line, cash_row_line, lot_line, write_line};
use std::alloc::{AllocError, Global};
use std::io::Write;

/// A record that a statement shows as one line.
pub trait Line {
    /// The text of the line, without its line feed.
    ghost line: { Self → Text };

    /// Returns the line of the record with its line feed.
    fn line(&self, alloc: Global) -> Result<Vec<u8>, AllocError>
        ensures line { IfOk result (λ l. l.items ≡ line_with_line_feed (line self.now)) };
}

impl Line for HoldingRow {
    ghost use Rattle.brk_model.specs.Statement.{lot_line};
    ghost use Rattle.brk_ref.specs.Rows.{abstract_holding_row};

    ghost line = { λ r. lot_line (abstract_holding_row r) };

    fn line(&self, alloc: Global) -> Result<Vec<u8>, AllocError> {
        lot_line(alloc, self)
    }
}

impl Line for CashRow {
    ghost use Rattle.brk_model.specs.Statement.{cash_row_line};
    ghost use Rattle.brk_ref.specs.Rows.{abstract_cash_row};

    ghost line = { λ r. cash_row_line (abstract_cash_row r) };

    fn line(&self, alloc: Global) -> Result<Vec<u8>, AllocError> {
        cash_row_line(alloc, self)
    }
}

fn is_before_stamp(item: &CashRow, first: Stamp) -> bool
    ensures { result ≡ nat_lt item.now.stamp first }
{
    item.stamp.get() < first.get()
}

pub(crate) fn write_opening_once<W: Write>(
    alloc: Global,
    is_written: bool,
    opening: Wide,
    writer: &mut W,
) -> Result<(), LinesFault>
    ensures { WritesLines (opening_line_unless_written is_written opening) (W.contents writer.old) (W.contents writer.new) result }
{
    if is_written {
        return Ok(());
    }
    write_line(writer, amount_line(alloc, "Opening", opening))
}

// Before the first row, also writes the opening amount, which is the total before the row.
fn write_cash_row<W: Write>(
    alloc: Global,
    moved: CashProgress,
    item: &CashRow,
    writer: &mut W,
) -> Result<(), LinesFault>
    ensures { WritesLines (opening_line_unless_written moved.is_opened moved.total ++ cash_row_line (abstract_cash_row item.now)
        ∷ []) (W.contents writer.old) (W.contents writer.new) result }
{
    write_opening_once(alloc, moved.is_opened, moved.total, writer)?;
    write_line(writer, item.line(alloc))
}

/// A visitor that writes a line for each record, and counts the records.
#[derive(Drop)]
pub struct LineWriter<'a, W> {
    pub alloc: Global,
    pub writer: &'a mut W,
    /// The number of records so far.
    pub count: u64,
}

impl<R: Line, W: Write> Visitor<R, LinesFault> for LineWriter<'_, W> {
    ghost use Rattle.std.specs.Prelude.{◌≡◌, ◌+◌, [], ◌∷◌, Result, Err, refl};
    ghost use Rattle.std.proofs.Common.{◌∙◌};
    ghost use Rattle.std.specs.Io.KnownBytes.{Appends};
    ghost use Rattle.brk_report_lines.specs.Written.{FailsWithinLines, line_with_line_feed};

    ghost ready = { λ _. Unit {0} };

    ghost leads = { λ p q. q.writer.ghost_name ≡ p.writer.ghost_name };

    ghost takes = { λ p r q. (q.count ≡ p.count + 1) × Appends (W.contents p.writer.now) (W.contents q.writer.now) (line_with_line_feed (R.line r)) };

    ghost stops = { λ p r e q. FailsWithinLines (R.line r ∷ []) (W.contents p.writer.now) (W.contents q.writer.now) e };

    /// Writes the line of the record, and then counts the record. Fails with `Desk(Store)` and
    /// nothing written if the count overflows. After an error the count is unchanged (no clause
    /// states this).
    fn visit(&mut self, item: &R) -> Result<(), LinesFault> {
        let Some(count) = self.count.checked_add(1) else {
            return Err(LinesFault::Desk(CallFault::Store));
        };
        write_line(self.writer, item.line(self.alloc))?;
        self.count = count;
        Ok(())
    }

    ghost reflexive = { λ _. refl };

    ghost transitive = { λ _ _ _ a b. b ∙ a };
}

/// The progress of a walk over the cash rows of an account.
#[derive(Clone, Copy)]
pub struct CashProgress {
    /// True if the line of the opening amount is written.
    pub is_opened: bool,
    /// The number of cash rows whose lines are written.
    pub count: u64,
    /// The opening balance of the account plus the amounts of all cash rows so far, in cents.
    pub total: Wide,
}

/// A visitor that adds up the amounts of cash rows. From a stamp on it also writes a line for each
/// cash row and counts it, and before the first of these lines the line of the opening amount.
#[derive(Drop)]
pub struct CashLineWriter<'a, W> {
    pub alloc: Global,
    pub writer: &'a mut W,
    /// The stamp from which on the visitor writes lines.
    pub first: Stamp,
    pub moved: CashProgress,
}

impl<W> CashLineWriter<'_, W> {
    pub fn progress(&self) -> CashProgress
        ensures { result ≡ self.now.moved }
    {
        self.moved
    }
}

impl<W: Write> Visitor<CashRow, LinesFault> for CashLineWriter<'_, W> {
    ghost use Rattle.std.specs.Prelude.{◌≡◌, nat_lt, refl};
    ghost use Rattle.std.proofs.Common.{◌∙◌};
    ghost use Rattle.std.specs.Io.KnownBytes.{Appends};
    ghost use Rattle.brk_ref.specs.Rows.{abstract_cash_row};
    ghost use Rattle.brk_model.specs.Statement.{text_of_lines};
    ghost use Rattle.brk_report.specs.CashWalk.{lines_of_cash_row, progress_after_cash_row};
    ghost use Rattle.brk_report_lines.specs.Written.{FailsWithinFirstLines};

    ghost ready = { λ _. Unit {0} };

    ghost leads = { λ p q. q.writer.ghost_name ≡ p.writer.ghost_name };

    ghost takes = { λ p r q. (q.first ≡ p.first) × (q.moved ≡ progress_after_cash_row (nat_lt r.stamp p.first) p.moved (abstract_cash_row r))
        × Appends (W.contents p.writer.now) (W.contents q.writer.now)
        (text_of_lines (lines_of_cash_row (nat_lt r.stamp p.first) p.moved (abstract_cash_row r))) };

    ghost stops = { λ p r e q. FailsWithinFirstLines (lines_of_cash_row (nat_lt r.stamp p.first) p.moved (abstract_cash_row r))
        (W.contents p.writer.now) (W.contents q.writer.now) e };

    /// Adds the amount of the cash row to the total. From the stamp `first` on, also writes the
    /// line of the row and counts the row; the line of the opening amount, the total before the
    /// row, precedes the first of these lines. Fails with `Desk(Store)` and nothing written if the
    /// total or the count overflows. After an error the progress (`moved`) is unchanged (no clause
    /// states this).
    fn visit(&mut self, item: &CashRow) -> Result<(), LinesFault> {
        let total = plus_amount(self.moved.total, item.amount)?;
        if is_before_stamp(item, self.first) {
            self.moved.total = total;
            return Ok(());
        }
        let Some(count) = self.moved.count.checked_add(1) else {
            return Err(LinesFault::Desk(CallFault::Store));
        };
        write_cash_row(self.alloc, self.moved, item, self.writer)?;
        self.moved = CashProgress {
            is_opened: true,
            count,
            total,
        };
        Ok(())
    }

    ghost reflexive = { λ _. refl };

    ghost transitive = { λ _ _ _ a b. b ∙ a };
}
