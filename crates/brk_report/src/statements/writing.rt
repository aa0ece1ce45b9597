//! The statement of an account: its checks, then all its lines, from the header to the counts.

ghost use Rattle.std.specs.Prelude.{◌≤◌};
ghost use Rattle.brk_report.specs.StatementParts.{all_statement_lines};
ghost use Rattle.brk_report.specs.StatementOutput.{StatementPost, PreservesDesk, HoldsForStoredTables};
ghost use Rattle.brk_report_lines.specs.Written.{WritesLines};

use crate::statements::parts::{write_cash_part, write_header, write_lot_part};
use brk_desk::{Desk, Head};
use brk_money::{Day, Id, Refusal};
use brk_report_lines::{LinesFault, ReportFault};
use sqlite::Alter;
use std::alloc::Global;
use std::io::Write;

/// The cause of a failure to write a statement.
pub type StatementFault = ReportFault;

fn write_statement_lines<W: Write, S: Alter>(
    alloc: Global,
    desk: &mut Desk<S>,
    account: Id,
    head: &Head,
    from: Day,
    to: Day,
    writer: &mut W,
) -> Result<(), LinesFault>
    requires { from ≤ to }
    ensures keeps { PreservesDesk S.Store desk.old desk.new }
    ensures written { HoldsForStoredTables S.Store desk.old desk.new
        (λ t. WritesLines (all_statement_lines t account head.now from to) (W.contents writer.old) (W.contents writer.new) result) }
{
    write_header(alloc, account, head, from, to, writer)?;
    let opening = head.opening;
    let cash = write_cash_part(alloc, desk, account, from, to, opening, writer)?;
    write_lot_part(alloc, desk, account, head.holdings, cash, writer)
}

/// Writes the statement of an account for the UTC days `from` to `to`, both included: the opening
/// amount, the cash rows of these days, sorted by stamp, the closing amount, the lots that the
/// account holds now, sorted by symbol, then by opening stamp, and their market value at last
/// prices.
///
/// Fails, with nothing written, with refusal 18 (`BadText`) if `from` is after `to`, otherwise with
/// 1 (`NoAccount`) if the account does not exist. After any other fault a prefix of the text is
/// written. `Desk(Store)` may also mean that a held symbol has no last price, or that a sum or a
/// number of rows overflows. The call leaves an open database unchanged and adds nothing to what a
/// crash may expose.
pub fn statement<W: Write, S: Alter>(
    alloc: Global,
    desk: &mut Desk<S>,
    account: Id,
    from: Day,
    to: Day,
    writer: &mut W,
) -> Result<(), StatementFault>
    ensures stated { StatementPost S.Store desk.old desk.new account from to (W.contents writer.old) (W.contents writer.new) result }
{
    if to.get() < from.get() {
        return Err(ReportFault::Refused(Refusal::BadText));
    }
    let head = match desk.head(alloc, account) {
        Ok(Some(head)) => head,
        Ok(None) => return Err(ReportFault::Refused(Refusal::NoAccount)),
        Err(fault) => return Err(ReportFault::Desk(fault)),
    };
    write_statement_lines(alloc, desk, account, &head, from, to, writer)?;
    Ok(())
}
