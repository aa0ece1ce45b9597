//! The statements of several accounts, one after the other.

ghost use Rattle.std.specs.Prelude.{◌≡◌, ◌≤◌, flat_map};
ghost use Rattle.brk_report.specs.StatementsOutput.{HasAccount, HasAccounts, ReportLinesPost, StatementsPost, lines_of_account, without_refusal};

use crate::statements::writing::{StatementFault, statement};
use brk_desk::Desk;
use brk_money::{Day, Fault, Id, Refusal};
use brk_report_lines::ReportFault;
use sqlite::Alter;
use std::alloc::Global;
use std::io::Write;

// An account that was read is never refused: the store would not hold its row any more.
fn refusal_as_store_fault(ended: Result<(), StatementFault>) -> Result<(), StatementFault>
    ensures { result ≡ without_refusal ended }
{
    match ended {
        Ok(()) => Ok(()),
        Err(ReportFault::Refused(_)) => Err(ReportFault::Desk(Fault::Store)),
        Err(ReportFault::Desk(fault)) => Err(ReportFault::Desk(fault)),
        Err(ReportFault::Write) => Err(ReportFault::Write),
    }
}

fn write_account<W: Write, S: Alter>(
    alloc: Global,
    desk: &mut Desk<S>,
    account: Id,
    from: Day,
    to: Day,
    writer: &mut W,
) -> Result<(), StatementFault>
    requires { from ≤ to }
    ensures { ReportLinesPost S.Store desk.old desk.new (λ t. HasAccount t account) (λ t. lines_of_account t from to account)
        (W.contents writer.old) (W.contents writer.new) result }
{
    refusal_as_store_fault(statement(alloc, desk, account, from, to, writer))
}

fn write_accounts<W: Write, S: Alter>(
    alloc: Global,
    desk: &mut Desk<S>,
    accounts: &[Id],
    from: Day,
    to: Day,
    writer: &mut W,
) -> Result<(), StatementFault>
    requires { from ≤ to }
    ensures { ReportLinesPost S.Store desk.old desk.new (λ t. HasAccounts t accounts.now) (λ t. flat_map (lines_of_account t from to) accounts.now)
        (W.contents writer.old) (W.contents writer.new) result }
{
    for account in accounts {
        write_account(alloc, desk, *account, from, to, writer)?;
    }
    Ok(())
}

/// Writes the statements of all accounts, or of those of a customer, one after the other, each as
/// `statement` writes it, by id, ascending.
///
/// Fails, with nothing written, with refusal 18 (`BadText`) if `from` is after `to`, otherwise with
/// 2 (`NoCustomer`) if there is no such customer. After any other fault a prefix of the text is
/// written: whole lines, and after `Write` a part of the next. The call leaves an open database
/// unchanged and adds nothing to what a crash may expose.
pub fn statements<W: Write, S: Alter>(
    alloc: Global,
    desk: &mut Desk<S>,
    customer: Option<Id>,
    from: Day,
    to: Day,
    writer: &mut W,
) -> Result<(), StatementFault>
    ensures stated { StatementsPost S.Store desk.old desk.new customer from to (W.contents writer.old) (W.contents writer.new) result }
{
    if to.get() < from.get() {
        return Err(ReportFault::Refused(Refusal::BadText));
    }
    let accounts = match desk.statement_accounts(alloc, customer) {
        Ok(Ok(accounts)) => accounts,
        Ok(Err(refusal)) => return Err(ReportFault::Refused(refusal)),
        Err(fault) => return Err(ReportFault::Desk(fault.into())),
    };
    write_accounts(alloc, desk, accounts.as_slice(), from, to, writer)
}
