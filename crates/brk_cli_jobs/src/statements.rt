ghost use Rattle.std.specs.Prelude.{None};
ghost use Rattle.brk_cli_jobs.specs.Jobs.{WritesStatementsOfAccounts};

use brk_cli_exit::Ending;
use brk_desk::Desk;
use brk_money::{Day, Id};
use brk_report::statements::several::statements;
use sqlite::Alter;
use std::alloc::Global;
use std::io::Write;

pub(crate) fn execute_statements_job<S: Alter, W: Write>(
    alloc: Global,
    desk: &mut Desk<S>,
    customer: Option<Id>,
    from: Day,
    to: Day,
    output: &mut W,
) -> Ending
    ensures { WritesStatementsOfAccounts S.Store customer from to desk.old desk.new
        (record { input = None; before = W.contents output.old; after = W.contents output.new }) result }
{
    match statements(alloc, desk, customer, from, to, output) {
        Ok(()) => Ending::Done,
        Err(fault) => Ending::Statement(fault),
    }
}
