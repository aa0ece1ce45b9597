ghost use Rattle.std.specs.Prelude.{◌≡◌};
ghost use Rattle.brk_cli_jobs.specs.Endings.{ending_of_batch};
ghost use Rattle.brk_cli_jobs.specs.Jobs.{ExecutesBatch};

use brk_cli_exit::Ending;
use brk_desk::Desk;
use brk_import::{Counts, run_batch};
use brk_io::{BatchFault, ProgramClock};
use brk_money::Stamp;
use sqlite::Alter;
use std::io::{Read, Write};

fn ending_of_batch(ended: Result<Counts, BatchFault>) -> Ending
    ensures { result ≡ ending_of_batch ended }
{
    match ended {
        Ok(_) => Ending::Done,
        Err(fault) => Ending::Batch(fault),
    }
}

/// Returns `Done` also if rows were refused. The changes of the decided rows remain after a fault.
pub(crate) fn execute_batch_job<R: Read + Drop, W: Write, S: Alter>(
    rt: &HostRuntime,
    at: Option<Stamp>,
    input: R,
    output: &mut W,
    desk: &mut Desk<S>,
) -> Ending
    ensures { ExecutesBatch S.Store rt.entry at desk.old desk.new
        (record { input = R.remaining input; before = W.contents output.old; after = W.contents output.new }) result }
{
    let mut clock = ProgramClock::new(rt, at);
    ending_of_batch(run_batch(rt.alloc(), input, output, &mut clock, desk))
}
