//! The job that the command-line arguments request, with its desk in a file of the machine.

ghost use Rattle.brk_cli_jobs.specs.Requested.{AnswersRequest};

use crate::desk_files::{DeskFiles, MachineFiles};
use crate::jobs::execute_requested_job;
use crate::pipe::PipeWriter;
use brk_cli_args::{Job, UsageFault};
use brk_cli_exit::Ending;
use sqlite::{File, FileStore};
use sqlite_trees::store::Store;
use std::io::{Read, Write};

fn files_for<'a>(rt: &'a HostRuntime, requested: &Result<Job, UsageFault>) -> MachineFiles<'a> {
    match requested {
        Ok(Job::Batch { existing: true, .. } | Job::Serve { existing: true, .. }) =>
            MachineFiles::with_desks(rt),
        _ => MachineFiles::new(rt),
    }
}

/// Does what `execute_requested_job` does, with the desks in the files of the machine.
pub fn execute_requested_job_on_machine<R: Read + Drop, W: Write>(
    rt: &HostRuntime,
    requested: Result<Job, UsageFault>,
    input: R,
    output: &mut PipeWriter<W>,
) -> Ending
    ensures { AnswersRequest ⟦<FileStore<File> as Store>⟧ ⟦<MachineFiles<'static> as DeskFiles>⟧.opens_or_creates ⟦<MachineFiles<'static> as DeskFiles>⟧.opens
        ⟦<MachineFiles<'static> as DeskFiles>⟧.closes rt.entry requested
        (record { input = R.remaining input; before = W.contents output.old.output; after = W.contents output.new.output }) result }
{
    let files = files_for(rt, &requested);
    execute_requested_job(rt, &files, requested, input, output)
}
