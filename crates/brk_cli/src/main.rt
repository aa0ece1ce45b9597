//! The program `brk`: a brokerage desk at the command line.
#![tactic(auto)]

use brk_cli_args::{Job, UsageFault, non_utf8_fault, read_words};
use brk_cli_exit::{Ending, end_with};
use brk_cli_jobs::{PipeWriter, execute_requested_job_on_machine, prints_over_desk};
use std::alloc::AllocError;
use std::env;
use std::io::ErrorKind;
use std::process::ExitCode;

// The program's own name comes first.
fn command_line_arguments(rt: &HostRuntime) -> Result<Vec<String>, UsageFault> {
    match env::args(rt) {
        Ok(words) => {
            let all: Result<Vec<String>, AllocError> = words.collect(rt.alloc());
            Ok(all?)
        }
        Err(error) => match error.kind() {
            ErrorKind::OutOfMemory => Err(UsageFault::Memory),
            _ => Err(non_utf8_fault(rt.alloc())),
        },
    }
}

fn requested_job(rt: &HostRuntime) -> Result<Job, UsageFault> {
    read_words(command_line_arguments(rt)?)
}

// Nothing is opened if the job would print over its own desk.
fn execute_command_line(rt: &HostRuntime) -> Ending {
    let requested = requested_job(rt);
    if let Ok(job) = &requested
        && prints_over_desk(rt, job)
    {
        return Ending::Output;
    }
    let mut output = PipeWriter::new(rt.stdout());
    execute_requested_job_on_machine(rt, requested, rt.reader(), &mut output)
}

// A failure to write the error line does not change the exit status.
fn main(rt: HostRuntime) -> ExitCode {
    let ending = execute_command_line(&rt);
    let mut errors = rt.stderr();
    ExitCode::from(end_with(&ending, &mut errors))
}
