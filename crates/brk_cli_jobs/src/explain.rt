//! The job that prints an explanation, and the check of its words before the file is opened.

ghost use Rattle.std.specs.Prelude.{◌≡◌, IfOk, None, map, string_bytes};
ghost use Rattle.brk_cli_jobs.specs.Jobs.{WritesExplanation};
ghost use Rattle.brk_cli_jobs.specs.Words.{without_value};
ghost use Rattle.brk_model_explain.specs.Explain as model;

use crate::pipe::PipeWriter;
use brk_cli_exit::Ending;
use brk_desk::Desk;
use brk_explain::{parse_explain, write_explanation};
use brk_money::{Fault, Planned};
use brk_ref::borrow_texts;
use brk_report::ReportFault;
use sqlite::Alter;
use std::alloc::{AllocError, Global};
use std::io::Write;

/// Refuses what `execute_explain_job` refuses before it reads the desk.
pub(crate) fn check_request(alloc: Global, words: &[String]) -> Planned<(), AllocError>
    ensures { IfOk result (λ read. read ≡ without_value (model.read_explain_request (map string_bytes words.now))) }
{
    let words = borrow_texts(alloc, words)?;
    match parse_explain(alloc, &words)? {
        Ok(_) => Ok(Ok(())),
        Err(refusal) => Ok(Err(refusal)),
    }
}

/// Returns `Open(Memory)` if memory runs out before the desk is read.
pub(crate) fn execute_explain_job<S: Alter, W: Write>(
    alloc: Global,
    desk: &mut Desk<S>,
    words: &[String],
    output: &mut PipeWriter<W>,
) -> Ending
    ensures { WritesExplanation S.Store (model.read_explain_request (map string_bytes words.now)) desk.old desk.new
        (record { input = None; before = W.contents output.old.output; after = W.contents output.new.output }) result }
{
    let Ok(words) = borrow_texts(alloc, words) else {
        return Ending::Open(Fault::Memory);
    };
    let what = match parse_explain(alloc, &words) {
        Ok(Ok(what)) => what,
        Ok(Err(refusal)) => return Ending::Statement(ReportFault::Refused(refusal)),
        Err(_) => return Ending::Open(Fault::Memory),
    };
    let written = write_explanation(alloc, desk, &what, output);
    output.ending_of_write(written)
}
