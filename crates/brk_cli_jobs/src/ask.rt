//! The job that prints a view, and the check of its query before the file is opened.

ghost use Rattle.std.specs.Prelude.{◌≡◌, IfOk, None, map, string_bytes};
ghost use Rattle.brk_cli_jobs.specs.Jobs.{WritesView};
ghost use Rattle.brk_cli_jobs.specs.Words.{without_value};
ghost use Rattle.brk_model.specs.Ask as model;

use crate::pipe::PipeWriter;
use brk_ask::{Form, write_asked};
use brk_cli_exit::Ending;
use brk_desk::{Desk, parse_query};
use brk_money::{Fault, Planned};
use brk_ref::borrow_texts;
use sqlite::Alter;
use std::alloc::{AllocError, Global};
use std::io::Write;

/// Refuses what `execute_ask_job` refuses before it asks the desk: an unknown view and wrong
/// arguments.
pub(crate) fn check_query(
    alloc: Global,
    view: &str,
    arguments: &[String],
) -> Planned<(), AllocError>
    ensures { IfOk result (λ read. read ≡ without_value (model.parse_query view.now (map string_bytes arguments.now))) }
{
    let arguments = borrow_texts(alloc, arguments)?;
    let Ok(read) = parse_query(alloc, view, &arguments) else {
        return Err(AllocError);
    };
    match read {
        Ok(_) => Ok(Ok(())),
        Err(refusal) => Ok(Err(refusal)),
    }
}

/// Returns `Open(Memory)` if memory runs out before the parsing of the query begins.
pub(crate) fn execute_ask_job<S: Alter, W: Write>(
    alloc: Global,
    desk: &mut Desk<S>,
    view: &str,
    arguments: &[String],
    form: Form,
    output: &mut PipeWriter<W>,
) -> Ending
    ensures { WritesView S.Store form (model.parse_query view.now (map string_bytes arguments.now)) desk.old desk.new
        (record { input = None; before = W.contents output.old.output; after = W.contents output.new.output }) result }
{
    let Ok(arguments) = borrow_texts(alloc, arguments) else {
        return Ending::Open(Fault::Memory);
    };
    let written = write_asked(alloc, desk, view, &arguments, form, output);
    output.ending_of_write(written)
}
