//! Jobs on a desk that is in memory, or in a file that is closed at the end.

ghost use Rattle.brk_cli_jobs.specs.Jobs.{ExecutesJob};
ghost use Rattle.brk_cli_jobs.specs.Places.{ExecutesJobAndCloses, ExecutesJobInMemory, ExecutesJobOnOpened, ExecutesJobOnStore};

use crate::desk_files::DeskFiles;
use crate::pipe::PipeWriter;
use crate::{ask, batch, explain, serve, statement, statements};
use brk_ask::Form;
use brk_cli_args::Job;
use brk_cli_exit::{Ending, ending_after_close};
use brk_desk::Desk;
use brk_money::Fault;
use brk_store::Store;
use sqlite::{Alter, Connection};
use std::io::{Read, Write};

// For an audit nothing is left to do: it passed when the desk was opened.
fn execute_job_at_desk<R: Read + Drop, W: Write, S: Alter>(
    rt: &HostRuntime,
    desk: &mut Desk<S>,
    job: &Job,
    input: R,
    output: &mut PipeWriter<W>,
) -> Ending
    ensures { ExecutesJob S.Store rt.entry job.now desk.old desk.new
        (record { input = R.remaining input; before = W.contents output.old.output; after = W.contents output.new.output }) result }
{
    match job {
        Job::Batch {
            db: _,
            existing: _,
            at,
        } => batch::execute_batch_job(rt, *at, input, output, desk),
        Job::Statement {
            db: _,
            account,
            from,
            to,
        } => statement::execute_statement_job(rt.alloc(), desk, *account, *from, *to, output),
        Job::Statements {
            db: _,
            from,
            to,
            customer,
        } => statements::execute_statements_job(rt.alloc(), desk, *customer, *from, *to, output),
        Job::Ask {
            db: _,
            json,
            heads,
            view,
            arguments,
        } => {
            let form = Form {
                json: *json,
                heads: *heads,
            };
            ask::execute_ask_job(rt.alloc(), desk, view.as_str(), arguments, form, output)
        }
        Job::Explain { db: _, words } => explain::execute_explain_job(
            rt.alloc(),
            desk,
            words,
            output,
        ),
        Job::Audit { db: _ } => Ending::Done,
        Job::Serve {
            port,
            db: _,
            existing: _,
            at,
            streams,
        } => serve::execute_serve_job(rt, *port, *at, *streams, desk),
    }
}

fn execute_job_at_store<R: Read + Drop, W: Write, S: Alter>(
    rt: &HostRuntime,
    store: Store<S>,
    job: &Job,
    input: R,
    output: &mut PipeWriter<W>,
) -> (Ending, Store<S>)
    ensures { ExecutesJob S.Store rt.entry job.now store result.1
        (record { input = R.remaining input; before = W.contents output.old.output; after = W.contents output.new.output }) result.0 }
{
    let mut desk = Desk::new(store);
    let ending = execute_job_at_desk(rt, &mut desk, job, input, output);
    (ending, desk.into_store())
}

fn execute_job_and_close<S: Alter, F: DeskFiles<Desk = Store<S>>, R: Read + Drop, W: Write>(
    rt: &HostRuntime,
    files: &F,
    store: Store<S>,
    job: &Job,
    input: R,
    output: &mut PipeWriter<W>,
) -> Ending
    ensures { ExecutesJobAndCloses S.Store F.closes rt.entry job.now store
        (record { input = R.remaining input; before = W.contents output.old.output; after = W.contents output.new.output }) result }
{
    let (ending, store) = execute_job_at_store(rt, store, job, input, output);
    ending_after_close(ending, files.close(store))
}

// Closes the file after the job. A job that serves may open it again before a stream.
fn execute_job_on_file_store<S: Alter, F: DeskFiles<Desk = Store<S>>, R: Read + Drop, W: Write>(
    rt: &HostRuntime,
    files: &F,
    path: &str,
    store: Store<S>,
    job: &Job,
    input: R,
    output: &mut PipeWriter<W>,
) -> Ending
    ensures { ExecutesJobOnStore S.Store F.opens F.closes rt.entry job.now path.now store
        (record { input = R.remaining input; before = W.contents output.old.output; after = W.contents output.new.output }) result }
{
    match job {
        Job::Serve {
            port,
            db: _,
            existing: _,
            at,
            streams,
        } => serve::execute_serve_job_in_file(rt, files, path, *port, *at, *streams, store),
        _ => execute_job_and_close(rt, files, store, job, input, output),
    }
}

/// Executes the job on the opened desk, and closes its file. If the job is done but the file cannot
/// be closed, returns `Open` with the fault of the close. A job that serves opens the file again
/// before a stream if a fault has closed its store.
pub(crate) fn execute_job_on_opened<
    S: Alter,
    F: DeskFiles<Desk = Store<S>>,
    R: Read + Drop,
    W: Write,
>(
    rt: &HostRuntime,
    files: &F,
    path: &str,
    opened: Result<Store<S>, Fault>,
    job: &Job,
    input: R,
    output: &mut PipeWriter<W>,
) -> Ending
    ensures { ExecutesJobOnOpened S.Store F.opens F.closes rt.entry job.now path.now opened
        (record { input = R.remaining input; before = W.contents output.old.output; after = W.contents output.new.output }) result }
{
    match opened {
        Ok(store) => execute_job_on_file_store(rt, files, path, store, job, input, output),
        Err(fault) => Ending::Open(fault),
    }
}

pub(crate) fn execute_in_memory<R: Read + Drop, W: Write>(
    rt: &HostRuntime,
    job: &Job,
    input: R,
    output: &mut PipeWriter<W>,
) -> Ending
    ensures { ExecutesJobInMemory rt.entry job.now
        (record { input = R.remaining input; before = W.contents output.old.output; after = W.contents output.new.output }) result }
{
    let Ok(conn) = Connection::open_in_memory(rt.alloc()) else {
        return Ending::Open(Fault::Store);
    };
    match Store::create(conn) {
        Ok(store) => {
            let (ending, _store) = execute_job_at_store(rt, store, job, input, output);
            ending
        }
        Err((_, fault)) => Ending::Open(fault),
    }
}
