//! A job: the place of its desk, its execution there, and the `ok` after an audit.

ghost use Rattle.std.specs.Prelude.{◌≡◌};
ghost use Rattle.brk_cli_jobs.specs.BatchText.{CompletesBatchOfJob, PrintsBatchOfJob};
ghost use Rattle.brk_cli_jobs.specs.JobText.{PrintsJobAt};
ghost use Rattle.brk_cli_jobs.specs.Places.{ExecutesJobAt, ExecutesJobInExistingFile, ExecutesJobInFile, PrintsOkAfterAudit, RunsJob, place_of_job, place_of_optional_path};
ghost use Rattle.brk_cli_jobs.specs.Requested.{AnswersRequest, WritesHelpText, abstract_place};

use crate::audit::write_audit_ok;
use crate::desk::{execute_in_memory, execute_job_on_opened};
use crate::desk_files::DeskFiles;
use crate::pipe::PipeWriter;
use crate::words::check_words;
use brk_cli_args::{Job, UsageFault};
use brk_cli_exit::Ending;
use brk_io::write_all_bytes;
use brk_money::Fault;
use brk_report::ReportFault;
use brk_store::Store;
use sqlite::Alter;
use std::io::{Read, Write};

fn write_help_text<W: Write>(text: String, output: &mut W) -> Ending
    ensures { WritesHelpText text (W.contents output.old) (W.contents output.new) result }
{
    match write_all_bytes(output, text.as_bytes()) {
        Ok(()) => Ending::Usage(UsageFault::Help(text)),
        Err(_) => Ending::Output,
    }
}

// The place of the database of a job's desk.
#[derive(Clone, Copy)]
enum Place<'a> {
    /// In memory.
    Memory,
    /// In the file at a path; a desk is created if the file is missing or empty or has no table of
    /// a desk.
    FileOrNewFile(&'a str),
    /// In the file at a path, which must have a desk that the job changes.
    FileWithDesk(&'a str),
    /// In the file at a path, which must have a desk that the job reads.
    ExistingFile(&'a str),
}

fn place_of_path(db: &Option<String>, existing: bool) -> Place<'_>
    ensures { abstract_place result ≡ place_of_optional_path db.now existing }
{
    match db {
        Some(path) if existing => Place::FileWithDesk(path.as_str()),
        Some(path) => Place::FileOrNewFile(path.as_str()),
        None => Place::Memory,
    }
}

fn job_place(job: &Job) -> Place<'_>
    ensures { abstract_place result ≡ place_of_job job.now }
{
    match job {
        Job::Batch { db, existing, .. } => place_of_path(db, *existing),
        Job::Serve { db, existing, .. } => place_of_path(db, *existing),
        Job::Statement { db, .. } => Place::ExistingFile(db.as_str()),
        Job::Statements { db, .. } => Place::ExistingFile(db.as_str()),
        Job::Ask { db, .. } => Place::ExistingFile(db.as_str()),
        Job::Explain { db, .. } => Place::ExistingFile(db.as_str()),
        Job::Audit { db } => Place::ExistingFile(db.as_str()),
    }
}

/// Returns the path of the file of a job's desk, none if the desk is in memory.
pub(crate) fn path_of_job(job: &Job) -> Option<&str> {
    match job_place(job) {
        Place::Memory => None,
        Place::FileOrNewFile(path) | Place::FileWithDesk(path) | Place::ExistingFile(path) => Some(
            path,
        ),
    }
}

// The file at `path` must have a desk.
fn execute_in_opened_file<S: Alter, F: DeskFiles<Desk = Store<S>>, R: Read + Drop, W: Write>(
    rt: &HostRuntime,
    files: &F,
    path: &str,
    job: &Job,
    input: R,
    output: &mut PipeWriter<W>,
) -> Ending
    ensures { ExecutesJobInFile S.Store F.opens F.opens F.closes rt.entry job.now path.now
        (record { input = R.remaining input; before = W.contents output.old.output; after = W.contents output.new.output }) result }
{
    let opened = files.open(path);
    execute_job_on_opened(rt, files, path, opened, job, input, output)
}

// Wrong words are refused before the file is opened.
fn execute_in_existing_file<S: Alter, F: DeskFiles<Desk = Store<S>>, R: Read + Drop, W: Write>(
    rt: &HostRuntime,
    files: &F,
    path: &str,
    job: &Job,
    input: R,
    output: &mut PipeWriter<W>,
) -> Ending
    ensures { ExecutesJobInExistingFile S.Store F.opens F.closes rt.entry job.now path.now
        (record { input = R.remaining input; before = W.contents output.old.output; after = W.contents output.new.output }) result }
{
    match check_words(rt.alloc(), job) {
        Ok(Ok(())) => execute_in_opened_file(rt, files, path, job, input, output),
        Ok(Err(refusal)) => Ending::Statement(ReportFault::Refused(refusal)),
        Err(_) => Ending::Open(Fault::Memory),
    }
}

fn execute_job_at_place<S: Alter, F: DeskFiles<Desk = Store<S>>, R: Read + Drop, W: Write>(
    rt: &HostRuntime,
    files: &F,
    job: &Job,
    input: R,
    output: &mut PipeWriter<W>,
) -> Ending
    ensures { ExecutesJobAt S.Store F.opens_or_creates F.opens F.closes rt.entry job.now (place_of_job job.now)
        (record { input = R.remaining input; before = W.contents output.old.output; after = W.contents output.new.output }) result }
{
    match job_place(job) {
        Place::Memory => execute_in_memory(rt, job, input, output),
        Place::FileOrNewFile(path) => {
            let opened = files.open_or_create(path);
            execute_job_on_opened(rt, files, path, opened, job, input, output)
        }
        Place::FileWithDesk(path) => execute_in_opened_file(rt, files, path, job, input, output),
        Place::ExistingFile(path) => execute_in_existing_file(rt, files, path, job, input, output),
    }
}

// The file is closed by then: `ok` is printed only if its close succeeded.
fn print_ok_after_audit<W: Write>(job: &Job, ending: Ending, output: &mut W) -> Ending
    ensures { PrintsOkAfterAudit job.now ending (W.contents output.old) (W.contents output.new) result }
{
    match (job, ending) {
        (Job::Audit { .. }, Ending::Done) => write_audit_ok(output),
        (_, ending) => ending,
    }
}

/// Opens or creates the desk of a job, executes the job, closes the file of the desk, if it has
/// one, and returns the outcome of the job. Returns `Open` with the fault if the desk cannot be
/// opened or created, or if the job is done and the file cannot be closed. After an audit that
/// passed and this close, writes `ok` and a line feed to `output`, or returns `Output`.
pub fn execute_job<S: Alter, F: DeskFiles<Desk = Store<S>>, R: Read + Drop, W: Write>(
    rt: &HostRuntime,
    files: &F,
    job: &Job,
    input: R,
    output: &mut PipeWriter<W>,
) -> Ending
    // The job was executed once, on the desk at its place.
    ensures ran { RunsJob S.Store F.opens_or_creates F.opens F.closes rt.entry job.now
        (record { input = R.remaining input; before = W.contents output.old.output; after = W.contents output.new.output }) result }
    // `Done` after a batch without a file, at a fixed time, means that exactly the text of the batch
    // on an empty brokerage was written.
    ensures printed { PrintsBatchOfJob rt.entry job.now (R.remaining input)
        (record { input = R.remaining input; before = W.contents output.old.output; after = W.contents output.new.output }) result }
    // `Done` after a batch with a file, at a fixed time, means that exactly the text of the batch
    // from any base that the file represented was written.
    ensures completed { CompletesBatchOfJob S.Store F.opens_or_creates F.opens F.closes job.now (R.remaining input)
        (record { input = R.remaining input; before = W.contents output.old.output; after = W.contents output.new.output }) result }
    // `Done` after a job that reads a file means that exactly the model's text of the job from any
    // base that the file represented was written. A refusal is the model's, and nothing was written.
    ensures told { PrintsJobAt S.Store F.opens F.closes job.now (place_of_job job.now)
        (record { input = R.remaining input; before = W.contents output.old.output; after = W.contents output.new.output }) result }
{
    let ending = execute_job_at_place(rt, files, job, input, output);
    print_ok_after_audit(job, ending, output)
}

/// Executes the job that the command-line arguments request (`read_words`, `execute_job`). If they
/// request help or the version, writes its text to `output` and returns `Usage` with it, or
/// `Output` if the writer fails. Returns `Usage` with the fault if they are wrong.
pub fn execute_requested_job<S: Alter, F: DeskFiles<Desk = Store<S>>, R: Read + Drop, W: Write>(
    rt: &HostRuntime,
    files: &F,
    requested: Result<Job, UsageFault>,
    input: R,
    output: &mut PipeWriter<W>,
) -> Ending
    ensures { AnswersRequest S.Store F.opens_or_creates F.opens F.closes rt.entry requested
        (record { input = R.remaining input; before = W.contents output.old.output; after = W.contents output.new.output }) result }
{
    match requested {
        Ok(job) => execute_job(rt, files, &job, input, output),
        Err(UsageFault::Help(text)) => write_help_text(text, output),
        Err(fault) => Ending::Usage(fault),
    }
}
