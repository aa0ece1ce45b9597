//! Jobs on the database of a connection to any disk, and what is observed of them.

use brk_desk::Desk;
use brk_http::ServeFault;
use brk_import::{BatchFault, Counts};
use brk_money::{Condition, Fault};
use brk_report::ReportFault;
use brk_store::Store;
use brk_tests_desks::desks::{
    connection_of_desk, create_store, run_batch_of_reader, serve_stream_of_reader, write_statement,
};
use brk_tests_desks::statements::Asked;
use brk_tests_desks::tables::read_all_tables;
use sqlite::{Alter, Connection};
use std::alloc::Global;
use std::test::Fail;

/// A task of a desk.
#[derive(Clone, Copy)]
pub enum Task {
    /// Executes the batch that is the input of the job.
    Batch,
    /// Writes the statement of an account. The input is not used.
    Statement(Asked),
    /// Serves the stream of HTTP requests that is the input of the job.
    Stream,
}

/// A job on a database.
#[derive(Clone, Copy)]
pub enum Job {
    /// Executes the SQL statements of another program that are the input of the job.
    Sql,
    /// Creates or adopts the desk and performs its task.
    Desk(Task),
    /// Reads all tables, creates or adopts the desk, performs its task, audits it, and reads all
    /// tables again.
    Observed(Task),
}

/// The end of a job.
#[derive(Clone, Copy)]
pub enum Ended {
    /// It was not begun: the database could not be opened, or the desk neither created nor adopted.
    NotBegun,
    /// The SQL statements, the batch or the statement of an account were completed.
    Done,
    /// The stream was completed, with this number of replies.
    Served(u64),
    /// The statement of an account failed with `Store`.
    StoreFault,
    /// The job failed otherwise.
    OtherFault,
}

/// The observation of a job: its end and the bytes that it wrote. For a job `Observed` also all
/// tables before and after it as text, empty if they could not be read, and true if an audit passed
/// after it.
#[derive(Drop)]
pub struct Observation {
    pub before: String,
    pub lines: Vec<u8>,
    pub ended: Ended,
    pub is_sound: bool,
    pub after: String,
}

impl Observation {
    /// Returns an empty observation, for a job that is not yet begun.
    pub fn empty(alloc: Global) -> Observation {
        Observation {
            before: String::new(alloc),
            lines: Vec::new(alloc),
            ended: Ended::NotBegun,
            is_sound: false,
            after: String::new(alloc),
        }
    }

    /// Returns all tables after the job as text.
    pub fn into_tables(self) -> Result<String, Fail> {
        let Observation { after, .. } = self;
        if after.is_empty() {
            Err(Fail::new("tables that could not be read"))
        } else {
            Ok(after)
        }
    }
}

// Returns the outcome of a batch: `Done` if it completed, otherwise `OtherFault`.
fn outcome_of_batch(ended: Result<Counts, BatchFault>) -> Ended {
    match ended {
        Ok(_) => Ended::Done,
        Err(_) => Ended::OtherFault,
    }
}

// Returns the outcome of the statement of an account: `Done` if it completed, `StoreFault` if it
// failed with `Store`, otherwise `OtherFault`.
fn outcome_of_statement(ended: Result<(), ReportFault>) -> Ended {
    match ended {
        Ok(()) => Ended::Done,
        Err(ReportFault::Desk(Fault::Store)) => Ended::StoreFault,
        Err(_) => Ended::OtherFault,
    }
}

// Returns the outcome of a stream: `Served` with the number of replies if it completed, otherwise
// `OtherFault`.
fn outcome_of_stream(ended: Result<u64, ServeFault>) -> Ended {
    match ended {
        Ok(replies) => Ended::Served(replies),
        Err(_) => Ended::OtherFault,
    }
}

// Executes the SQL statements `input` on a database. Returns `Done`, or `OtherFault` if a statement
// fails or `input` is not UTF-8.
fn execute_sql<S: Alter>(conn: &mut Connection<S>, input: &[u8]) -> Ended {
    let Ok(text) = str::from_utf8(input) else {
        return Ended::OtherFault;
    };
    match conn.execute_batch(text) {
        Ok(()) => Ended::Done,
        Err(_) => Ended::OtherFault,
    }
}

// Creates a desk in the database of a connection, or, if the database has tables of a desk already,
// adopts this desk. Fails with the connection if the desk is neither created nor adopted.
fn create_or_adopt_desk<S: Alter + Drop>(
    alloc: Global,
    conn: Connection<S>,
) -> Result<Desk<S>, Connection<S>> {
    match create_store(conn) {
        Ok(store) => Ok(Desk::new(store)),
        Err((conn, Fault::Damaged(Condition::NotEmpty))) => match Store::adopt(alloc, conn) {
            Ok(store) => Ok(Desk::new(store)),
            Err((conn, _)) => Err(conn),
        },
        Err((conn, _)) => Err(conn),
    }
}

// Performs a task of a desk with the input `input` at 2024-03-01 00:00 UTC, appends the bytes that
// the task writes to `lines`, and returns the outcome of the task.
fn perform_task<S: Alter>(
    alloc: Global,
    desk: &mut Desk<S>,
    task: Task,
    input: &[u8],
    lines: &mut Vec<u8>,
) -> Ended {
    match task {
        Task::Batch => outcome_of_batch(run_batch_of_reader(alloc, input, lines, desk)),
        Task::Statement(asked) => outcome_of_statement(write_statement(alloc, asked, lines, desk)),
        Task::Stream => outcome_of_stream(serve_stream_of_reader(alloc, input, lines, desk)),
    }
}

// Creates or adopts the desk in the database of a connection, performs the task `task` of this desk
// with the input `input`, and returns the connection. Records the bytes that the task writes and
// its outcome in `seen`. Performs nothing if the desk is neither created nor adopted.
fn open_desk_and_perform_task<S: Alter + Drop>(
    alloc: Global,
    conn: Connection<S>,
    task: Task,
    input: &[u8],
    seen: &mut Observation,
) -> Connection<S> {
    match create_or_adopt_desk(alloc, conn) {
        Ok(mut desk) => {
            seen.ended = perform_task(alloc, &mut desk, task, input, &mut seen.lines);
            connection_of_desk(desk)
        }
        Err(conn) => conn,
    }
}

// Performs a task of a desk with the input `input`, and then audits the desk. Records the bytes
// that the task writes, its outcome and whether the audit passed in `seen`.
fn perform_task_and_audit<S: Alter>(
    alloc: Global,
    desk: &mut Desk<S>,
    task: Task,
    input: &[u8],
    seen: &mut Observation,
) {
    seen.ended = perform_task(alloc, desk, task, input, &mut seen.lines);
    seen.is_sound = desk.audit(alloc).is_ok();
}

// Returns the names and the rows of all tables of a desk, in the database of a connection, as text,
// empty if they cannot be read or printed, or if memory runs out.
fn tables_text_or_empty<S: Alter>(alloc: Global, conn: &mut Connection<S>) -> String {
    match read_all_tables(alloc, conn) {
        Some(tables) => tables,
        None => String::new(alloc),
    }
}

/// Reads all tables of a desk in the database of a connection, creates or adopts the desk, performs
/// the task `task` with the input `input` at 2024-03-01 00:00 UTC, audits the desk, reads the
/// tables again, and returns the connection. Records what is observed in `seen`. Performs nothing
/// after the first reading if the desk is neither created nor adopted.
pub fn perform_observed_task<S: Alter + Drop>(
    alloc: Global,
    mut conn: Connection<S>,
    task: Task,
    input: &[u8],
    seen: &mut Observation,
) -> Connection<S> {
    seen.before = tables_text_or_empty(alloc, &mut conn);
    match create_or_adopt_desk(alloc, conn) {
        Ok(mut desk) => {
            perform_task_and_audit(alloc, &mut desk, task, input, seen);
            let mut conn = connection_of_desk(desk);
            seen.after = tables_text_or_empty(alloc, &mut conn);
            conn
        }
        Err(conn) => conn,
    }
}

/// Performs a job with the input `input` on the database of a connection, and returns the
/// connection, whether the job fails or not. Records what is observed in `seen`. A task of a desk
/// is performed at 2024-03-01 00:00 UTC, and is not begun if the desk can be neither created nor
/// adopted.
pub fn perform_job<S: Alter + Drop>(
    alloc: Global,
    mut conn: Connection<S>,
    job: Job,
    input: &[u8],
    seen: &mut Observation,
) -> Connection<S> {
    match job {
        Job::Sql => {
            seen.ended = execute_sql(&mut conn, input);
            conn
        }
        Job::Desk(task) => open_desk_and_perform_task(alloc, conn, task, input, seen),
        Job::Observed(task) => perform_observed_task(alloc, conn, task, input, seen),
    }
}
