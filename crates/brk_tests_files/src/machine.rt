//! A machine with the two files of a desk in memory: it crashes at a call of one of them, loses or
//! stores the bytes that were not synced, and restarts.

use crate::jobs::{Ended, Job, Observation, Task, perform_job};
use brk_tests_desks::expect;
use brk_tests_desks::worked::SET;
use sqlite::{Connection, FileStore, Files, Options};
use sqlite_disk::{Crash, Disk, Fuse, Memory};
use std::alloc::{AllocError, Global};
use std::test::Fail;

/// One of the two files of a desk.
#[derive(Clone, Copy)]
pub enum File {
    /// The log, which has the commits that are not yet in the database file.
    Log,
    /// The database file.
    Database,
}

/// A crash of the machine: the file `file` accepts `calls` calls and fails at each later call.
/// Bytes that were not synced are lost if `loses` is true, and otherwise stored.
#[derive(Clone, Copy)]
pub struct MachineCrash {
    pub name: &'static str,
    pub file: File,
    pub loses: bool,
    pub calls: u64,
}

impl MachineCrash {
    /// No crash: each file accepts all calls.
    pub const NEVER: MachineCrash = MachineCrash {
        name: "no stop",
        file: File::Log,
        loses: false,
        calls: u64::MAX,
    };
    /// Returns a crash at the call of the log after `calls` calls, with the bytes that were not
    /// synced stored.
    pub fn after_log_calls(calls: u64) -> MachineCrash {
        MachineCrash {
            name: "the log",
            file: File::Log,
            loses: false,
            calls,
        }
    }

    /// Returns a crash at the call of the database file after `calls` calls, with the bytes that
    /// were not synced stored.
    pub fn after_database_calls(calls: u64) -> MachineCrash {
        MachineCrash {
            name: "the database file",
            file: File::Database,
            loses: false,
            calls,
        }
    }
}

/// The bytes of the two files of a desk, the log and the database file.
#[derive(Drop)]
pub struct Held {
    pub log: Vec<u8>,
    pub db: Vec<u8>,
}

impl Held {
    /// Returns two empty files.
    pub fn empty_files(alloc: Global) -> Held {
        Held {
            log: Vec::new(alloc),
            db: Vec::new(alloc),
        }
    }

    /// Returns a copy of the files.
    pub fn copy(&self) -> Result<Held, AllocError> {
        let log = self.log.clone()?;
        let db = self.db.clone()?;
        Ok(Held { log, db })
    }
}

/// Opens the database in these files. Empty files, and those that an interrupted creation of a
/// database left, get an empty database. Fails with the files if a sync of one of them has failed,
/// or if the database cannot be opened.
pub fn open_database<D: Disk + Drop>(
    alloc: Global,
    files: Files<D>,
    options: Options,
) -> Result<Connection<FileStore<D>>, Files<D>> {
    if !files.may_be_used() {
        return Err(files);
    }
    match Connection::open_files(alloc, files, options) {
        Ok(conn) => Ok(conn),
        Err((_, left)) => Err(left.into_files()),
    }
}

/// Closes the database of the connection: rolls back an open transaction and copies the log into
/// the database file. Returns the files, also if the copy fails.
pub fn close_database<D: Disk + Drop>(conn: Connection<FileStore<D>>) -> Files<D> {
    match conn.close_files() {
        Ok(files) => files,
        Err((_, store)) => store.close(),
    }
}

// Opens these files, performs a job with the input `input` on the database in them, and closes them
// (`close_database`). Records the observation of the job in `seen`, and returns the files. Performs
// and records nothing if a sync of a file has failed or the database cannot be opened.
fn perform_job_in_files<D: Disk + Drop>(
    alloc: Global,
    files: Files<D>,
    options: Options,
    job: Job,
    input: &[u8],
    seen: &mut Observation,
) -> Files<D> {
    match open_database(alloc, files, options) {
        Ok(conn) => close_database(perform_job(alloc, conn, job, input, seen)),
        Err(files) => files,
    }
}

// Returns a file in memory with these bytes, all synced. It accepts `calls` calls and fails at each
// later call.
fn failing_file_with_bytes(
    alloc: Global,
    bytes: &[u8],
    calls: u64,
) -> Result<Fuse<Memory>, AllocError> {
    let mut file = Memory::new(alloc);
    if file.write_at(0, bytes).is_err() || file.sync().is_err() {
        return Err(AllocError);
    }
    Ok(Fuse::new(file, calls))
}

/// Returns the two files of a desk in memory, with the bytes `held`, all synced. The file
/// `stop.file` accepts `stop.calls` calls and fails at each later call; the other one accepts all
/// calls.
pub fn files_failing_at_crash(
    alloc: Global,
    held: &Held,
    stop: MachineCrash,
) -> Result<Files<Fuse<Memory>>, AllocError> {
    let (log_calls, db_calls) = match stop.file {
        File::Log => (stop.calls, u64::MAX),
        File::Database => (u64::MAX, stop.calls),
    };
    let log = failing_file_with_bytes(alloc, &held.log, log_calls)?;
    let db = failing_file_with_bytes(alloc, &held.db, db_calls)?;
    Ok(Files { log, db })
}

// Appends to `bytes` the bytes that a file has after the restart: those of its last sync if `loses`
// is true, and otherwise its last bytes, synced or not. Returns true if a sync of the file had
// failed before, or if its next call would fail. If memory runs out, fails, or appends the last
// bytes although `loses` is true.
fn append_bytes_after_crash(
    file: &mut Fuse<Memory>,
    loses: bool,
    bytes: &mut Vec<u8>,
) -> Result<bool, AllocError> {
    let was_stopped = !file.may_be_used() || file.len().is_err();
    if loses {
        file.crash();
    }
    bytes.extend_from_slice(file.inner().bytes())?;
    Ok(was_stopped)
}

/// Returns the bytes of the files after the restart (`append_bytes_after_crash`), and a flag: true
/// if a sync of one of the files had failed before, or if the next call of one of them would fail.
pub fn files_after_crash(
    alloc: Global,
    files: Files<Fuse<Memory>>,
    loses: bool,
) -> Result<(Held, bool), AllocError> {
    let Files { mut log, mut db } = files;
    let mut left = Held::empty_files(alloc);
    let is_log = append_bytes_after_crash(&mut log, loses, &mut left.log)?;
    let is_db = append_bytes_after_crash(&mut db, loses, &mut left.db)?;
    Ok((left, is_log || is_db))
}

/// A job that was performed on the database in files: its observation, the files after it, and true
/// if the machine crashed.
#[derive(Drop)]
pub struct Sent {
    pub seen: Observation,
    pub held: Held,
    pub was_stopped: bool,
}

/// The number of pages that a database of these tests caches if all its pages are to be cached:
/// more than the file of any test has, and fewer than the 2,000 of `Options::new`, which take
/// longer to allocate than most jobs to perform.
pub const CACHED_PAGES: usize = 200;

/// Returns the options of a database that caches at most `pages` of the pages that it reads, or one
/// if `pages` is 0. The other options equal `Options::new` with the seed 1.
pub fn options_with_cached_pages(pages: usize) -> Options {
    let mut options = Options::new(1);
    options.cache_pages = pages;
    options
}

/// Performs a job with the input `input` on the database in the files `held` until the machine
/// crashes, at the call of the file that `stop` names, or to the end of the job. Returns the
/// observation of the job, the files after it, and whether the machine crashed; this is also true
/// if the file has accepted exactly `stop.calls` calls at the end of the job.
pub fn perform_job_until_crash(
    alloc: Global,
    held: &Held,
    stop: MachineCrash,
    options: Options,
    job: Job,
    input: &[u8],
) -> Result<Sent, Fail> {
    let files = files_failing_at_crash(alloc, held, stop)?;
    let mut seen = Observation::empty(alloc);
    let files = perform_job_in_files(alloc, files, options, job, input, &mut seen);
    let (held, was_stopped) = files_after_crash(alloc, files, stop.loses)?;
    Ok(Sent {
        seen,
        held,
        was_stopped,
    })
}

/// Creates a desk in the files `held`, or adopts the one in them, and executes a batch on it until
/// the machine crashes, at the call of the file that `stop` names, or to the end of the batch.
/// Returns the observation of the batch, with all tables before and after it and an audit, the
/// files after it, and whether the machine crashed (`perform_job_until_crash`).
pub fn run_batch_until_crash(
    alloc: Global,
    held: &Held,
    stop: MachineCrash,
    batch: &[u8],
) -> Result<Sent, Fail> {
    let job = Job::Observed(Task::Batch);
    perform_job_until_crash(
        alloc,
        held,
        stop,
        options_with_cached_pages(CACHED_PAGES),
        job,
        batch,
    )
}

/// Returns the files of a new desk after the batch `SET`. Does not check that the desk was created
/// or that the batch completed.
pub fn files_with_reference_data(alloc: Global) -> Result<Held, Fail> {
    let Sent { held, .. } = run_batch_until_crash(
        alloc,
        &Held::empty_files(alloc),
        MachineCrash::NEVER,
        SET,
    )?;
    Ok(held)
}

/// Executes the SQL statements `text` on the database in the files `held`, as another program
/// would, and returns the files after them.
pub fn files_after_sql(alloc: Global, held: &Held, text: &str) -> Result<Held, Fail> {
    let Sent { seen, held, .. } = perform_job_until_crash(
        alloc,
        held,
        MachineCrash::NEVER,
        options_with_cached_pages(CACHED_PAGES),
        Job::Sql,
        text.as_bytes(),
    )?;
    expect(matches!(seen.ended, Ended::Done), "a change that fails")?;
    Ok(held)
}
