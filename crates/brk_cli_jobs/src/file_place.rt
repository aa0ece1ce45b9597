//! The files of databases, over any place that has them, and those of the machine.

ghost use Rattle.std.specs.Prelude.{ℕ, Bool, List, OnOk, Result};
ghost use Rattle.brk_cli_jobs.specs.Files.{HasLastCommitInFile};
ghost use Rattle.brk_money.specs.declared.fault.StoreFailed.{StoreFailed};

use crate::examining::{may_have_commit, may_open_or_create};
use crate::log_rights::restrict_log;
use crate::log_writing::write_log_again;
use brk_money::StoreFailed;
use sqlite::{Connection, File, FileStore};
use std::fs;
use std::io::ErrorKind;

/// A place that has files, each at a path.
pub trait FilePlace {
    /// A connection to the database in an open file.
    type Open;

    /// Holds if the file at the path may be found missing or empty (true), or neither (false).
    ghost finds_blank: { List ℕ → Bool → Type 0 };

    /// Holds if opening the file at the path as a database may have this result.
    ghost connects: { List ℕ → Result Self.Open StoreFailed → Type 0 };

    /// Holds if closing the connection may have this result.
    ghost disconnects: { Self.Open → Result (Unit {0}) StoreFailed → Type 0 };

    /// Returns whether the file at `path` is missing or empty.
    fn is_missing_or_empty(&self, path: &str) -> bool
        ensures { finds_blank path.now result };

    /// Opens the file at `path` as a database, which is new if the file is missing or empty.
    fn connect(&self, path: &str) -> Result<Self::Open, StoreFailed>
        ensures { connects path.now result };

    fn disconnect(&self, conn: Self::Open) -> Result<(), StoreFailed>
        ensures { disconnects conn result };
}

/// The files of the machine.
#[derive(Clone, Copy)]
pub struct MachinePlace<'a> {
    rt: &'a HostRuntime,
    tells_lost: bool,
}

impl<'a> MachinePlace<'a> {
    pub fn new(rt: &'a HostRuntime) -> MachinePlace<'a> {
        MachinePlace {
            rt,
            tells_lost: false,
        }
    }

    /// The files of the machine, for a job that changes a desk and creates none. A file that is
    /// missing or empty beside a log with a commit is not found so, and cannot be opened.
    pub fn with_desks(rt: &'a HostRuntime) -> MachinePlace<'a> {
        MachinePlace {
            rt,
            tells_lost: true,
        }
    }

    fn is_blank(&self, path: &str) -> bool {
        match fs::metadata(self.rt, path) {
            Ok(found) => found.is_file() && found.len() == 0,
            Err(error) => error.kind() == ErrorKind::NotFound,
        }
    }
}

fn close_connection(conn: Connection<FileStore<File>>) -> Result<(), StoreFailed>
    ensures { OnOk result (HasLastCommitInFile conn) }
{
    match conn.close_files() {
        Ok(_) => Ok(()),
        Err((_, store)) => {
            drop(store.close());
            Err(StoreFailed)
        }
    }
}

/// No contract of a file names its path, or says that it is missing or empty.
impl FilePlace for MachinePlace<'_> {
    ghost use Rattle.std.specs.Prelude.{IfOk};
    ghost use Rattle.brk_cli_jobs.specs.Files.{IsNewConnectionToFile};

    type Open = Connection<FileStore<File>>;

    ghost finds_blank = { λ _ _. Unit {0} };

    ghost connects = { λ _ result. IfOk result IsNewConnectionToFile };

    ghost disconnects = { λ conn result. OnOk result (HasLastCommitInFile conn) };

    /// Returns false also if the file cannot be examined for another reason than that it is not
    /// found.
    fn is_missing_or_empty(&self, path: &str) -> bool {
        self.is_blank(path) && !(self.tells_lost && may_have_commit(self.rt, path))
    }

    /// Fails, and leaves the file and its log as they are, if the log is damaged, if the file is
    /// neither a database nor what a creation that was stopped leaves, or if none was made yet and
    /// its log has a commit. Fails also if the log has wider rights than the file, and they cannot
    /// be taken from it.
    fn connect(&self, path: &str) -> Result<Connection<FileStore<File>>, StoreFailed> {
        if !may_open_or_create(self.rt, path) {
            return Err(StoreFailed);
        }
        if restrict_log(self.rt, path).is_err() || write_log_again(self.rt, path).is_err() {
            return Err(StoreFailed);
        }
        match Connection::open(self.rt, path) {
            Ok(conn) => Ok(conn),
            Err(_) => Err(StoreFailed),
        }
    }

    /// Closes the file of a database. At `Ok`, under the disk assumption, the database file
    /// contains the last commit even without its log, and a crash exposes only this commit. At
    /// `StoreFailed` the file handle is dropped, and a part of the committed data may still be only
    /// in the log beside the file.
    fn disconnect(&self, conn: Connection<FileStore<File>>) -> Result<(), StoreFailed>
        ensures { OnOk result (HasLastCommitInFile conn) }
    {
        close_connection(conn)
    }
}
