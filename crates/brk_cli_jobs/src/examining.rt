//! A file and its log, examined before the database opens them. What the numbers of their formats
//! mean is said in specs/Examined.antt.

ghost use Rattle.std.specs.Prelude.{◌≡◌, ◌↔◌, ◌<◌, length, IsTrue};
ghost use Rattle.brk_cli_jobs.specs.Examined.{BeginsAsDatabase, HasDatabaseHeader, IsPartOfFirstPage, IsUnfinished, MayBeOpened};

use brk_cli_log::{LogReading, begins_database, read_log};
use std::io::{ErrorKind, Read};
use std::{fs, io};

/// One byte more than a creation that was stopped leaves in a file.
const START: u64 = 4097;

fn begins_as_database(file: &[u8]) -> bool
    ensures { IsTrue result ↔ BeginsAsDatabase file.now }
{
    file.starts_with(b"SQLite format 3\0")
}

// A file that was cut below its smallest page is none.
fn has_database_header(file: &[u8]) -> bool
    ensures { IsTrue result ↔ HasDatabaseHeader file.now }
{
    file.len() >= 512 && begins_as_database(file)
}

fn is_part_of_first_page(file: &[u8]) -> bool
    requires { 0 < length file.now }
    ensures { IsTrue result ↔ IsPartOfFirstPage file.now }
{
    file.len() == 1 || (file[0] == 0 && file.len() <= 4096)
}

// True of an empty file, and of one that a creation that was stopped leaves, beside its log.
fn is_unfinished(file: &[u8], log: &[u8]) -> bool
    ensures { IsTrue result ↔ IsUnfinished file.now log.now }
{
    if file.is_empty() {
        return true;
    }
    if file.len() == 1 && file[0] == 0 {
        return true;
    }
    is_part_of_first_page(file) && begins_database(log)
}

// Decides by the bytes alone.
fn may_be_opened(file: &[u8], log: &[u8]) -> bool
    ensures { IsTrue result ↔ MayBeOpened file.now log.now }
{
    match read_log(log) {
        LogReading::Damaged => false,
        LogReading::WithCommit => has_database_header(file),
        LogReading::WithoutCommit => has_database_header(file) || is_unfinished(file, log),
    }
}

// Reads the first `START` bytes of a file, none if it is missing. Fails on what is no regular file,
// without opening it.
fn read_start(rt: &HostRuntime, path: &str) -> io::Result<Vec<u8>> {
    let mut start = Vec::new(rt.alloc());
    match fs::metadata(rt, path) {
        Ok(found) if found.is_file() => {}
        Ok(_) => return Err(ErrorKind::Unsupported.into()),
        Err(error) if error.kind() == ErrorKind::NotFound => return Ok(start),
        Err(error) => return Err(error),
    }
    fs::open(rt, path)?.take(START).read_to_end(&mut start)?;
    Ok(start)
}

// Returns the path of the log, beside the file itself if `path` is a link.
pub(crate) fn log_path(rt: &HostRuntime, path: &str) -> io::Result<String> {
    match fs::canonicalize(rt, path) {
        Ok(real) => Ok(format!(in rt.alloc(); "{}-wal", real.as_str())?),
        Err(error) if error.kind() == ErrorKind::NotFound => {
            Ok(format!(in rt.alloc(); "{path}-wal")?)
        }
        Err(error) => Err(error),
    }
}

// Reads the whole log, nothing if it is missing. Fails on what is no regular file, and on a link.
fn read_log_file(rt: &HostRuntime, path: &str) -> io::Result<Vec<u8>> {
    let path = log_path(rt, path)?;
    match fs::symlink_metadata(rt, path.as_str()) {
        Ok(found) if found.is_file() => fs::read(rt, path.as_str()),
        Ok(_) => Err(ErrorKind::Unsupported.into()),
        Err(error) if error.kind() == ErrorKind::NotFound => Ok(Vec::new(rt.alloc())),
        Err(error) => Err(error),
    }
}

// Decides as `may_be_opened` on the file at `path` and its log. Fails if it cannot read one of them.
fn examine(rt: &HostRuntime, path: &str) -> io::Result<bool> {
    let file = read_start(rt, path)?;
    let log = read_log_file(rt, path)?;
    Ok(may_be_opened(&file, &log))
}

/// Returns whether the database may open the file at `path`, or make a desk there if it is missing
/// or empty. Returns false also if the file or its log cannot be read.
pub(crate) fn may_open_or_create(rt: &HostRuntime, path: &str) -> bool {
    examine(rt, path).unwrap_or(false)
}

/// Returns whether the log beside the file at `path` has a commit. Returns true also if the log is
/// damaged or cannot be read.
pub(crate) fn may_have_commit(rt: &HostRuntime, path: &str) -> bool {
    match read_log_file(rt, path) {
        Ok(log) => read_log(&log) != LogReading::WithoutCommit,
        Err(_) => true,
    }
}
