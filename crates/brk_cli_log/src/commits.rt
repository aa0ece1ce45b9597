//! The marks of commits in a log.

ghost use Rattle.std.specs.Prelude.{◌≡◌, ◌↔◌, ◌+◌, ◌≤◌, length, IsTrue};
ghost use Rattle.brk_cli_log.specs.Commits.{BeginsDatabase, HasCommit, HasCommitMarkAt, IsLog};

use crate::bytes::read_number;

fn is_log(log: &[u8]) -> bool
    ensures { IsTrue result ↔ IsLog log.now }
{
    if log.len() < 32 {
        return false;
    }
    let magic = read_number(log, 0);
    magic == 0x377f_0682 || magic == 0x377f_0683
}

/// The log is the one that a creation writes before the first page of a database.
pub fn begins_database(log: &[u8]) -> bool
    ensures { IsTrue result ↔ BeginsDatabase log.now }
{
    is_log(log) && read_number(log, 8) == 4096 && read_number(log, 12) == 0xffff_ffff
}

// The frame at `at` ends a transaction, and has the salts of the log's header.
fn has_commit_mark(log: &[u8], at: usize) -> bool
    requires header { 32 ≤ length log.now }
    requires frame { at + 24 ≤ length log.now }
    ensures { IsTrue result ↔ HasCommitMarkAt log.now at }
{
    read_number(log, at + 4) != 0
        && read_number(log, at + 8) == read_number(log, 16)
        && read_number(log, at + 12) == read_number(log, 20)
}

/// The log has a whole frame with the mark of a commit.
pub(crate) fn has_commit(log: &[u8]) -> bool
    ensures { IsTrue result ↔ HasCommit log.now }
{
    if !is_log(log) {
        return false;
    }
    let frame_len = 24 + read_number(log, 8) as usize;
    for i in 0..(log.len() - 32) / frame_len {
        if has_commit_mark(log, 32 + i * frame_len) {
            return true;
        }
    }
    false
}
