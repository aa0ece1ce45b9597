//! What the bytes of a log say.

ghost use Rattle.std.specs.Prelude.{◌↔◌, IsTrue};
ghost use Rattle.brk_cli_log.specs.Damage.{IsDamaged, IsReadingOf};

use crate::behind::has_lost_commit;
use crate::commits::has_commit;
use crate::header::{header, is_signed};

/// What the bytes of a log say, before a database reads them.
#[derive(Clone, Copy, Debug, PartialEq, Eq)]
pub enum LogReading {
    /// The log is in a state that no crash leaves: to read it would lose commits.
    Damaged,
    /// The log has the mark of a commit.
    WithCommit,
    /// The log has no mark of a commit, or is none.
    WithoutCommit,
}

/// The length of a log that was copied into its file: a header, and no frame.
pub const EMPTIED_LEN: usize = 41;

fn is_damaged(log: &[u8]) -> bool
    ensures { IsTrue result ↔ IsDamaged log.now }
{
    if log.len() <= EMPTIED_LEN {
        return false;
    }
    if is_signed(header(log)) {
        has_lost_commit(log)
    } else {
        log[0] != 0
    }
}

/// Reads the bytes of a log, none if there is no log.
pub fn read_log(log: &[u8]) -> LogReading
    ensures { IsReadingOf log.now result }
{
    if is_damaged(log) {
        LogReading::Damaged
    } else if has_commit(log) {
        LogReading::WithCommit
    } else {
        LogReading::WithoutCommit
    }
}
