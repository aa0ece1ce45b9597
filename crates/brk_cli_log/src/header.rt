//! The header of a log.

ghost use Rattle.std.specs.Prelude.{◌≡◌, ◌≤◌, ◌↔◌, length, IsTrue};
ghost use Rattle.sqlite_wal.specs.Format.{IsSigned};
ghost use Rattle.sqlite_wal.specs.Recovery.{header};

use crate::bytes::read_sum;
use sqlite_wal::checksum_of;

#[tactic(auto, unfolding(sqlite_wal::specs::Format::part))]
pub(crate) fn header(log: &[u8]) -> &[u8]
    requires { 32 ≤ length log.now }
    ensures bytes { result.now ≡ header log.now }
    ensures len { length result.now ≡ 32 }
{
    &log[..32]
}

/// The header begins with the magic number, and ends with its own sum.
pub(crate) fn is_signed(head: &[u8]) -> bool
    requires { 32 ≤ length head.now }
    ensures { IsTrue result ↔ IsSigned head.now }
{
    if head[0] != 0x37 || head[1] != 0x7f || head[2] != 0x06 {
        return false;
    }
    if head[3] != 0x82 && head[3] != 0x83 {
        return false;
    }
    checksum_of(head[3] == 0x83, (0, 0), &head[..24]) == read_sum(head, 24)
}
