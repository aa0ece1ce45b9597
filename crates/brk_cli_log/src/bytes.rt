//! Numbers and sums in the bytes of a log.

ghost use Rattle.std.specs.Prelude.{◌≡◌, ◌+◌, ◌≤◌, length};
ghost use Rattle.sqlite_wal.specs.Format.{be32, stored_sum};

/// Two sums of 32 bits, one over the other.
pub(crate) type Sum = (u32, u32);

/// Reads four bytes, the most significant one first.
#[tactic(auto, unfolding(sqlite_wal::specs::Format::be32))]
pub(crate) fn read_number(bytes: &[u8], at: usize) -> u32
    requires { at + 4 ≤ length bytes.now }
    ensures { result ≡ be32 bytes.now at }
{
    bytes[at] as u32 * 0x100_0000
        + bytes[at + 1] as u32 * 0x1_0000
        + bytes[at + 2] as u32 * 0x100
        + bytes[at + 3] as u32
}

pub(crate) fn read_sum(bytes: &[u8], at: usize) -> Sum
    requires { at + 8 ≤ length bytes.now }
    ensures { result ≡ stored_sum bytes.now at }
{
    (read_number(bytes, at), read_number(bytes, at + 4))
}
