ghost use Rattle.std.specs.Prelude.{ℕ, take, OnOk, OnErr};
ghost use Rattle.std.specs.Io.KnownBytes.{Appends};

use std::io::Write;

/// The error of `write_all_bytes`: a call of the writer returned an error or accepted no byte.
#[derive(Clone, Copy, Debug, PartialEq, Eq)]
pub struct NotWritten;

/// Writes all of `bytes`. Fails at the first `write` that returns 0 or an error, an interruption
/// too; a prefix of unknown length is then written.
pub fn write_all_bytes<W: Write>(writer: &mut W, bytes: &[u8]) -> Result<(), NotWritten>
    ensures ok { OnOk result (Appends (W.contents writer.old) (W.contents writer.new) bytes.now) }
    ensures err { OnErr result ((k : ℕ) × Appends (W.contents writer.old) (W.contents writer.new) (take k bytes.now)) }
{
    let mut at = 0;
    while at < bytes.len() {
        match writer.write(&bytes[at..]) {
            Ok(0) | Err(_) => return Err(NotWritten),
            Ok(n) => at += n,
        }
    }
    Ok(())
}
