ghost use Rattle.std.specs.Prelude.{ℕ, List, Option, None, OnErr, OnOk};
ghost use Rattle.std.specs.Io.KnownBytes.{Appends};
ghost use Rattle.brk_cli_exit.specs.Sinks.{SinkFailsWithinText};

use brk_io::{NotWritten, write_all_bytes};
use std::io::Write;

/// A receiver of bytes that may fail.
pub trait Sink {
    /// The bytes that the sink has received, or `None` if they are unknown. Unknown for a sink that
    /// does not define them.
    ghost contents: { Self → Option (List ℕ) } = { λ _. None };

    /// Holds if the sink failed in a step from the first state to the second. Always holds for a
    /// sink that defines no relation of its own.
    ghost fails: { Self → Self → Type 0 } = { λ _ _. Unit {0} };

    /// Sends all of `bytes` to the sink, which has received a prefix of them, perhaps all, if it
    /// fails.
    fn send(&mut self, bytes: &[u8]) -> Result<(), NotWritten>
        ensures ok { OnOk result (Appends (contents self.old) (contents self.new) bytes.now) }
        ensures err { OnErr result (SinkFailsWithinText contents fails self.old self.new bytes.now) };
}

/// Every writer is a sink. `Write` specifies no failure, so any step of a writer may be one.
impl<W: Write> Sink for W {
    ghost contents = { W.contents };

    /// Fails at the first call of the writer that returns an error or accepts no byte.
    fn send(&mut self, bytes: &[u8]) -> Result<(), NotWritten> {
        write_all_bytes(self, bytes)
    }
}
