//! A writer that records whether the reader of its pipe has closed the pipe.

ghost use Rattle.std.specs.Prelude.{◌≡◌, false};
ghost use Rattle.brk_cli_jobs.specs.Endings.{ending_of_report};

use brk_cli_exit::Ending;
use brk_report::ReportFault;
use std::io;
use std::io::{ErrorKind, Write};

/// A writer that passes the bytes on to another writer, and records whether a write failed because
/// the reader of the pipe had closed it.
#[derive(Drop)]
pub struct PipeWriter<W> {
    output: W,
    is_closed: bool,
}

impl<W> PipeWriter<W> {
    pub fn new(output: W) -> PipeWriter<W>
        ensures output { result.output ≡ output }
        ensures open { result.is_closed ≡ false }
    {
        PipeWriter {
            output,
            is_closed: false,
        }
    }

    pub fn into_output(self) -> W
        ensures { result ≡ self.output }
    {
        let PipeWriter {
            output,
            is_closed: _,
        } = self;
        output
    }

    /// A write that failed because the pipe was closed is `ClosedPipe`, not `Statement`.
    pub(crate) fn ending_of_write(&self, written: Result<(), ReportFault>) -> Ending
        ensures { result ≡ ending_of_report self.now.is_closed written }
    {
        match written {
            Ok(()) => Ending::Done,
            Err(ReportFault::Write) if self.is_closed => Ending::ClosedPipe,
            Err(fault) => Ending::Statement(fault),
        }
    }
}

impl<W: Write> Write for PipeWriter<W> {
    ghost contents = { λ p. W.contents p.output };

    /// Writes to the other writer, and records whether this failed because the pipe is closed.
    fn write(&mut self, bytes: &[u8]) -> io::Result<usize> {
        let written = self.output.write(bytes);
        if let Err(error) = &written {
            self.is_closed = self.is_closed || error.kind() == ErrorKind::BrokenPipe;
        }
        written
    }

    /// Flushes the other writer. Does not record a closed pipe: no job flushes.
    fn flush(&mut self) -> io::Result<()> {
        self.output.flush()
    }
}
