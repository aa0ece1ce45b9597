//! The error line of a fault, and the sending of any error line.

ghost use Rattle.std.specs.Prelude.{◌≡◌, OnErr, OnOk};
ghost use Rattle.std.specs.Io.KnownBytes.{Appends};
ghost use Rattle.brk_cli_exit.specs.Lines as spec;
ghost use Rattle.brk_cli_exit.specs.Sinks.{SinkFailsWithinText};

use crate::sink::Sink;
use brk_io::NotWritten;
use brk_money::Fault;

/// An error line in two parts, without its line feed: the program's name with the subject, and the
/// cause.
pub type ErrorLineParts<'a> = (&'a str, &'a str);

/// Returns `brk: fault: ` and `memory` or `store`, or `brk: damaged: ` and the word for the
/// condition that fails.
pub fn fault_line(fault: Fault) -> ErrorLineParts<'static>
    ensures { spec.bytes_of_error_line result ≡ spec.error_line_of_fault fault }
{
    match fault {
        Fault::Memory => ("brk: fault: ", "memory"),
        Fault::Store => ("brk: fault: ", "store"),
        Fault::Damaged(condition) => ("brk: damaged: ", condition.output_word()),
    }
}

/// Sends the two parts of an error line and a line feed. A sink that fails has received a prefix of
/// these bytes.
pub fn send_line<S: Sink>(sink: &mut S, line: ErrorLineParts<'_>) -> Result<(), NotWritten>
    ensures ok { OnOk result (Appends (S.contents sink.old) (S.contents sink.new) (spec.bytes_of_error_line line.entry)) }
    ensures err { OnErr result (SinkFailsWithinText S.contents S.fails sink.old sink.new (spec.bytes_of_error_line line.entry)) }
{
    sink.send(line.0.as_bytes())?;
    sink.send(line.1.as_bytes())?;
    sink.send(b"\n")
}
