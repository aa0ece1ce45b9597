//! The endings of the program, with their exit statuses and error lines.

ghost use Rattle.std.specs.Prelude.{◌≡◌, OnErr, OnOk};
ghost use Rattle.std.specs.Io.KnownBytes.{Appends};
ghost use Rattle.brk_cli_exit.specs.Ending as spec;
ghost use Rattle.brk_cli_exit.specs.Lines as line;
ghost use Rattle.brk_cli_exit.specs.Sinks.{SinkFailsWithinText, ReceivesTextOrFails};

use crate::messages::{ErrorLineParts, fault_line, send_line};
use crate::sink::Sink;
use brk_io::stream_fault::FaultKind as StreamFault;
use brk_io::{BatchFault, FaultKind, NotWritten, ReportFault, ServeFault, UsageFault};
use brk_money::Fault;
use itoa::Buffer;

/// The outcome of the program.
#[derive(Drop)]
pub enum Ending {
    /// The job is done, even if rows were refused.
    Done,
    /// The desk could not be opened, created or closed, or memory ran out before the request for a
    /// view or an explanation was parsed.
    Open(Fault),
    /// The batch ended early.
    Batch(BatchFault),
    /// The statement, the explanation or the view is refused, or ended early.
    Statement(ReportFault),
    /// A stream of requests ended because memory ran out.
    Serve(ServeFault),
    /// The port could not be opened, for example because it is in use, or a stream could not be
    /// accepted.
    Net,
    /// The help, the version, or the `ok` of an audit could not be written.
    Output,
    /// The reader of the explanation or the view closed its pipe before the end of the text.
    ClosedPipe,
    /// The command-line arguments request no job.
    Usage(UsageFault),
}

fn batch_error(kind: FaultKind) -> ErrorLineParts<'static>
    ensures { line.bytes_of_error_line result ≡ spec.error_line_of_batch kind }
{
    match kind {
        FaultKind::BadHeader => ("brk: batch: ", "bad header"),
        FaultKind::NoEnd => ("brk: batch: ", "no end"),
        FaultKind::BadEnd => ("brk: batch: ", "bad end"),
        FaultKind::Read => ("brk: fault: ", "read"),
        FaultKind::Write => ("brk: fault: ", "write"),
        FaultKind::Desk(fault) => fault_line(fault),
    }
}

fn stream_error(kind: StreamFault) -> ErrorLineParts<'static>
    ensures { line.bytes_of_error_line result ≡ spec.error_line_of_stream kind }
{
    match kind {
        StreamFault::Read => ("brk: fault: ", "read"),
        StreamFault::Write => ("brk: fault: ", "write"),
        StreamFault::Memory => ("brk: fault: ", "memory"),
    }
}

fn fault_status(fault: Fault) -> u8
    ensures { result ≡ spec.exit_status_of_fault fault }
{
    match fault {
        Fault::Damaged(_) => 1,
        Fault::Memory | Fault::Store => 3,
    }
}

fn batch_status(kind: FaultKind) -> u8
    ensures { result ≡ spec.exit_status_of_batch_fault kind }
{
    match kind {
        FaultKind::BadHeader | FaultKind::NoEnd | FaultKind::BadEnd => 1,
        FaultKind::Read | FaultKind::Write => 3,
        FaultKind::Desk(fault) => fault_status(fault),
    }
}

fn report_status(fault: &ReportFault) -> u8
    ensures { result ≡ spec.exit_status_of_report_fault fault.now }
{
    match fault {
        ReportFault::Refused(_) => 1,
        ReportFault::Desk(fault) => fault_status(*fault),
        ReportFault::Write => 3,
    }
}

fn ending_status(ending: &Ending) -> u8
    ensures { result ≡ spec.exit_status ending.now }
{
    match ending {
        Ending::Done => 0,
        Ending::Open(fault) => fault_status(*fault),
        Ending::Batch(fault) => batch_status(fault.kind),
        Ending::Statement(fault) => report_status(fault),
        Ending::Serve(_) => 3,
        Ending::Net => 3,
        Ending::Output => 3,
        Ending::ClosedPipe => 3,
        Ending::Usage(UsageFault::Help(_)) => 0,
        Ending::Usage(UsageFault::Words(_) | UsageFault::Day) => 2,
        Ending::Usage(UsageFault::Memory) => 3,
    }
}

/// Returns `Open` with the fault of the close if the job was done and the close failed, otherwise
/// `ending`.
pub fn ending_after_close(ending: Ending, closed: Result<(), Fault>) -> Ending
    ensures { result ≡ spec.ending_after_close ending closed }
{
    match (ending, closed) {
        (Ending::Done, Err(fault)) => Ending::Open(fault),
        (ending, _) => ending,
    }
}

fn send_report_error<S: Sink>(fault: &ReportFault, errors: &mut S) -> Result<(), NotWritten>
    ensures ok { OnOk result (Appends (S.contents errors.old) (S.contents errors.new) (spec.error_line_of_report fault.now)) }
    ensures err { OnErr result (SinkFailsWithinText S.contents S.fails errors.old errors.new (spec.error_line_of_report fault.now)) }
{
    match fault {
        ReportFault::Refused(refusal) => {
            let mut buffer = Buffer::new();
            send_line(errors, ("brk: refused: ", buffer.format(refusal.number())))
        }
        ReportFault::Desk(fault) => send_line(errors, fault_line(*fault)),
        ReportFault::Write => send_line(errors, ("brk: fault: ", "write")),
    }
}

fn send_usage_error<S: Sink>(fault: &UsageFault, errors: &mut S) -> Result<(), NotWritten>
    ensures ok { OnOk result (Appends (S.contents errors.old) (S.contents errors.new) (spec.error_line_of_usage fault.now)) }
    ensures err { OnErr result (SinkFailsWithinText S.contents S.fails errors.old errors.new (spec.error_line_of_usage fault.now)) }
{
    match fault {
        UsageFault::Words(text) => errors.send(text.as_bytes()),
        UsageFault::Help(_) => Ok(()),
        UsageFault::Day => send_line(errors, ("brk: usage: ", "day")),
        UsageFault::Memory => send_line(errors, ("brk: fault: ", "memory")),
    }
}

/// Sends to `errors` the error line or text of an ending, or nothing for a job that is done, for
/// help, for the version and for a closed pipe. A sink that fails has received a prefix of it.
pub fn send_error_line<S: Sink>(ending: &Ending, errors: &mut S) -> Result<(), NotWritten>
    ensures ok { OnOk result (Appends (S.contents errors.old) (S.contents errors.new) (spec.error_line ending.now)) }
    ensures err { OnErr result (SinkFailsWithinText S.contents S.fails errors.old errors.new (spec.error_line ending.now)) }
{
    match ending {
        Ending::Done => Ok(()),
        Ending::Open(fault) => send_line(errors, fault_line(*fault)),
        Ending::Batch(fault) => send_line(errors, batch_error(fault.kind)),
        Ending::Statement(fault) => send_report_error(fault, errors),
        Ending::Serve(fault) => send_line(errors, stream_error(fault.kind)),
        Ending::Net => send_line(errors, ("brk: fault: ", "net")),
        Ending::Output => send_line(errors, ("brk: fault: ", "write")),
        Ending::ClosedPipe => Ok(()),
        Ending::Usage(fault) => send_usage_error(fault, errors),
    }
}

/// Sends the error line or text of an ending to `errors`, if the ending has one, and returns the
/// exit status, also if the sink fails: 0 for a job that is done, help and the version; 1 for a
/// refusal, a damaged database and a malformed batch; 2 for wrong arguments; 3 for any other fault.
pub fn end_with<S: Sink>(ending: &Ending, errors: &mut S) -> u8
    ensures status { result ≡ spec.exit_status ending.now }
    ensures line { ReceivesTextOrFails S.contents S.fails errors.old errors.new (spec.error_line ending.now) }
{
    let _ = send_error_line(ending, errors);
    ending_status(ending)
}
