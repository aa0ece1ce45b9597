use brk_cli_args::UsageFault;
use brk_cli_exit::brk_io::{BatchFault, FaultKind, ReportFault};
use brk_cli_exit::{Ending, end_with};
use brk_http_engine::{FaultKind as StreamFault, ServeFault};
use brk_money::{Condition, Fault, Refusal};
use brk_tests_unit::expect::expect_equal;
use brk_tests_unit::{Results, run_test};
use std::alloc::Global;
use std::io;
use std::io::Write;
use std::test::Fail;

// Returns the ending of the program after a batch that failed with this fault after 3 decided rows.
fn ending_of_batch_fault(kind: FaultKind) -> Ending {
    Ending::Batch(BatchFault { rows: 3, kind })
}

/// Checks that `end_with` returns the exit status `status` for an ending, and that it writes
/// exactly the text `text` to its error stream.
pub fn expect_status_and_line(
    alloc: Global,
    ending: Ending,
    status: u8,
    text: &str,
) -> Result<(), Fail> {
    let mut errors = Vec::new(alloc);
    let told = end_with(&ending, &mut errors);
    expect_equal((told, errors.as_slice()), (status, text.as_bytes()))
}

// Faults of a batch, each with its exit status and its error line.
const BATCHES: [(FaultKind, u8, &str); 7] = [
    (FaultKind::BadHeader, 1, "brk: batch: bad header\n"),
    (FaultKind::NoEnd, 1, "brk: batch: no end\n"),
    (FaultKind::BadEnd, 1, "brk: batch: bad end\n"),
    (FaultKind::Read, 3, "brk: fault: read\n"),
    (FaultKind::Write, 3, "brk: fault: write\n"),
    (FaultKind::Desk(Fault::Store), 3, "brk: fault: store\n"),
    (FaultKind::Desk(Fault::Memory), 3, "brk: fault: memory\n"),
];

// Checks that a failed batch has the exit status 1 for a missing or wrong header or end record, 3
// for a failed read or write and for the faults `Store` and `Memory` of the desk, and the error
// line of the fault.
fn batch_faults_have_their_exit_status_and_line(alloc: Global) -> Result<(), Fail> {
    for (kind, status, text) in &BATCHES {
        expect_status_and_line(alloc, ending_of_batch_fault(*kind), *status, text)?;
    }
    Ok(())
}

// Checks that a report that is refused with `NoAccount` (1) or `BadText` (18) has the exit status 1
// and an error line with the number of the refusal, and that a report that ended with the desk's
// fault `Store`, or because writing failed, has the exit status 3 and the error line of its fault.
fn report_faults_have_their_exit_status_and_line(alloc: Global) -> Result<(), Fail> {
    let stranger = Ending::Statement(ReportFault::Refused(Refusal::NoAccount));
    expect_status_and_line(alloc, stranger, 1, "brk: refused: 1\n")?;
    let days = Ending::Statement(ReportFault::Refused(Refusal::BadText));
    expect_status_and_line(alloc, days, 1, "brk: refused: 18\n")?;
    let store = Ending::Statement(ReportFault::Desk(Fault::Store));
    expect_status_and_line(alloc, store, 3, "brk: fault: store\n")?;
    let writer = Ending::Statement(ReportFault::Write);
    expect_status_and_line(alloc, writer, 3, "brk: fault: write\n")
}

// Faults of opening a desk, each with its exit status and its error line.
const OPENS: [(Fault, u8, &str); 3] = [
    (Fault::Memory, 3, "brk: fault: memory\n"),
    (Fault::Store, 3, "brk: fault: store\n"),
    (
        Fault::Damaged(Condition::Summary),
        1,
        "brk: damaged: summary\n",
    ),
];

// Checks that the exit status is 1 for a database that fails the condition `Summary`, and 3 for the
// faults `Memory` and `Store` of opening a desk, each with the error line of the fault.
fn open_faults_have_their_exit_status_and_line(alloc: Global) -> Result<(), Fail> {
    for (fault, status, text) in &OPENS {
        expect_status_and_line(alloc, Ending::Open(*fault), *status, text)?;
    }
    Ok(())
}

// Checks that `end_with` returns the exit status `status` for a fault of the arguments, and that it
// writes exactly the text `text` to its error stream.
fn expect_usage_fault_status_and_line(
    alloc: Global,
    fault: UsageFault,
    status: u8,
    text: &str,
) -> Result<(), Fail> {
    expect_status_and_line(alloc, Ending::Usage(fault), status, text)
}

// Checks that the exit status is 2 for wrong arguments and for a malformed day, 3 if memory ran
// out, each with its error text, and 0 without a text for help.
fn usage_faults_have_their_exit_status_and_line(alloc: Global) -> Result<(), Fail> {
    let words = String::from_str(alloc, "error: no\n")?;
    expect_usage_fault_status_and_line(alloc, UsageFault::Words(words), 2, "error: no\n")?;
    let help = String::from_str(alloc, "help\n")?;
    expect_usage_fault_status_and_line(alloc, UsageFault::Help(help), 0, "")?;
    expect_usage_fault_status_and_line(alloc, UsageFault::Day, 2, "brk: usage: day\n")?;
    expect_usage_fault_status_and_line(alloc, UsageFault::Memory, 3, "brk: fault: memory\n")
}

// Checks that the exit status is 0 without a line for a job that is done, and 3 with an error line
// if output cannot be written, no stream can be accepted, or memory runs out in a stream.
fn other_endings_have_their_exit_status_and_line(alloc: Global) -> Result<(), Fail> {
    expect_status_and_line(alloc, Ending::Done, 0, "")?;
    expect_status_and_line(alloc, Ending::Output, 3, "brk: fault: write\n")?;
    expect_status_and_line(alloc, Ending::Net, 3, "brk: fault: net\n")?;
    let unserved = ServeFault {
        done: 2,
        kind: StreamFault::Memory,
    };
    expect_status_and_line(alloc, Ending::Serve(unserved), 3, "brk: fault: memory\n")
}

// A writer that accepts no byte.
#[derive(Drop)]
struct Closed;

impl Write for Closed {
    // Accepts no byte and returns 0.
    fn write(&mut self, _bytes: &[u8]) -> io::Result<usize> {
        Ok(0)
    }

    // Does nothing.
    fn flush(&mut self) -> io::Result<()> {
        Ok(())
    }
}

// Checks, for an error stream that accepts no byte, that the exit status is 1 for a batch without
// an end record, and 0 for a job that is done.
fn a_closed_error_stream_changes_no_exit_status() -> Result<(), Fail> {
    let status = end_with(&ending_of_batch_fault(FaultKind::NoEnd), &mut Closed);
    expect_equal(status, 1)?;
    let status = end_with(&Ending::Done, &mut Closed);
    expect_equal(status, 0)
}

pub fn run_tests(rt: &HostRuntime, results: &mut Results) {
    let alloc = rt.alloc();
    run_test!(
        rt,
        results,
        batch_faults_have_their_exit_status_and_line(alloc)
    );
    run_test!(
        rt,
        results,
        report_faults_have_their_exit_status_and_line(alloc)
    );
    run_test!(
        rt,
        results,
        open_faults_have_their_exit_status_and_line(alloc)
    );
    run_test!(
        rt,
        results,
        usage_faults_have_their_exit_status_and_line(alloc)
    );
    run_test!(
        rt,
        results,
        other_endings_have_their_exit_status_and_line(alloc)
    );
    run_test!(rt, results, a_closed_error_stream_changes_no_exit_status());
}
