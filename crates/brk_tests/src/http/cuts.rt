//! Tests of a stream whose reader or writer fails at each byte. After the fault the whole stream is
//! retried and completes.

use crate::http::streams::serve_stream_in_pieces;
use brk_desk::Desk;
use brk_http::{FaultKind, ServeFault};
use brk_tests_desks::desks::{
    Case, connection_of_desk, desk_with_reference_data, open_in_memory, serve_stream_of_reader,
};
use brk_tests_desks::faulty::{Cut, Failing, Narrow};
use brk_tests_desks::tables::expect_all_tables;
use brk_tests_unit::expect::expect;
use brk_tests_unit::{Results, run_test};
use sqlite::{Alter, Connection};
use std::alloc::Global;
use std::io::ErrorKind;
use std::test::Fail;

// The rows of the tables after the requests, without the reference tables.
const TABLES: &str = "DESK\n1,3,1709251200016\n\
    BROKER\n1,Bo,0,0\n2,Cy,0,0\n\
    CUSTOMER_ACCOUNT\n100,10,1,Main,1,1000000,1000000\n\
    LAST_TRADE\nABC,1709251200003,1000,0\n\
    TRADE\nTRADE_HISTORY\nTRADE_REQUEST\n\
    HOLDING\nHOLDING_SUMMARY\nHOLDING_HISTORY\n\
    SETTLEMENT\nCASH_TRANSACTION\nCASH_MOVE\nSETTLE_RULE\n\
    KEPT WHERE K_BATCH <> 'SET'\nC,1,broker\x1f2\x1fCy,1709251200016\n";

// A stream of three requests: a row that adds broker 2, the same row again, and a query for the
// submitted trades.
const REQUESTS: &str =
    "POST /rows/C/1 HTTP/1.1\r\nHost: desk\r\nContent-Length: 19\r\n\r\n[\"broker\",\"2\",\"Cy\"]\
    POST /rows/C/1 HTTP/1.1\r\nHost: desk\r\nContent-Length: 19\r\n\r\n[\"broker\",\"2\",\"Cy\"]\
    POST /ask/submitted HTTP/1.1\r\nHost: desk\r\nContent-Length: 2\r\n\r\n[]";

// The replies on a desk after the batch `SET`: the row is accepted, its stored reply is returned,
// and the view has no trades.
const REPLIES: &str =
    "HTTP/1.1 200 OK\r\nContent-Type: application/json\r\nContent-Length: 24\r\n\r\n{\"ok\":[\"1709251200016\"]}\
    HTTP/1.1 200 OK\r\nContent-Type: application/json\r\nContent-Length: 27\r\n\r\n{\"again\":[\"1709251200016\"]}\
    HTTP/1.1 200 OK\r\nContent-Type: application/json\r\nContent-Length: 11\r\n\r\n{\"view\":[]}";

// The replies on a desk that has executed the row before.
const REPEATED: &str =
    "HTTP/1.1 200 OK\r\nContent-Type: application/json\r\nContent-Length: 27\r\n\r\n{\"again\":[\"1709251200016\"]}\
    HTTP/1.1 200 OK\r\nContent-Type: application/json\r\nContent-Length: 27\r\n\r\n{\"again\":[\"1709251200016\"]}\
    HTTP/1.1 200 OK\r\nContent-Type: application/json\r\nContent-Length: 11\r\n\r\n{\"view\":[]}";

// The number of bytes of `REQUESTS` up to the end of each request, and of `REPLIES` up to the end of
// its reply.
const ENDS: [(usize, usize); 3] = [(78, 95), (156, 193), (221, 275)];

// Serves the stream on a desk, with a reader or a writer that fails once, as `cut` says, after `at`
// bytes. Returns the bytes that were written, and the number of replies or the fault.
fn serve_cut_stream<S: Alter>(
    alloc: Global,
    desk: &mut Desk<S>,
    cut: Cut,
    at: usize,
) -> (Vec<u8>, Result<u64, ServeFault>) {
    match cut {
        Cut::Reader(kind) => {
            let mut out = Vec::new(alloc);
            let reader = Failing::reader_failing_once(REQUESTS.as_bytes(), at, kind);
            let ended = serve_stream_of_reader(alloc, reader, &mut out, desk);
            (out, ended)
        }
        Cut::Writer(kind) => {
            let mut writer = Narrow::new(alloc, at, kind);
            let ended = serve_stream_of_reader(alloc, REQUESTS.as_bytes(), &mut writer, desk);
            (writer.taken, ended)
        }
    }
}

fn ending_word(ended: &Result<u64, ServeFault>) -> &'static str {
    match ended {
        Ok(_) => "done",
        Err(fault) => match fault.kind {
            FaultKind::Read => "read",
            FaultKind::Write => "write",
            FaultKind::Memory => "memory",
        },
    }
}

// Returns the fault of the stream that `cut` fails after `at` bytes, and the number of bytes that it
// has written.
fn fault_of_cut(cut: Cut, at: usize) -> (ServeFault, usize) {
    let (whole, written) = cut.whole_outputs(&ENDS, at);
    let kind = match cut {
        Cut::Reader(_) => FaultKind::Read,
        Cut::Writer(_) => FaultKind::Write,
    };
    let done = whole as u64;
    (ServeFault { done, kind }, written)
}

// Serves the stream, cut after `at` bytes, on a desk after the batch `SET`. Checks that it fails
// with the fault of the cut (`fault_of_cut`) after exactly the replies before.
fn expect_fault_of_cut<S: Alter>(
    alloc: Global,
    desk: &mut Desk<S>,
    cut: Cut,
    at: usize,
) -> Result<(), Fail> {
    let (fault, written) = fault_of_cut(cut, at);
    let (out, ended) = serve_cut_stream(alloc, desk, cut, at);
    let told = ending_word(&ended);
    expect(
        ended == Err(fault) && REPLIES.as_bytes().get(..written) == Some(out.as_slice()),
        format_args!("{}: {told}, or the replies", cut.case_at(at)),
    )
}

// Serves the whole stream on a desk after the batch `SET`, which has executed the first request
// before if `executed` is true, and otherwise none. Checks that all three requests have their
// replies.
fn expect_replies_of_retry<S: Alter>(
    alloc: Global,
    desk: &mut Desk<S>,
    case: Case<'_>,
    executed: bool,
) -> Result<(), Fail> {
    let wanted = if executed { REPEATED } else { REPLIES };
    let (out, ended) = serve_stream_in_pieces(alloc, desk, REQUESTS.as_bytes(), 64);
    expect(
        out.as_slice() == wanted.as_bytes() && ended == Ok(3),
        format_args!("{case}: the stream that is sent again"),
    )
}

// Serves the stream, cut after `at` bytes, on a new desk in the database of a connection, after the
// batch `SET`, and retries it. Checks the fault, that the retry completes, and that the tables are
// those after one execution of the row.
fn expect_retry_after_cut<S: Alter + Drop>(
    alloc: Global,
    conn: Option<Connection<S>>,
    cut: Cut,
    at: usize,
) -> Result<(), Fail> {
    let case = cut.case_at(at);
    let mut desk = desk_with_reference_data(alloc, conn)?;
    expect_fault_of_cut(alloc, &mut desk, cut, at)?;
    // the first request was executed if it was read whole, or its reply was to be written
    let executed = matches!(cut, Cut::Writer(_)) || at >= ENDS[0].0;
    expect_replies_of_retry(alloc, &mut desk, case, executed)?;
    expect_all_tables(alloc, &mut connection_of_desk(desk), case, TABLES)
}

// Checks `expect_retry_after_cut` for each number of bytes below `places` and each of `cuts`, each
// time on a new desk in memory.
fn expect_retries(alloc: Global, cuts: &[Cut], places: usize) -> Result<(), Fail> {
    for at in 0..places {
        for cut in cuts {
            expect_retry_after_cut(alloc, open_in_memory(alloc), *cut, at)?;
        }
    }
    Ok(())
}

// Checks, for each position of a stream, its end included, at which the reader fails or is
// interrupted, that the stream fails with `Read` after the replies to the requests that were read
// whole, and that a retry completes.
fn a_stream_can_be_retried_after_a_read_fault(alloc: Global) -> Result<(), Fail> {
    let cuts = [
        Cut::Reader(ErrorKind::Interrupted),
        Cut::Reader(ErrorKind::ConnectionReset),
    ];
    expect_retries(alloc, &cuts, REQUESTS.len() + 1)
}

// Checks, for each byte of the replies of a stream at which the writer fails, is interrupted or
// accepts no byte, that the stream fails with `Write`, that exactly the bytes before are written,
// and that a retry completes.
fn a_stream_can_be_retried_after_a_write_fault(alloc: Global) -> Result<(), Fail> {
    let cuts = [
        Cut::Writer(None),
        Cut::Writer(Some(ErrorKind::BrokenPipe)),
        Cut::Writer(Some(ErrorKind::Interrupted)),
    ];
    expect_retries(alloc, &cuts, REPLIES.len())
}

pub fn run_tests(rt: &HostRuntime, results: &mut Results) {
    let alloc = rt.alloc();
    run_test!(
        rt,
        results,
        a_stream_can_be_retried_after_a_read_fault(alloc)
    );
    run_test!(
        rt,
        results,
        a_stream_can_be_retried_after_a_write_fault(alloc)
    );
}
