//! Test of a service whose file fails: if the fault closes the store, the file is opened again
//! before the next stream, or the service ends. It also ends if an older file is there by then.

use crate::failing_files::FailingFiles;
use brk_cli_exit::Ending;
use brk_cli_jobs::{DeskFiles, serve_file_on};
use brk_money::Fault;
use brk_store::Store;
use brk_tests_desks::Still;
use brk_tests_desks::requests::format_post_request;
use brk_tests_desks::retried::{ROWS, all_lines_of_retry};
use brk_tests_desks::worked::format_batch;
use brk_tests_files::crashes::{STOPS, expect_committed_rows, fail_unless, tables_after_each_row};
use brk_tests_files::machine::{
    Held, MachineCrash, files_with_reference_data, run_batch_until_crash,
};
use brk_tests_unit::{Results, run_test};
use sqlite::Alter;
use std::alloc::{AllocError, Global};
use std::io;
use std::io::{Read, Write};
use std::net::{Shutdown, SocketAddr, TcpListener, TcpStream};
use std::test::Fail;

// The number of streams of a service.
const STREAMS: u32 = 3;

// The number of rows of each stream. It sends a query and then the first rows of `ROWS`: those of
// the stream before and two new ones.
const ROWS_OF_STREAMS: [usize; 3] = [2, 4, 6];

// The number of replies 200 to each stream if its query and its rows are all accepted.
const ALL_REPLIES: [usize; 3] = [3, 5, 7];

// A number of calls that is greater than that of each file in each service.
const MOST_CALLS: u64 = 10_000;

// Returns the JSON list of the fields of a row.
fn json_of_row(alloc: Global, row: &str) -> Result<String, AllocError> {
    let fields = row.replace(alloc, ',', "\",\"")?;
    format!(in alloc; "[\"{fields}\"]")
}

// Appends the text of the request for a row, under the key with this number of the batch of
// `format_batch`.
fn append_row_request(
    alloc: Global,
    requests: &mut String,
    number: u64,
    row: &str,
) -> Result<(), AllocError> {
    let target = format!(in alloc; "/rows/T/{number}")?;
    let body = json_of_row(alloc, row)?;
    let request = format_post_request(alloc, target.as_str(), body.as_str())?;
    requests.push_str(request.as_str())
}

// Returns the text of a request for the last trades of account 100, and of one for each of the
// first `rows` rows of `ROWS`, at most six, under the keys of the batch of `format_batch`.
fn requests_of_stream(alloc: Global, rows: usize) -> Result<String, AllocError> {
    let mut requests = format_post_request(alloc, "/ask/recent", "[\"100\"]")?;
    let mut number = 1u64;
    for row in &ROWS[..rows.min(6)] {
        append_row_request(alloc, &mut requests, number, row)?;
        number = number.saturating_add(1);
    }
    Ok(requests)
}

// Returns the text of the requests of each stream.
fn requests_of_streams(alloc: Global) -> Result<Vec<String>, AllocError> {
    let mut requests = Vec::new(alloc);
    for rows in ROWS_OF_STREAMS {
        requests.push(requests_of_stream(alloc, rows)?)?;
    }
    Ok(requests)
}

// Connects a peer to an address, and sends `requests`.
fn connect_peer_and_send(
    rt: &HostRuntime,
    address: SocketAddr,
    requests: &str,
) -> io::Result<TcpStream> {
    let mut peer = TcpStream::connect(rt, address)?;
    peer.write_all(requests.as_bytes())?;
    peer.shutdown(Shutdown::Write)?;
    Ok(peer)
}

// Connects a peer to the listener for each stream, and sends its `requests`.
fn connect_peers_and_send(
    rt: &HostRuntime,
    listener: &TcpListener,
    requests: &[String],
) -> Result<Vec<TcpStream>, Fail> {
    let address = listener.local_addr()?;
    let mut peers = Vec::new(rt.alloc());
    for text in requests {
        peers.push(connect_peer_and_send(rt, address, text.as_str())?)?;
    }
    Ok(peers)
}

// Returns the number of lines of `told` that begin a reply 200, or 0 if it is not UTF-8.
fn count_replies_200(told: &[u8]) -> usize {
    let Ok(told) = str::from_utf8(told) else {
        return 0;
    };
    let mut count = 0usize;
    for line in told.lines() {
        if line.ends_with("HTTP/1.1 200 OK") {
            count = count.saturating_add(1);
        }
    }
    count
}

// Returns the number of replies 200 that a peer receives. A connection that the service resets,
// because it did not read all requests, keeps the replies before; one that was not accepted has
// none.
fn replies_200_of_peer(alloc: Global, mut peer: TcpStream) -> usize {
    let mut told = Vec::new(alloc);
    let _ = peer.read_to_end(&mut told);
    count_replies_200(&told)
}

// Returns the number of replies 200 that each peer receives.
fn replies_200_of_peers(alloc: Global, peers: Vec<TcpStream>) -> [usize; 3] {
    let mut counts = [0usize; 3];
    for (count, peer) in counts.iter_mut().zip(peers) {
        *count = replies_200_of_peer(alloc, peer);
    }
    counts
}

fn serve_streams_on_files<S: Alter, F: DeskFiles<Desk = Store<S>>>(
    alloc: Global,
    files: &F,
    listener: &TcpListener,
    store: Store<S>,
) -> Ending {
    let mut clock = Still::at_first_timestamp();
    serve_file_on(
        alloc, files, "desk.db", listener, STREAMS, &mut clock, store,
    )
}

// How a service ended.
#[derive(Clone, Copy)]
enum ServiceEnd {
    Done,
    StoreFault,
    OtherFault,
}

fn service_end(ending: Ending) -> ServiceEnd {
    match ending {
        Ending::Done => ServiceEnd::Done,
        Ending::Open(Fault::Store) => ServiceEnd::StoreFault,
        _ => ServiceEnd::OtherFault,
    }
}

// Opens the files, serves `STREAMS` streams on the desk in them, and closes the listener. Returns
// how the service ended, or `None` if the files cannot be opened.
fn open_files_and_serve(
    alloc: Global,
    files: &FailingFiles,
    listener: TcpListener,
) -> Option<ServiceEnd> {
    match files.open("desk.db") {
        Ok(store) => Some(service_end(serve_streams_on_files(alloc, files, &listener, store))),
        Err(_) => None,
    }
}

// What a service did: how it ended, the number of replies 200 of each stream, whether a file failed
// or would at its next call, and whether the files were opened again.
#[derive(Clone, Copy)]
struct Served {
    end: ServiceEnd,
    counts: [usize; 3],
    had_fault: bool,
    was_reopened: bool,
}

// Opens the files and serves `STREAMS` streams on the desk in them, with the requests `requests`.
// Returns what the service did, or `None` if the files cannot be opened.
fn serve_rows(
    rt: &HostRuntime,
    files: &FailingFiles,
    requests: &[String],
) -> Result<Option<Served>, Fail> {
    let listener = TcpListener::bind(rt, ("127.0.0.1", 0))?;
    let peers = connect_peers_and_send(rt, &listener, requests)?;
    let Some(end) = open_files_and_serve(rt.alloc(), files, listener) else {
        return Ok(None);
    };
    Ok(Some(Served {
        end,
        had_fault: files.has_failed.get(),
        was_reopened: files.openings.get() > 1,
        counts: replies_200_of_peers(rt.alloc(), peers),
    }))
}

impl Served {
    fn ended_with_store_fault(self) -> bool {
        matches!(self.end, ServiceEnd::StoreFault)
    }

    // Returns true if the service ended without a fault, and its last stream has all replies.
    fn is_complete(self) -> bool {
        matches!(self.end, ServiceEnd::Done) && self.counts[2] == ALL_REPLIES[2]
    }

    // Returns true if the first stream has all replies, and the second one has not.
    fn has_fault_in_second_stream(self) -> bool {
        self.counts[0] == ALL_REPLIES[0] && self.counts[1] < ALL_REPLIES[1]
    }

    // Returns the greatest number of rows that a stream has replies 200 to.
    fn accepted_rows(self) -> usize {
        let mut most = 0usize;
        for count in &self.counts {
            most = most.max(count.saturating_sub(1));
        }
        most
    }

    // Returns true if each stream after that of the fault has a reply.
    fn has_replies_after_fault(self) -> bool {
        let mut had_fault = false;
        for (count, rows) in self.counts.iter().zip(ROWS_OF_STREAMS) {
            if had_fault && *count == 0 {
                return false;
            }
            had_fault = had_fault || *count <= rows;
        }
        true
    }
}

// Checks that a service ended with the store fault after its files were opened again, if they
// failed again (`goes_on`). Otherwise checks that each stream after that of the fault has a reply
// to its query, since its store is open: the old one, or that of the files, opened again; and that
// the service is complete if no file failed, or if the files were opened again.
fn expect_streams_served(stop: MachineCrash, goes_on: bool, served: Served) -> Result<(), Fail> {
    let is_ended = served.ended_with_store_fault();
    if goes_on {
        return fail_unless(
            served.was_reopened && is_ended,
            stop,
            "failing files were served",
        );
    }
    let may_end = is_ended && served.had_fault && !served.was_reopened;
    fail_unless(
        served.is_complete() || may_end,
        stop,
        "an open file was not served",
    )?;
    fail_unless(
        served.has_replies_after_fault(),
        stop,
        "a closed store was served",
    )
}

// Checks that the files have the rows that were accepted, or one row more, and that the batch of
// all rows is then completed, with the stored replies to these rows, and passes its audit. `tables`
// are the tables after each number of rows, from none on.
fn expect_batch_completed(
    alloc: Global,
    stop: MachineCrash,
    held: &Held,
    accepted: usize,
    tables: &[String],
) -> Result<(), Fail> {
    let batch = format_batch(alloc, &ROWS)?;
    let sent = run_batch_until_crash(alloc, held, MachineCrash::NEVER, batch.as_bytes())?;
    let rows = expect_committed_rows(stop, accepted, sent.seen.before.as_str(), tables)?;
    let lines = all_lines_of_retry(alloc, rows)?;
    let is_completed = sent.seen.is_sound && sent.seen.lines.as_slice() == lines.as_bytes();
    fail_unless(is_completed, stop, "the batch is not completed")
}

// The desk that a service begins with, the requests of each stream, and the tables after each number
// of their rows, from none on.
#[derive(Clone, Copy)]
struct Service<'a> {
    start: &'a Held,
    requests: &'a [String],
    tables: &'a [String],
}

// Checks what a service did (`expect_streams_served`) and the files after it
// (`expect_batch_completed`). Checks nothing of a service whose files could not be opened at first.
fn expect_recovered(
    alloc: Global,
    stop: MachineCrash,
    goes_on: bool,
    served: Option<Served>,
    held: &Held,
    tables: &[String],
) -> Result<(), Fail> {
    let Some(served) = served else {
        return Ok(());
    };
    expect_streams_served(stop, goes_on, served)?;
    expect_batch_completed(alloc, stop, held, served.accepted_rows(), tables)
}

// Serves `STREAMS` streams on the desk in the files `start`, which fail by `stop` when they are
// opened first. When they are opened again they fail at once if `goes_on` is true, and otherwise
// never. Checks the service (`expect_recovered`), and returns what it did, or `None` if the files
// could not be opened at first.
fn expect_service_recovered(
    rt: &HostRuntime,
    stop: MachineCrash,
    goes_on: bool,
    service: Service<'_>,
) -> Result<Option<Served>, Fail> {
    let later = MachineCrash {
        calls: if goes_on { 0 } else { u64::MAX },
        ..stop
    };
    let files = FailingFiles::new(rt.alloc(), service.start.copy()?, None, stop, later);
    let served = serve_rows(rt, &files, service.requests)?;
    let held = files.into_held();
    expect_recovered(rt.alloc(), stop, goes_on, served, &held, service.tables)?;
    Ok(served)
}

// Serves the streams as a service did whose files failed by `stop` in the second stream, but with
// the files of its begin in their place when they are opened again: they lack the rows of the first
// stream. Checks that the service ends with the store fault and does not serve the third stream.
fn expect_older_files_refused(
    rt: &HostRuntime,
    stop: MachineCrash,
    service: Service<'_>,
) -> Result<(), Fail> {
    let older = Some(service.start.copy()?);
    let later = MachineCrash {
        calls: u64::MAX,
        ..stop
    };
    let files = FailingFiles::new(rt.alloc(), service.start.copy()?, older, stop, later);
    let Some(served) = serve_rows(rt, &files, service.requests)? else {
        return Err(Fail::new("not opened"));
    };
    let is_refused = served.was_reopened
        && served.ended_with_store_fault()
        && served.counts[2] == 0;
    fail_unless(is_refused, stop, "an older file was served")
}

// Serves the streams with a failure of `stop` at each call of its file in turn, until a service has
// no fault, and checks each service (`expect_service_recovered`). If its files were opened again,
// serves the streams once more with files that then fail again and, if they failed in the second
// stream, with older ones. Checks that there are such services.
fn expect_each_service_recovered(
    rt: &HostRuntime,
    stop: MachineCrash,
    service: Service<'_>,
) -> Result<(), Fail> {
    let mut was_reopened = false;
    let mut was_refused = false;
    for calls in 0..MOST_CALLS {
        let stop = MachineCrash { calls, ..stop };
        let Some(served) = expect_service_recovered(rt, stop, false, service)? else {
            continue;
        };
        if !served.had_fault {
            return fail_unless(
                was_reopened && was_refused,
                stop,
                "no file was opened again",
            );
        }
        if served.was_reopened {
            was_reopened = true;
            expect_service_recovered(rt, stop, true, service)?;
        }
        if served.was_reopened && served.has_fault_in_second_stream() {
            was_refused = true;
            expect_older_files_refused(rt, stop, service)?;
        }
    }
    Err(Fail::new("always stopped"))
}

// Checks the service of a desk in files that serves a query and the first rows of `ROWS` on each of
// three streams, two more than on the stream before, and whose log or database file fails at each
// of its calls in turn, and at all later ones, with the bytes that were not synced lost or stored.
// A stream after the failure has a reply to its query: its store is open, or the files were opened
// again. If they can be, the last stream has a reply to each row; if they fail again at once, or are
// older ones, which lack the rows of the first stream, the service ends with `Open(Store)`. All three
// happen with each of the files. The desk in the files then has all rows that were accepted, or one
// row more, and its batch can be completed.
fn a_served_desk_recovers_from_disk_faults(rt: &HostRuntime) -> Result<(), Fail> {
    let requests = requests_of_streams(rt.alloc())?;
    let tables = tables_after_each_row(rt.alloc())?;
    let start = files_with_reference_data(rt.alloc())?;
    let service = Service {
        start: &start,
        requests: &requests,
        tables: &tables,
    };
    for stop in STOPS {
        expect_each_service_recovered(rt, stop, service)?;
    }
    Ok(())
}

pub fn run_tests(rt: &HostRuntime, results: &mut Results) {
    run_test!(rt, results, a_served_desk_recovers_from_disk_faults(rt));
}
