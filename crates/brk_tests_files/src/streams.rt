//! Test of a stream of requests over a store that fails: the reply to a row is the last one.

use crate::jobs::{Ended, Job, Observation, Task};
use crate::machine::{Held, MachineCrash, perform_job_until_crash};
use brk_tests_desks::expect;
use brk_tests_unit::{Results, run_test};
use sqlite::Options;
use std::alloc::Global;
use std::test::Fail;

// Two requests, a row that adds broker 1 and a query for the submitted trades.
const REQUESTS: &[u8] = b"POST /rows/F/1 HTTP/1.1\r\nHost: desk\r\nContent-Length: 19\r\n\r\n\
    [\"broker\",\"1\",\"Bo\"]\
    POST /ask/submitted HTTP/1.1\r\nHost: desk\r\nContent-Length: 2\r\n\r\n[]";

// The replies to them on a new desk whose disk does not fail: the row is accepted, and the view has
// no trades.
const REPLIES: &[u8] =
    b"HTTP/1.1 200 OK\r\nContent-Type: application/json\r\nContent-Length: 24\r\n\r\n\
    {\"ok\":[\"1709251200000\"]}\
    HTTP/1.1 200 OK\r\nContent-Type: application/json\r\nContent-Length: 11\r\n\r\n\
    {\"view\":[]}";

// The reply to the row if the store fails, the last of the stream.
const LAST_REPLY: &[u8] = b"HTTP/1.1 503 Service Unavailable\r\nContent-Type: application/json\r\n\
    Content-Length: 17\r\nConnection: close\r\n\r\n{\"error\":\"store\"}";

// Returns the number of replies of a stream of `REQUESTS`: none if the desk could not be opened or
// created, one, `LAST_REPLY`, or two, `REPLIES`. Returns `None` for other replies, and for any other
// end.
fn count_replies(seen: &Observation) -> Option<u64> {
    let lines = seen.lines.as_slice();
    match seen.ended {
        Ended::NotBegun => Some(0),
        Ended::Served(1) if lines == LAST_REPLY => Some(1),
        Ended::Served(2) if lines == REPLIES => Some(2),
        _ => None,
    }
}

// Serves a stream of `REQUESTS` on a new desk in files whose log accepts `calls` calls and fails at
// each later call. Returns the number of its replies.
fn serve_with_failing_log(alloc: Global, calls: u64) -> Result<u64, Fail> {
    let sent = perform_job_until_crash(
        alloc,
        &Held::empty_files(alloc),
        MachineCrash::after_log_calls(calls),
        Options::new(1),
        Job::Desk(Task::Stream),
        REQUESTS,
    )?;
    match count_replies(&sent.seen) {
        Some(replies) => Ok(replies),
        None => Err(Fail::new(format_args!("after {calls} calls"))),
    }
}

// Checks, for a log that fails after 0, 1, 2 and more calls, that the reply to a row is 503 and
// the last of its stream, until the row and the query after it both have their replies, which must
// be with fewer than 1,000 calls. Numbers of calls with which the desk cannot be created are
// skipped. Checks also that at least one stream has the reply 503.
fn a_store_fault_is_the_last_reply(alloc: Global) -> Result<(), Fail> {
    let mut had_fault = false;
    for calls in 0..1_000 {
        let replies = serve_with_failing_log(alloc, calls)?;
        if replies == 2 {
            return expect(had_fault, "no fault");
        }
        had_fault = had_fault || replies == 1;
    }
    Err(Fail::new("no reply"))
}

pub fn run_tests(rt: &HostRuntime, results: &mut Results) {
    let alloc = rt.alloc();
    run_test!(rt, results, a_store_fault_is_the_last_reply(alloc));
}
