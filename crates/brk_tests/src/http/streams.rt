//! Tests of streams of requests: in pieces, and with heads of each length.

use brk_desk::Desk;
use brk_http::ServeFault;
use brk_tests_desks::desks::{desk_with_reference_data, open_in_memory, serve_stream_of_reader};
use brk_tests_desks::faulty::Failing;
use brk_tests_unit::expect::expect;
use brk_tests_unit::{Results, run_test};
use sqlite::{Alter, Connection};
use std::alloc::{AllocError, Global};
use std::test::Fail;

/// Serves a stream, whose bytes arrive in pieces of at most `size` bytes, on a desk at 2024-03-01
/// 00:00 UTC. Returns the bytes that were written, and the number of replies or the fault.
pub fn serve_stream_in_pieces<S: Alter>(
    alloc: Global,
    desk: &mut Desk<S>,
    bytes: &[u8],
    size: usize,
) -> (Vec<u8>, Result<u64, ServeFault>) {
    let mut out = Vec::new(alloc);
    let ended = serve_stream_of_reader(
        alloc,
        Failing::reader_in_pieces(bytes, size),
        &mut out,
        desk,
    );
    (out, ended)
}

// The reply to a request that is too large.
const LARGE: &str =
    "HTTP/1.1 413 Payload Too Large\r\nContent-Type: application/json\r\nContent-Length: 21\r\nConnection: close\r\n\r\n{\"error\":\"too large\"}";

// The reply to a malformed request, which ends its stream.
const CLOSED: &str =
    "HTTP/1.1 400 Bad Request\r\nContent-Type: application/json\r\nContent-Length: 23\r\nConnection: close\r\n\r\n{\"error\":\"bad request\"}";

// The reply to a query for submitted trades on a desk without trades.
const EMPTY: &str =
    "HTTP/1.1 200 OK\r\nContent-Type: application/json\r\nContent-Length: 11\r\n\r\n{\"view\":[]}";

// The reply to a query for submitted trades in a request of version 1.0, which ends its stream.
const SAID: &str =
    "HTTP/1.1 200 OK\r\nContent-Type: application/json\r\nContent-Length: 11\r\nConnection: close\r\n\r\n{\"view\":[]}";

// Streams, each with its replies. Bytes after a reply that ends its stream are not read.
const STREAMS: [(&str, &[&str]); 7] = [
    (
        "POST /rows/H/1 HTTP/1.1\r\nContent-Length: 19\r\n\r\n[\"broker\",\"2\",\"Cy\"]\
        POST /rows/H/1 HTTP/1.1\r\nContent-Length: 19\r\n\r\n[\"broker\",\"2\",\"Cy\"]\
        POST /rows HTTP/1.1\r\nContent-Length: 19\r\n\r\n[\"broker\",\"2\",\"Cy\"]",
        &[
            "HTTP/1.1 200 OK\r\nContent-Type: application/json\r\nContent-Length: 24\r\n\r\n{\"ok\":[\"1709251200016\"]}",
            "HTTP/1.1 200 OK\r\nContent-Type: application/json\r\nContent-Length: 27\r\n\r\n{\"again\":[\"1709251200016\"]}",
            "HTTP/1.1 409 Conflict\r\nContent-Type: application/json\r\nContent-Length: 13\r\n\r\n{\"no\":[\"15\"]}",
        ],
    ),
    ("\r\n", &[CLOSED]),
    (
        "\r\nPOST /ask/submitted HTTP/1.1\r\nContent-Length: 2\r\n\r\n[]",
        &[EMPTY],
    ),
    (
        "\nPOST /ask/submitted HTTP/1.1\nContent-Length: 2\n\n[]",
        &[EMPTY],
    ),
    (
        "\r\n\r\nPOST /ask/submitted HTTP/1.1\r\nContent-Length: 2\r\n\r\n[]",
        &[CLOSED],
    ),
    (
        "POST /ask/submitted HTTP/1.1\r\nContent-Length: 2\r\n\r\n[]\r\n",
        &[EMPTY, CLOSED],
    ),
    (
        "POST /ask/submitted HTTP/1.0\r\nContent-Length: 2\r\n\r\n[]GET /",
        &[SAID],
    ),
];

// Returns true if the bytes `out` are exactly these replies.
fn are_replies(out: &[u8], wanted: &[&str]) -> bool {
    let mut rest = out;
    for reply in wanted {
        match rest.strip_prefix(reply.as_bytes()) {
            Some(after) => rest = after,
            None => return false,
        }
    }
    rest.is_empty()
}

// Serves a stream, whose bytes arrive in pieces of at most `size` bytes, on a new desk in the
// database of a connection after the batch `SET`. Checks that it completes with exactly the wanted
// replies.
fn expect_replies_in_pieces<S: Alter + Drop>(
    alloc: Global,
    conn: Option<Connection<S>>,
    bytes: &[u8],
    wanted: &[&str],
    size: usize,
) -> Result<(), Fail> {
    let mut desk = desk_with_reference_data(alloc, conn)?;
    let (out, ended) = serve_stream_in_pieces(alloc, &mut desk, bytes, size);
    expect(
        are_replies(&out, wanted) && ended == Ok(wanted.len() as u64),
        format_args!("{} bytes in pieces of {size}", bytes.len()),
    )
}

// Checks that a stream has exactly the wanted replies (`expect_replies_in_pieces`) in pieces of
// 4,096, of seven and of one byte, each time on a new desk in memory.
fn expect_replies_when_split(alloc: Global, bytes: &[u8], wanted: &[&str]) -> Result<(), Fail> {
    for size in [4096usize, 7, 1] {
        expect_replies_in_pieces(alloc, open_in_memory(alloc), bytes, wanted, size)?;
    }
    Ok(())
}

// Checks that each stream of `STREAMS` has its replies, whether its bytes arrive in pieces of
// 4,096, of seven or of one.
fn streams_in_pieces_get_the_same_replies(alloc: Global) -> Result<(), Fail> {
    for (input, wanted) in STREAMS {
        expect_replies_when_split(alloc, input.as_bytes(), wanted)?;
    }
    Ok(())
}

// Returns an HTTP request for the submitted trades with a head of `len` bytes: its last header
// field is as long as needed. `len` must be at least the length of the head without the value of
// this field.
fn request_with_head_of_length(alloc: Global, len: usize) -> Result<String, AllocError> {
    let front = "POST /ask/submitted HTTP/1.1\r\nContent-Length: 2\r\nX: ";
    let mut head = String::from_str(alloc, front)?;
    for _ in 0..len.saturating_sub(front.len()).saturating_sub(4) {
        head.push('x')?;
    }
    head.push_str("\r\n\r\n[]")?;
    Ok(head)
}

// Checks that a request with a head of 16,384 bytes has its reply, and that one with a head of
// 16,385 bytes has the reply 413, which ends its stream, for each size of pieces.
fn a_head_has_at_most_16_384_bytes(alloc: Global) -> Result<(), Fail> {
    for (len, wanted) in [(16_384, EMPTY), (16_385, LARGE)] {
        let input = request_with_head_of_length(alloc, len)?;
        expect(input.len() == len + 2, "the length of the request")?;
        expect_replies_when_split(alloc, input.as_bytes(), &[wanted])?;
    }
    Ok(())
}

const REQUEST: &str = "POST /ask/submitted HTTP/1.1\r\nContent-Length: 2\r\n\r\n[]";

fn repeat_request(alloc: Global, count: u64) -> Result<String, AllocError> {
    let mut input = String::new(alloc);
    for _ in 0..count {
        input.push_str(REQUEST)?;
    }
    Ok(input)
}

// Returns the replies to the most requests that a stream has: the last one ends it.
fn replies_to_thousand_requests(alloc: Global) -> Result<Vec<&'static str>, AllocError> {
    let mut replies = Vec::new(alloc);
    for _ in 0..999u64 {
        replies.push(EMPTY)?;
    }
    replies.push(SAID)?;
    Ok(replies)
}

// Checks that the reply to the thousandth request of a stream ends it, and that the request after
// it has no reply.
fn a_stream_has_at_most_1_000_requests(alloc: Global) -> Result<(), Fail> {
    let input = repeat_request(alloc, 1_001)?;
    let wanted = replies_to_thousand_requests(alloc)?;
    expect_replies_in_pieces(
        alloc,
        open_in_memory(alloc),
        input.as_bytes(),
        &wanted,
        4096,
    )
}

pub fn run_tests(rt: &HostRuntime, results: &mut Results) {
    let alloc = rt.alloc();
    run_test!(rt, results, streams_in_pieces_get_the_same_replies(alloc));
    run_test!(rt, results, a_stream_has_at_most_1_000_requests(alloc));
    run_test!(rt, results, a_head_has_at_most_16_384_bytes(alloc));
}
