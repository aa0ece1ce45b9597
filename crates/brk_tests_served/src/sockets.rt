//! The test of streams over sockets of this machine, in one process.

use brk_cli_exit::Ending;
use brk_cli_jobs::serve_on;
use brk_desk::Desk;
use brk_tests_desks::{Still, expect, new_desk, open_in_memory};
use brk_tests_unit::{Results, run_test};
use sqlite::{Alter, Connection};
use std::alloc::Global;
use std::io;
use std::io::Write;
use std::net::{Shutdown, TcpListener, TcpStream};
use std::test::Fail;

// The bytes that each peer sends, in the order of their streams, and the wanted replies. A peer
// without replies (`None`) breaks its stream off: the first such peer within its second request,
// the other one before the reply to its first request.
const PEERS: [(&str, Option<&str>); 6] = [
    (
        "POST /rows/S/1 HTTP/1.1\r\nContent-Length: 19\r\n\r\n[\"broker\",\"1\",\"Bo\"]\
        POST /rows/S/2 HTTP/1.1\r\nContent-Length: 19\r\n\r\n[\"broker\",\"2\",",
        None,
    ),
    (
        "POST /rows/S/1 HTTP/1.1\r\nHost: desk\r\nContent-Length: 19\r\n\r\n[\"broker\",\"1\",\"Bo\"]",
        Some(
            "HTTP/1.1 200 OK\r\nContent-Type: application/json\r\nContent-Length: 27\r\n\r\n{\"again\":[\"1709251200000\"]}",
        ),
    ),
    (
        "POST /rows/S/2 HTTP/1.1\r\nContent-Length: 19\r\n\r\n[\"broker\",\"2\",\"Cy\"]\
        POST /rows/S/2 HTTP/1.1\r\nContent-Length: 19\r\n\r\n[\"broker\",\"2\",\"Cy\"]\
        POST /rows/S/2 HTTP/1.1\r\nContent-Length: 19\r\n\r\n[\"broker\",\"2\",\"Cy\"]",
        None,
    ),
    ("", Some("")),
    (
        "nothing\r\n\r\nand more",
        Some(
            "HTTP/1.1 400 Bad Request\r\nContent-Type: application/json\r\nContent-Length: 23\r\n\
            Connection: close\r\n\r\n{\"error\":\"bad request\"}",
        ),
    ),
    (
        "POST /rows/S/2 HTTP/1.0\r\nContent-Length: 19\r\n\r\n[\"broker\",\"2\",\"Cy\"]",
        Some(
            "HTTP/1.1 200 OK\r\nContent-Type: application/json\r\nContent-Length: 27\r\n\
            Connection: close\r\n\r\n{\"again\":[\"1709251200001\"]}",
        ),
    ),
];

/// Connects a peer to the listener, sends the bytes `input` and returns the stream of the peer. If
/// `waits` is true, shuts down the writing side of the stream after the bytes.
fn connect_peer_and_send(
    rt: &HostRuntime,
    listener: &TcpListener,
    input: &str,
    waits: bool,
) -> Result<TcpStream, Fail> {
    let mut peer = TcpStream::connect(rt, listener.local_addr()?)?;
    peer.write_all(input.as_bytes())?;
    if waits {
        peer.shutdown(Shutdown::Write)?;
    }
    Ok(peer)
}

// Returns the streams of the peers that wait for replies, with the wanted replies, and closes the
// other streams.
fn connect_all_peers_and_send(
    rt: &HostRuntime,
    listener: &TcpListener,
) -> Result<Vec<(TcpStream, &'static str)>, Fail> {
    let mut waiting = Vec::new(rt.alloc());
    for (input, replies) in PEERS {
        let peer = connect_peer_and_send(rt, listener, input, replies.is_some())?;
        if let Some(wanted) = replies {
            waiting.push((peer, wanted))?;
        }
    }
    Ok(waiting)
}

/// Checks that each peer in `waiting` receives exactly its wanted replies until the end of its
/// stream.
fn expect_peer_replies(alloc: Global, waiting: Vec<(TcpStream, &'static str)>) -> Result<(), Fail> {
    for (peer, wanted) in waiting {
        let told = io::read_to_string(alloc, peer)?;
        expect(told.as_str() == wanted, format_args!("{wanted:?}"))?;
    }
    Ok(())
}

fn serve_at_first_timestamp<S: Alter>(
    alloc: Global,
    listener: &TcpListener,
    streams: u32,
    desk: &mut Desk<S>,
) -> Result<(), Ending> {
    serve_on(
        alloc,
        listener,
        streams,
        &mut Still::at_first_timestamp(),
        desk,
    )
}

// Six streams of the listener are served in sequence; then none can be accepted.
fn expect_streams_served_on_desk<S: Alter + Drop>(
    alloc: Global,
    conn: Option<Connection<S>>,
    listener: &TcpListener,
    waiting: Vec<(TcpStream, &'static str)>,
) -> Result<(), Fail> {
    let mut desk = new_desk(conn)?;
    let served = serve_at_first_timestamp(alloc, listener, 6, &mut desk);
    expect(served.is_ok(), "six streams")?;
    expect_peer_replies(alloc, waiting)?;
    listener.set_nonblocking(true)?;
    let served = serve_at_first_timestamp(alloc, listener, 1, &mut desk);
    expect(matches!(&served, Err(Ending::Net)), "no stream")
}

// Checks that six streams over sockets are served in sequence on one desk, that the peers that wait
// for replies receive the replies in `PEERS`, and that serving fails with `Net` if no stream can be
// accepted.
fn socket_streams_share_one_desk(rt: &HostRuntime) -> Result<(), Fail> {
    let alloc = rt.alloc();
    let listener = TcpListener::bind(rt, ("127.0.0.1", 0))?;
    let waiting = connect_all_peers_and_send(rt, &listener)?;
    expect_streams_served_on_desk(alloc, open_in_memory(alloc), &listener, waiting)
}

pub fn run_tests(rt: &HostRuntime, results: &mut Results) {
    run_test!(rt, results, socket_streams_share_one_desk(rt));
}
