//! Test of peers in memory, whose streams are served in sequence on one desk.

use brk_desk::Desk;
use brk_http::{
    AcceptFault, ListenFault, Listener, Peer, ServeFault, StreamServer, serve_listener,
};
use brk_tests_desks::desks::{Still, desk_with_reference_data, open_in_memory};
use brk_tests_unit::expect::expect;
use brk_tests_unit::{Results, run_test};
use sqlite::{Alter, Connection};
use std::alloc::Global;
use std::test::Fail;

// A purchase, and the reply on a desk after the batch `SET`.
const ORDER: (&str, &str) = (
    "POST /rows/T/1 HTTP/1.1\r\nHost: desk\r\nContent-Length: 68\r\n\r\n[\"order\",\"100\",\"TMB\",\"ABC\",\"100\",\"\",\"cash\",\"fifo\",\"Ann\",\"Lee\",\"T10\"]",
    "HTTP/1.1 200 OK\r\nContent-Type: application/json\r\nContent-Length: 90\r\n\r\n{\"ok\":[\"1709251200016\",\"1\",\"SBMT\",\"10.00\",\"0.00\",\"0.00\",\"0.00\",\"10.00\",\"5.00\",\"10000.00\"]}",
);

// A query for the submitted trades, and the reply after `ORDER`.
const QUERY: (&str, &str) = (
    "POST /ask/submitted HTTP/1.1\r\nHost: desk\r\nContent-Length: 2\r\n\r\n[]",
    "HTTP/1.1 200 OK\r\nContent-Type: application/json\r\nContent-Length: 42\r\n\r\n{\"view\":[[\"1\",\"TMB\",\"ABC\",\"100\",\"10.00\"]]}",
);

// A peer that sends the bytes `sent`, and stores what it receives.
#[derive(Drop)]
struct MemoryPeer<'a> {
    sent: &'a [u8],
    received: &'a mut Vec<u8>,
}

impl Peer for MemoryPeer<'_> {
    ghost use Rattle.std.specs.Prelude.{Some};

    ghost sends = { λ peer. Some peer.sent.now };

    ghost received = { λ peer. Some peer.received.now.items };

    fn serve_by<H: StreamServer>(
        &mut self,
        alloc: Global,
        clock: &mut H::Clock,
        desk: &mut H::Desk,
    ) -> Result<u64, ServeFault> {
        H::serve_halves(alloc, self.sent, self.received, clock, desk)
    }
}

// A listener whose peers are in memory, the next one last. It fails once it has accepted all.
#[derive(Drop)]
struct MemoryListener<'a> {
    waiting: Vec<MemoryPeer<'a>>,
}

impl<'a> Listener for MemoryListener<'a> {
    type Stream = MemoryPeer<'a>;

    fn accept_next(&mut self) -> Result<MemoryPeer<'a>, AcceptFault> {
        match self.waiting.pop() {
            Some(peer) => Ok(peer),
            None => Err(AcceptFault::Failed),
        }
    }
}

fn serve_at_first_timestamp<S: Alter>(
    alloc: Global,
    listener: &mut MemoryListener<'_>,
    streams: u32,
    desk: &mut Desk<S>,
) -> Result<(), ListenFault> {
    serve_listener(
        alloc,
        listener,
        streams,
        &mut Still::at_first_timestamp(),
        desk,
    )
}

// Two streams of the listener are served in sequence; then none can be accepted.
fn expect_two_streams_served<S: Alter + Drop>(
    alloc: Global,
    conn: Option<Connection<S>>,
    waiting: Vec<MemoryPeer<'_>>,
) -> Result<(), Fail> {
    let mut desk = desk_with_reference_data(alloc, conn)?;
    let mut listener = MemoryListener { waiting };
    let served = serve_at_first_timestamp(alloc, &mut listener, 2, &mut desk);
    expect(served == Ok(()), "two streams")?;
    let served = serve_at_first_timestamp(alloc, &mut listener, 1, &mut desk);
    expect(served == Err(ListenFault::Net), "no stream")
}

// Checks that two peers are served in sequence on one desk in memory, that the one that sends an
// order and the one that sends a query each receive exactly their reply, and that serving fails
// with `Net` once no peer is left.
fn peers_in_memory_receive_their_replies(alloc: Global) -> Result<(), Fail> {
    let (mut first, mut second) = (Vec::new(alloc), Vec::new(alloc));
    let mut waiting = Vec::new(alloc);
    waiting.push(MemoryPeer {
        sent: QUERY.0.as_bytes(),
        received: &mut second,
    })?;
    waiting.push(MemoryPeer {
        sent: ORDER.0.as_bytes(),
        received: &mut first,
    })?;
    expect_two_streams_served(alloc, open_in_memory(alloc), waiting)?;
    expect(first.as_slice() == ORDER.1.as_bytes(), "the order")?;
    expect(second.as_slice() == QUERY.1.as_bytes(), "the query")
}

pub fn run_tests(rt: &HostRuntime, results: &mut Results) {
    let alloc = rt.alloc();
    run_test!(rt, results, peers_in_memory_receive_their_replies(alloc));
}
