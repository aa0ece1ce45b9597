//! The job that serves a desk to programs on the same machine.

ghost use Rattle.std.specs.Prelude.{◌≡◌};
ghost use Rattle.brk_cli_jobs.specs.Endings.{ending_of_serving, result_of_serving};
ghost use Rattle.brk_cli_jobs.specs.Jobs.{ServesListener, ServesStreams};
ghost use Rattle.brk_cli_jobs.specs.Serving.{ServesNextStream, ServesStamped, ServesStreamOrCloses, ServesStreamsAndCloses, ServesStreamsInFile};

use crate::desk_files::DeskFiles;
use crate::reopening::{begin_serving, into_store, ready_desk};
use brk_cli_exit::{Ending, ending_after_close};
use brk_desk::Desk;
use brk_http::{ListenFault, Listener, Peer, serve_listener};
use brk_http_limits::TimedListener;
use brk_http_stamps::{StampedDesk, serve_stamped_listener};
use brk_io::{Clock, ProgramClock};
use brk_money::Stamp;
use brk_store::Store;
use sqlite::Alter;
use std::alloc::Global;
use std::net::TcpListener;

fn result_of_serving(served: Result<(), ListenFault>) -> Result<(), Ending>
    ensures { result ≡ result_of_serving served }
{
    match served {
        Ok(()) => Ok(()),
        Err(ListenFault::Stream(fault)) => Err(Ending::Serve(fault)),
        Err(ListenFault::Net) => Err(Ending::Net),
    }
}

fn ending_of_serving(served: Result<(), Ending>) -> Ending
    ensures { result ≡ ending_of_serving served }
{
    match served {
        Ok(()) => Ending::Done,
        Err(ending) => ending,
    }
}

fn serve_desk<P: Peer, L: Listener<Stream = P>, C: Clock, S: Alter>(
    alloc: Global,
    listener: &mut L,
    streams: u32,
    clock: &mut C,
    desk: &mut Desk<S>,
) -> Result<(), Ending>
    ensures { ServesListener S.Store C.gives streams clock.old clock.new desk.old desk.new result }
{
    result_of_serving(serve_listener(alloc, listener, streams, clock, desk))
}

/// Serves `streams` streams of HTTP requests on a desk, in sequence, each to its end. A stream that
/// its peer broke off, also before it was accepted, or whose reading or writing failed counts as
/// one. Fails with `Serve` if memory ran out in a stream, and with `Net` if a stream cannot be
/// accepted for another reason than that its peer broke it off. The changes of the requests that
/// were executed before a fault remain. Each read and each write of a stream has 30 seconds.
pub fn serve_on<C: Clock, S: Alter>(
    alloc: Global,
    listener: &TcpListener,
    streams: u32,
    clock: &mut C,
    desk: &mut Desk<S>,
) -> Result<(), Ending>
    ensures { ServesListener S.Store C.gives streams clock.old clock.new desk.old desk.new result }
{
    let mut listener = listener;
    serve_desk(alloc, &mut listener, streams, clock, desk)
}

/// Returns `Net` also if the port of 127.0.0.1 cannot be opened.
pub(crate) fn execute_serve_job<S: Alter>(
    rt: &HostRuntime,
    port: u16,
    at: Option<Stamp>,
    streams: u32,
    desk: &mut Desk<S>,
) -> Ending
    ensures { ServesStreams S.Store rt.entry at streams desk.old desk.new result }
{
    let Ok(listener) = TcpListener::bind(rt, ("127.0.0.1", port)) else {
        return Ending::Net;
    };
    let mut clock = ProgramClock::new(rt, at);
    let mut timed = TimedListener::new(&listener, rt);
    ending_of_serving(serve_desk(rt.alloc(), &mut timed, streams, &mut clock, desk))
}

fn serve_stamped<P: Peer, L: Listener<Stream = P>, C: Clock, S: Alter>(
    alloc: Global,
    listener: &mut L,
    clock: &mut C,
    desk: &mut StampedDesk<S>,
) -> Result<(), Ending>
    ensures { ServesStamped S.Store C.gives clock.old clock.new desk.old desk.new result }
{
    result_of_serving(serve_stamped_listener(alloc, listener, 1, clock, desk))
}

// If the stream ends because memory ran out, or cannot be accepted, the file is closed.
fn serve_stream_or_close<
    S: Alter,
    F: DeskFiles<Desk = Store<S>>,
    P: Peer,
    L: Listener<Stream = P>,
    C: Clock,
>(
    alloc: Global,
    files: &F,
    listener: &mut L,
    clock: &mut C,
    mut desk: StampedDesk<S>,
) -> Result<StampedDesk<S>, Ending>
    ensures { ServesStreamOrCloses S.Store F.closes C.gives clock.old clock.new desk result }
{
    match serve_stamped(alloc, listener, clock, &mut desk) {
        Ok(()) => Ok(desk),
        Err(ending) => Err(ending_after_close(ending, files.close(into_store(desk)))),
    }
}

fn serve_next_stream<
    S: Alter,
    F: DeskFiles<Desk = Store<S>>,
    P: Peer,
    L: Listener<Stream = P>,
    C: Clock,
>(
    alloc: Global,
    files: &F,
    path: &str,
    listener: &mut L,
    clock: &mut C,
    desk: StampedDesk<S>,
) -> Result<StampedDesk<S>, Ending>
    ensures { ServesNextStream S.Store F.opens F.closes C.gives path.now clock.old clock.new desk result }
{
    match ready_desk(alloc, files, path, desk) {
        Ok(desk) => serve_stream_or_close(alloc, files, listener, clock, desk),
        Err(fault) => Err(Ending::Open(fault)),
    }
}

fn serve_file_by<
    S: Alter,
    F: DeskFiles<Desk = Store<S>>,
    P: Peer,
    L: Listener<Stream = P>,
    C: Clock,
>(
    alloc: Global,
    files: &F,
    path: &str,
    listener: &mut L,
    streams: u32,
    clock: &mut C,
    store: Store<S>,
) -> Ending
    ensures { ServesStreamsAndCloses S.Store F.opens F.closes C.gives path.now streams clock.old store result }
{
    let mut desk = begin_serving(store);
    let mut served = 0u32;
    'streams: while served < streams {
        desk = match serve_next_stream(alloc, files, path, listener, clock, desk) {
            Ok(next) => next,
            Err(ending) => return ending,
        };
        served += 1;
    }
    ending_after_close(Ending::Done, files.close(into_store(desk)))
}

/// Serves `streams` streams of the listener in sequence on the store of the file at `path`, each as
/// `serve_on` does, and closes the file. If a fault has closed the store, the file is opened and
/// adopted again before the next stream. Returns `Open` with the fault if it cannot be, or if
/// closing the file fails at the end, and `Open` with `Store` if the last stamp that is found in the
/// file is before that of the last reply.
pub fn serve_file_on<S: Alter, F: DeskFiles<Desk = Store<S>>, C: Clock>(
    alloc: Global,
    files: &F,
    path: &str,
    listener: &TcpListener,
    streams: u32,
    clock: &mut C,
    store: Store<S>,
) -> Ending
    ensures { ServesStreamsAndCloses S.Store F.opens F.closes C.gives path.now streams clock.old store result }
{
    let mut listener = listener;
    serve_file_by(alloc, files, path, &mut listener, streams, clock, store)
}

/// Serves streams like `execute_serve_job`, on the desk in the file at `path`, and closes the file.
/// If a fault has closed the store, its file is opened and adopted again before the next stream.
/// If it cannot be, or its last stamp is before that of the last reply, returns `Open` with the
/// fault.
pub(crate) fn execute_serve_job_in_file<S: Alter, F: DeskFiles<Desk = Store<S>>>(
    rt: &HostRuntime,
    files: &F,
    path: &str,
    port: u16,
    at: Option<Stamp>,
    streams: u32,
    store: Store<S>,
) -> Ending
    ensures { ServesStreamsInFile S.Store F.opens F.closes rt.entry path.now at streams store result }
{
    let Ok(listener) = TcpListener::bind(rt, ("127.0.0.1", port)) else {
        return ending_after_close(Ending::Net, files.close(store));
    };
    let mut clock = ProgramClock::new(rt, at);
    let mut timed = TimedListener::new(&listener, rt);
    serve_file_by(
        rt.alloc(),
        files,
        path,
        &mut timed,
        streams,
        &mut clock,
        store,
    )
}
