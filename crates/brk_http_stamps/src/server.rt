//! The server of streams that executes their requests on a desk and keeps the stamp of its replies.

ghost use Rattle.brk_http_stamps.specs.Stamped.{StampedDeskServesStream};

use crate::at_desk::StampedService;
use crate::stamped_desk::StampedDesk;
use brk_http_engine::{ServeFault, StreamServer, serve_requests};
use brk_io::Clock;
use sqlite::Alter;
use std::alloc::Global;
use std::io::{Read, Write};
use std::marker::PhantomData;

/// A server of streams, which executes their requests on a desk and keeps the stamp of its replies.
pub struct StampedServer<C, S> {
    _clock: PhantomData<C>,
    _store: PhantomData<S>,
}

impl<C: Clock, S: Alter> StreamServer for StampedServer<C, S> {
    type Clock = C;

    type Desk = StampedDesk<S>;

    ghost serves = { λ bytes clock old ended later new. StampedDeskServesStream S.Store C.gives bytes clock old ended later new };

    fn serve_halves<R: Read + Drop, W: Write>(
        alloc: Global,
        reader: R,
        writer: &mut W,
        clock: &mut C,
        desk: &mut StampedDesk<S>,
    ) -> Result<u64, ServeFault> {
        serve_requests::<R, W, C, StampedService<S>>(alloc, reader, writer, clock, desk)
    }
}
