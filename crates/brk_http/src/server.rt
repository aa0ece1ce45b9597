//! The server of streams that executes their requests on a desk.

ghost use Rattle.brk_http.specs.Served.{DeskServesStream};

use crate::streams::serve_stream;
use brk_desk::Desk;
use brk_http_engine::{ServeFault, StreamServer};
use brk_import::Clock;
use sqlite::Alter;
use std::alloc::Global;
use std::io::{Read, Write};
use std::marker::PhantomData;

/// A server of streams, which executes their requests on a desk.
pub struct DeskServer<C, S> {
    _clock: PhantomData<C>,
    _store: PhantomData<S>,
}

impl<C: Clock, S: Alter> StreamServer for DeskServer<C, S> {
    type Clock = C;

    type Desk = Desk<S>;

    ghost serves = { λ bytes clock old ended later new. DeskServesStream S.Store C.gives bytes clock old ended later new };

    fn serve_halves<R: Read + Drop, W: Write>(
        alloc: Global,
        reader: R,
        writer: &mut W,
        clock: &mut C,
        desk: &mut Desk<S>,
    ) -> Result<u64, ServeFault> {
        serve_stream(alloc, reader, writer, clock, desk)
    }
}
