ghost use Rattle.std.specs.Prelude.{Result};
ghost use Rattle.brk_http_engine.specs.declared.listen_faults.AcceptFault.{AcceptFault};

use crate::listen_faults::AcceptFault;
use std::io::ErrorKind;
use std::net::{TcpListener, TcpStream};

/// A source of streams, which accepts one after the other.
pub trait Listener {
    /// A stream that a peer opened.
    type Stream: Drop;

    /// Holds if an accept may turn the first listener into the second, with this result. Always
    /// holds for a listener that defines no relation of its own.
    ghost accepts: { Self → Result Self.Stream AcceptFault → Self → Type 0 } = { λ _ _ _. Unit {0} };

    /// Waits for the next stream of a peer and accepts it.
    fn accept_next(&mut self) -> Result<Self::Stream, AcceptFault>
        ensures { accepts self.old result self.new };
}

impl Listener for &TcpListener {
    type Stream = TcpStream;

    fn accept_next(&mut self) -> Result<TcpStream, AcceptFault> {
        match self.accept() {
            Ok((stream, _)) => Ok(stream),
            Err(error) if error.kind() == ErrorKind::ConnectionAborted => Err(AcceptFault::Aborted),
            Err(_) => Err(AcceptFault::Failed),
        }
    }
}
