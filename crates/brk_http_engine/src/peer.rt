ghost use Rattle.std.specs.Prelude.{ℕ, List, Option, None};
ghost use Rattle.brk_http_engine.specs.Peers.{ServesPeer};

use crate::stream_server::StreamServer;
use brk_io::ServeFault;
use std::alloc::Global;

/// A peer, with the stream that it opened.
pub trait Peer: Drop {
    /// The bytes that the peer sends, if a contract specifies them.
    ghost sends: { Self → Option (List ℕ) } = { λ _. None };

    /// The bytes that the peer has received, if a contract specifies them.
    ghost received: { Self → Option (List ℕ) } = { λ _. None };

    /// Serves the peer by `H`, to the end of its stream: passes both halves of the stream to
    /// `serve_halves`, once, and returns its result.
    ///
    /// Fails with `Read` and 0 if the stream cannot be prepared. Then nothing is changed.
    fn serve_by<H: StreamServer>(
        &mut self,
        alloc: Global,
        clock: &mut H::Clock,
        desk: &mut H::Desk,
    ) -> Result<u64, ServeFault>
        ensures { ServesPeer H.serves sends received clock.old desk.old self.old result self.new clock.new desk.new };
}
