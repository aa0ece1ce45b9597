//! Serves HTTP requests to a desk: rows with or without keys, and queries, with replies in JSON. The
//! streams of a listener are served in sequence. Theorems say that a key is shared with batches.
#![tactic(auto)]

mod at_desk;
pub mod keys;
mod listening;
mod server;
mod streams;

pub use at_desk::DeskService;
pub use brk_http_engine::{
    AcceptFault, FaultKind, ListenFault, Listener, Peer, STREAM_TIMEOUT_SECONDS, ServeFault,
    StreamServer,
};
pub use brk_import::Clock;
pub use listening::serve_listener;
pub use streams::serve_stream;
