//! Serves streams of HTTP requests on any desk. The reply to a request is written before the next
//! one is parsed. The streams of any listener are served in sequence, by any server.
#![tactic(auto)]

mod accept_loop;
mod acting;
mod asking;
mod bodies;
mod exchanges;
mod listen_faults;
mod listener;
mod peer;
mod pieces;
mod replying;
mod router;
mod routes;
mod service;
mod socket;
mod stream;
mod stream_server;

pub use accept_loop::serve_each_stream;
pub use bodies::json_view;
pub use brk_io::stream_fault::{FaultKind, ServeFault};
pub use listen_faults::{AcceptFault, ListenFault};
pub use listener::Listener;
pub use peer::Peer;
pub use pieces::comma_fields;
pub use service::Service;
pub use socket::STREAM_TIMEOUT_SECONDS;
pub use stream::serve_requests;
pub use stream_server::StreamServer;
