//! Serves HTTP requests to a desk as brk_http does, and keeps the stamp of the last reply, by which a
//! desk that is opened again is tested: its last stamp may not be before it.
#![tactic(auto)]

mod at_desk;
mod listening;
mod server;
mod stamped_desk;
mod stamps;

pub use at_desk::StampedService;
pub use listening::serve_stamped_listener;
pub use stamped_desk::StampedDesk;
pub use stamps::{is_not_before, stamp_after_command};
