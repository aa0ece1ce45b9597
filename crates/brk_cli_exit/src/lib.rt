//! The exit status of the program, and its error line.
#![tactic(auto)]

pub mod ending;
pub mod messages;
pub mod sink;

pub use brk_io;
pub use ending::{Ending, end_with, ending_after_close, send_error_line};
pub use sink::Sink;
