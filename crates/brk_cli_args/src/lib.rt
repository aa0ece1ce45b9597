//! The command-line arguments, and the job that they request.
#![tactic(auto)]

pub mod job;
mod notes;
pub mod words;

pub use brk_io::UsageFault;
pub use job::Job;
pub use words::{non_utf8_fault, read_words};
