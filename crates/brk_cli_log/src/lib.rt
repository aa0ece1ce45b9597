//! The bytes of the log beside a database file: whether it has a commit, and whether it is damaged.
#![tactic(auto)]

mod behind;
mod bytes;
mod commits;
mod frames;
mod header;
mod reading;

pub use commits::begins_database;
pub use reading::{EMPTIED_LEN, LogReading, read_log};
