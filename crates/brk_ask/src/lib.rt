//! Parses one query, executes it on a desk, and writes its view as CSV rows or as JSON.
#![tactic(auto)]

pub mod asking;
pub mod form;
mod heads;
mod rows;

pub use asking::write_asked;
pub use form::Form;
