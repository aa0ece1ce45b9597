//! Executes a batch of CSV rows on any desk, and writes a line with the answer to each row.
//!
//! The rows are executed in order, and their lines are written in order. A row is executed only if
//! a record follows it.
#![tactic(auto)]

mod answer;
mod counts;
mod engine;
mod lines;
mod records;
mod rows;

pub use brk_io::{BatchFault, Clock, FaultKind};
pub use counts::Counts;
pub use engine::execute_batch_on_desk;
pub use records::MAXIMUM_INPUT_BYTES;
pub use rows::Rows;
