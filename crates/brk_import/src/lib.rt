//! Executes batches of CSV rows on a desk, and writes a line with the answer to each row.
#![tactic(auto)]

mod at_desk;
mod batch;
pub mod retries;

pub use at_desk::DeskRows;
pub use batch::run_batch;
pub use brk_import_engine::{BatchFault, Clock, Counts, FaultKind, MAXIMUM_INPUT_BYTES};
