//! Theorems about the model alone, which relate its definitions. Their functions do nothing at run
//! time.
#![tactic(auto)]

pub mod batches;
pub mod forms;
pub mod keys;
pub mod positions;
pub mod referenced_records;
pub mod runs;
pub mod texts;
