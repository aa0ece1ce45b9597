//! Desks in memory for tests: new desks, the batches that set them up and trade on them, texts of
//! requests, their tables as text, and readers and writers that fail.
#![tactic(auto)]

pub mod desks;
pub mod faulty;
pub mod requests;
pub mod retried;
pub mod statements;
pub mod tables;
pub mod worked;

pub use brk_tests_unit::expect::expect;
pub use desks::{Still, new_desk, open_in_memory};
