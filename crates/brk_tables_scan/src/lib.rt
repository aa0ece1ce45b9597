//! The reads of all rows of a desk's tables: the check that the tables exist, and the decoding of
//! their rows, which reports malformed rows.
//!
//! The raw rows of all tables are in memory before the first is decoded; those of a table are
//! dropped as its typed rows are made.
//!
//! Each call is made within an open transaction. No clause states the value that it returns outside
//! a transaction or if the disk assumption (every read so far returned what was written) fails. An
//! error of the `sqlite` crate is reported as the fault `Store`.
#![tactic(auto)]

pub mod all_tables;
mod column_names;
pub mod columns;
mod decoder;
pub mod presence;
pub mod rows;
pub mod schema;
pub mod sheets;

pub use presence::has_some_desk_table;
pub use schema::database_has_schema;
pub use sheets::read_sheets;
