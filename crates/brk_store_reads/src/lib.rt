//! Reads of a database on a connection: sequences of reads, and rows that an index in memory finds,
//! each read by its key; and the reads of all rows of which the index is made.
#![tactic(auto)]

pub mod accounts_by_age;
pub mod by_age;
pub mod cash_by_age;
pub mod chosen_ages;
pub mod lots_by_symbol;
pub mod row_index;
mod terms;
pub mod trades_by_age;
mod whole_tables;
