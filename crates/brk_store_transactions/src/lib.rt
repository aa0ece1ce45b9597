//! The tables of a desk in a database: created, changed, audited and upgraded, each in one
//! transaction on a connection.
#![tactic(auto)]

pub mod adopting;
mod auditing;
mod beginning;
mod changing;
mod examining;
mod openness;
pub mod reopening;
mod upgrading;

pub use auditing::audit_database;
pub use beginning::begin_transaction;
pub use changing::{apply_changes, create_tables_atomically};
pub use openness::require_open;
pub use upgrading::audit_and_upgrade_database;
