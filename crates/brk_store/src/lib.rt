//! The store of a desk: the creation, the adoption and the audit of its database, reads of its
//! rows, and changes of its rows in transactions.
//!
//! A read of the database begins a transaction and ends it without a commit (no clause states this).
//! It fails with `Store` also if a row is malformed, if the `sqlite` crate runs out of memory or, if
//! it returns a single row, if its decoding does. A crash after a read exposes only states that a
//! crash before it could expose.
#![tactic(auto)]

mod adoption;
mod brokers;
mod cash;
mod holdings;
mod index;
mod known;
mod lot_changes;
mod lots;
mod numbers;
pub mod pages;
mod reading;
pub mod store;
mod terms;
mod trade_lists;
mod trades;
mod trades_by_id;
mod trades_by_stamp;
mod updates;
mod visits;
pub mod walks;

pub use brk_tables_views::{Visitor, WalkError};
pub use pages::{LotPages, Page, Pages};
pub use store::Store;
pub use trades_by_id::read_trades_by_ids;
