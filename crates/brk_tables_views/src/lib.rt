//! The SQL statements that only views, explanations and statements of accounts execute, one
//! function for each: trades of any status by stamp, the completed trades of a holding, lot
//! changes, brokers by name, all requests, and the accounts of a broker; and walks over the lots of
//! an account, cash rows by stamp, and completed trades, which take the rows of an open query one
//! at a time.
//!
//! A walk needs no transaction, and stops at the first error. Its fault is `Store` also if a row is
//! malformed or if the `sqlite` crate runs out of memory, and `Memory` if the decoding of a row
//! does. Under the disk assumption (every read so far returned what was written) an open database is
//! unchanged by a walk, and a crash after it exposes only states that a crash before it could
//! expose; if the database also has all tables of a desk in schema 3, the visitor has taken all rows
//! after `Ok`, and a prefix of them, possibly none, after an error.
//!
//! The other reads fail with `Store` also if a row is malformed.
#![tactic(auto)]

pub mod brokers;
pub mod cash_walk;
pub mod closure_visitors;
pub mod holdings;
pub mod lot_changes;
pub mod lot_walk;
pub mod trade_walk;
pub mod trades_by_stamp;
pub mod visitor;
pub mod walking;

pub use brokers::{account_ids_of_broker, all_account_ids, all_requests, brokers_with_name};
pub use cash_walk::walk_account_cash_rows;
pub use closure_visitors::{ClosureVisitor, LotClosureVisitor};
pub use holdings::completed_trade_ids;
pub use lot_changes::{
    all_lot_changes, lot_change_by_key, lot_changes_by_trade, lot_changes_of_lot,
};
pub use lot_walk::walk_lots;
pub use trade_walk::walk_completed_trades;
pub use trades_by_stamp::{
    first_trade_of_account_since, twenty_trades_of_account, twenty_trades_of_symbol,
};
pub use visitor::Visitor;
pub use walking::{WalkError, walk_query_rows};
