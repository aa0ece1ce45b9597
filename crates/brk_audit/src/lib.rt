//! The audit of a desk's rows: each row is well-formed, and the derived tables equal the tables
//! that are computed from the base tables.
#![tactic(auto)]

pub mod audit;
pub mod cash;
pub mod history;
pub mod holding_lots;
mod positions;
pub mod requests;
pub mod settlements;
pub mod status;

pub use audit::audit_rows;
pub use brk_trade_rows::Sheets;
