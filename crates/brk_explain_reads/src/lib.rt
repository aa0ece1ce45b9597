//! Reads for explanations: the facts of a trade, an account, a holding and a broker in the tables.
#![tactic(auto)]

pub mod accounts;
pub mod brokers;
mod cash;
mod holding_trades;
pub mod holdings;
mod lot_changes;
mod ordering;
mod orders;
mod results;
mod settled;
mod terms;
mod trade_lots;
pub mod trades;

pub use accounts::gather_account;
pub use brokers::{gather_broker, visit_broker_trades};
pub use holdings::gather_holding;
pub use trades::gather_trade;
