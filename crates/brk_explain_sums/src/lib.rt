//! The texts of the explanations of a holding and of a broker.
#![tactic(auto)]

pub mod broker;
pub mod holding;
mod holding_lots;
mod holding_totals;
mod lot_lines;
mod trade_lines;
mod trades;

pub use broker::{broker_end_text, broker_header_text, trade_commission_text};
pub use holding::holding_explanation_text;
