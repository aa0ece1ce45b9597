//! The texts of the explanations of a trade and of an account.
#![tactic(auto)]

pub mod account;
mod amounts;
mod balance_lines;
mod lots_lines;
mod order_lines;
mod settlement_lines;
mod tax_lines;
pub mod trade;
mod waiting_lines;

pub use account::{
    account_end_text, account_header_text, lots_head_text, open_lot_text, posting_text,
};
pub use trade::trade_explanation_text;
