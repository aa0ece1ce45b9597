//! Reads of a store for rows that must exist, because another row contains their key, and the market
//! value of an account's holdings at last prices.
#![tactic(auto)]

pub mod required;
pub mod valuation;

pub use required::{
    require_account, require_broker, require_customer, require_security, require_settlement,
    require_tax, require_trade,
};
pub use valuation::{
    ValuedSummaries, read_holdings_value, read_valued_summaries, require_last_price,
};
