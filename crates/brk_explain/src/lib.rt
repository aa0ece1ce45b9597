//! Explanations of a trade, an account, a holding or a broker: the derivation of its amounts.
#![tactic(auto)]

pub mod explaining;
pub mod parse;
pub mod sections;
pub mod visitors;

pub use explaining::write_explanation;
pub use parse::{ExplainRequest, parse_explain};
