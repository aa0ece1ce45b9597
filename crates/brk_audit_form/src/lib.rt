//! The audit condition `Form` of a desk's rows: their keys, the limits of their columns, their
//! references, and their texts.
#![tactic(auto)]

mod bands;
mod cash_forms;
mod cash_trades;
mod customer_limits;
pub mod form;
mod keys;
mod limits;
mod numbers;
mod reference_forms;
mod reference_keys;
mod references;
mod rows;
mod tables;
mod tax_ids;
mod trading_forms;
mod trading_keys;

pub use form::meets_form;
