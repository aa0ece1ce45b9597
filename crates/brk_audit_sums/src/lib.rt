//! The part of the audit that sums by key: trade counts, commissions, balances and holding
//! summaries. Also the terms of accounts and the settlement amounts of trades, which the other
//! checks use too.
#![tactic(auto)]

pub mod account_terms;
pub mod amounts;
pub mod balances;
mod broker_posting;
pub mod commissions;
pub mod completion;
pub mod counts;
mod keyed_sum;
pub mod summaries;
pub mod tally;
