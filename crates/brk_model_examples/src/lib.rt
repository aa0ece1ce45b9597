//! Worked examples of the model: the answers to batches over the empty base and a small setting, the
//! queries, statements and audits after them, and streams of HTTP requests. Each is an equation that
//! the checker computes from the specification.
#![tactic(auto)]

pub mod audits;
pub mod closings;
pub mod forms;
pub mod http_requests;
pub mod inputs;
pub mod many_trades;
pub mod markets;
pub mod movements;
pub mod order_checks;
pub mod reference;
pub mod result_refusals;
pub mod retries;
pub mod rules;
pub mod settling;
pub mod stamps;
pub mod statements;
pub mod streams;
pub mod tables;
pub mod taxes;
pub mod ties;
pub mod trading;
pub mod updates;
pub mod views;
