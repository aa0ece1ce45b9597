//! Theorems about plans: a plan from facts that were read implements the command as specified, and
//! that of a text update changes only one text column. Proof-only: there is no code to call.
#![tactic(auto)]

pub mod move_plans;
pub mod order_plans;
pub mod reference_plans;
pub mod table_changes;
pub mod trade_plans;
pub mod update_plans;
