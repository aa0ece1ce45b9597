//! Decisions on commands: each reads the tables, writes nothing, and returns a plan or a refusal. A
//! decision, or an estimate, is the model's if the tables equal those of a base that satisfies the
//! books invariant.
#![tactic(auto)]

pub mod amounts;
pub mod cancel;
pub mod estimate;
mod faults;
pub mod feed;
pub mod movement;
mod movement_finding;
pub mod one_day;
pub mod order;
mod order_check_reads;
mod order_finding;
mod parties;
pub mod reference;
mod reference_finding;
pub mod result;
mod result_finding;
mod summary_finding;
mod terms;
pub mod update;
mod update_finding;
mod update_texts;

pub use cancel::decide_cancel;
pub use estimate::compute_order_estimate;
pub use feed::decide_feed;
pub use movement::decide_movement;
pub use one_day::decide_oneday;
pub use order::decide_order;
pub use reference::decide_reference_record;
pub use result::decide_result;
pub use update::decide_update;
