//! Plans, which are row changes and a reply, and the planning of commands that read no lots:
//! reference rows, market ticks, cancels, text updates, deposits and withdrawals, and the first day
//! of one-day settlement.
#![tactic(auto)]

pub mod cancel;
pub mod corrected;
pub mod estimate;
pub mod feed;
pub mod movement;
pub mod one_day;
pub mod plan;
pub mod quote;
pub mod reference;
pub mod reply;
pub mod span;
pub mod update;
mod waiting;
mod wording;

pub use cancel::plan_cancel;
pub use corrected::{CashText, SettlementText, TextUpdate};
pub use estimate::Estimate;
pub use feed::{has_no_quote_of_symbol, is_triggered_at_price, plan_feed};
pub use movement::{MovementPlanFacts, add_within_balance_limit, plan_move};
pub use one_day::plan_oneday;
pub use plan::Plan;
pub use quote::Quote;
pub use reference::{Reference, ReferenceFacts, plan_reference};
pub use reply::{Completed, Ordered, Reply};
pub use span::{PriceSpan, first_symbol_price_span};
pub use update::plan_update;
