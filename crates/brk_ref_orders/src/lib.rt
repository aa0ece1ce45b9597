//! Orders, market ticks, cancels, completions, text updates, deposits and withdrawals, and the
//! first day of one-day settlement, each as it is requested, and the functions that parse them from
//! fields.
#![tactic(auto)]

pub mod cancel;
pub mod completion;
pub mod feed;
pub mod movement;
pub mod one_day;
pub mod order;
pub mod tick;
pub mod trade_ids;
pub mod update;

pub use cancel::parse_cancel;
pub use completion::{Completion, parse_completion};
pub use feed::{Feed, parse_market_feed};
pub use movement::{Direction, Movement, parse_cash_movement};
pub use one_day::parse_one_day;
pub use order::{Order, parse_trade_order};
pub use tick::Tick;
pub use trade_ids::{TradeIds, parse_trade_ids};
pub use update::{Update, parse_cash_name_update, parse_cash_type_update, parse_executor_update};
