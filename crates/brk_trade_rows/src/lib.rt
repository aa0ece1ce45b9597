//! The tables of a desk as lists of rows, the schemas of a database, and the row changes that a
//! store applies in one transaction.
#![tactic(auto)]

pub mod broker_totals;
pub mod change;
pub mod due;
pub mod schema;
pub mod sheets;
pub mod trade_count;

pub use brk_money::Amount;
pub use broker_totals::BrokerTotals;
pub use change::Change;
pub use due::{completion_due_day, days_to_settlement};
pub use schema::Schema;
pub use sheets::Sheets;
pub use trade_count::TradeCount;
