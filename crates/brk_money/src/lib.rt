//! Amounts, timestamps and numbers of a brokerage, each with its limits and one canonical text, and
//! the words that all layers share: types and statuses of trades, refusals and faults.
#![tactic(auto)]

pub mod amount;
pub mod amounts;
pub mod cents;
pub mod dates;
pub mod day;
pub mod fault;
pub mod id;
pub mod move_id;
pub mod order_type;
pub mod price;
pub mod qty;
pub mod rate;
pub mod refusal;
pub mod side;
pub mod stamp;
pub mod status;
pub mod tax_rate;
pub mod tax_status;
pub mod trade_type;
pub mod whole;
pub mod wide;

pub use amount::Amount;
pub use amounts::{commission, half_up, tax};
pub use cents::{Cents, parse_cents};
pub use dates::{append_day, parse_day, write_day};
pub use day::{Day, day_of};
pub use fault::{CallFault, Condition, Fault, StoreFailed};
pub use id::Id;
pub use move_id::MoveId;
pub use order_type::OrderType;
pub use price::Price;
pub use qty::Qty;
pub use rate::Rate;
pub use refusal::{Limit, Planned, Refusal};
pub use side::Side;
pub use stamp::{Stamp, stamp_after};
pub use status::Status;
pub use tax_rate::TaxRate;
pub use tax_status::TaxStatus;
pub use trade_type::TradeType;
pub use whole::parse_whole;
pub use wide::{Wide, append_cents, write_cents};
