//! Typed rows of explanations: the facts that an explanation reads.
#![tactic(auto)]

pub mod account_details;
pub mod broker_details;
pub mod closing;
pub mod details;
pub mod holding_details;

pub use account_details::{AccountDetails, PricedHolding};
pub use broker_details::BrokerDetails;
pub use closing::Closing;
pub use details::{OrderDetails, ResultDetails, TradeDetails};
pub use holding_details::{HoldingDetails, LotDetails, PricedLotChange};
