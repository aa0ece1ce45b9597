//! The lots of a position, and how a trade closes them first in first out or last in first out
//! (Trade-Result).
#![tactic(auto)]

pub mod against;
pub mod closed_values;
pub mod closing;
mod cutting;
pub mod deal;
pub mod end;
pub mod lot;
pub mod position;
mod position_checks;
pub mod replay;
mod rows;
pub mod shares;
pub mod source;
pub mod theorems;
pub mod values;
mod walk;

pub use against::{is_trade_closing_lots, opening_effect, zero_values};
pub use closed_values::{Values, share_values};
pub use closing::{ClosedLots, Closing, close, close_lots};
pub use deal::Deal;
pub use end::PositionEnd;
pub use lot::{Lot, Touch, are_same_side, signed_qty};
pub use position::Position;
pub use replay::DealTouch;
pub use shares::shares_to_close_in_lot;
pub use source::LotSource;
pub use values::estimate_values;
