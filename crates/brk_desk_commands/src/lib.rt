//! The texts of commands: parsing the fields of a row, the row that is stored under an idempotency
//! key, and the line of a reply.
#![tactic(auto)]

pub mod command;
pub mod line;
pub mod movement_row;
pub mod parse;
mod parse_movement;
mod parse_order;
mod parse_update;
pub mod row;
pub mod trading_row;
pub mod update_row;

pub use command::Command;
pub use line::{day_text, line_of_reply, line_text};
pub use movement_row::{row_of_movement, row_of_oneday};
pub use parse::parse_row;
pub use row::{row_of_command, row_of_reference, row_text};
pub use trading_row::{row_of_cancel, row_of_feed, row_of_order, row_of_result};
pub use update_row::row_of_update;
