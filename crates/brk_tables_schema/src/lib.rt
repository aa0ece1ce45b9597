//! The schema of a brokerage in SQL: the definitions of the tables, the conversion of values to
//! parameters, the decoding of columns and rows, and the statements on DESK and KEPT.
//!
//! Each function that takes a transaction is called while the transaction is open. No clause states
//! the effect of the call on the database, or the value that it returns, outside a transaction or
//! if the disk assumption (every read so far returned what was written) fails. An error of the
//! database and a malformed row are reported as the fault `Store`.
#![tactic(auto)]

pub mod calls;
pub mod cells;
pub mod decode_error;
pub mod desk_row;
pub mod kept;
pub mod record;
mod reference_records;
pub mod rule_row;
pub mod table;
mod trading_records;
pub mod values;

pub use decode_error::DecodeError;
pub use desk_row::{last_stamp, set_last_stamp};
pub use kept::{add_kept_row, kept_row_by_key};
pub use table::Table;
