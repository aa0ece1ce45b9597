//! The SQL statements on cash rows and on the first day of one-day settlement, one function for
//! each, and those of the upgrade of an older schema to schema 3, which numbers the cash rows.
//!
//! An insertion fails with the fault `Store` also if its key exists, or if a row that it refers to
//! does not. An update changes nothing if its row does not exist. A read fails with `Store` also if
//! a row is malformed.
#![tactic(auto)]

pub mod moves;
pub mod numbering;
pub mod ordering;
pub mod rule;
pub mod upgrade_reads;
pub mod upgrade_statements;

pub use moves::{
    add_cash_row, all_cash_rows, cash_row_by_id, cash_row_by_trade, cash_row_with_greatest_id,
    has_reached_movement_limit, set_cash_row_name,
};
pub use rule::{one_day_start, set_one_day_start};
