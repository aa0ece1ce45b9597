//! The lines of a statement, and functions that write lines.
#![tactic(auto)]

pub mod columns;
pub mod days;
pub mod head_lines;
pub mod row_lines;
pub mod writing;

pub use brk_io::{LinesFault, ReportFault};
pub use columns::{append_left_aligned, append_right_aligned};
pub use days::{end_of_day, start_of_day};
pub use head_lines::{amount_line, name_line, period_line, row_counts_line, title_line};
pub use row_lines::{cash_row_line, lot_line};
pub use writing::{write_line, write_lines};
