//! The kinds of lines and columns of which explanations consist, and sums of amounts.
#![tactic(auto)]

pub mod amounts;
pub mod facts;
pub mod pieces;
pub mod row_columns;
pub mod timestamps;

pub use amounts::{add_amounts, cents_of_wide, shares_value, subtract_amounts, wide_of_u128};
pub use facts::{
    put_amount_fact, put_day_fact, put_label, put_labeled_amount, put_labeled_number,
    put_labeled_text, put_number_fact, put_signed_fact, put_text_fact, put_value_fact,
};
pub use pieces::{
    align_cents, align_integer, align_number, end_line, put_column, put_numbered, put_spaced_line,
    put_spaced_text, put_text, put_text_line, put_title_line,
};
pub use row_columns::{
    align_amount, align_shares, align_value, put_dated_word, put_row_start, put_undated_row_start,
};
