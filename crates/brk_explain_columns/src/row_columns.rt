//! The columns with which the row of a trade or a lot begins, and columns of amounts and shares
//! after them. A value that is longer than its column is written whole. The functions fail with
//! `Memory` only, and may then have appended a part.

ghost use Rattle.std.specs.Fmt.{signed_decimal};
ghost use Rattle.std.specs.Prelude.{◌≡◌, ◌++◌, ◌∷◌, OnOk, decimal};
ghost use Rattle.brk_model_explain.specs.Texts.{amount_column, blank_timestamp_text, leading_row_columns, shares_column, timestamp_text, value_column};
ghost use Rattle.brk_model.specs.Rows.{nonnegative_cents_text};
ghost use Rattle.brk_model.specs.Statement.{left_aligned_text, right_aligned_text};

use crate::pieces::{align_cents, align_integer, align_number, put_spaced_text};
use crate::timestamps::put_timestamp;
use brk_money::{Id, Price, Stamp, Wide};
use brk_report_lines::append_left_aligned;
use std::alloc::{AllocError, Global};

/// Appends a word in 6 places and a date and time in UTC.
pub fn put_dated_word(out: &mut Vec<u8>, word: &str, stamp: Stamp) -> Result<(), AllocError>
    ensures { OnOk result (out.new.items ≡ out.old.items ++ left_aligned_text 6 word.now ++ 32 ∷ timestamp_text stamp) }
{
    append_left_aligned(out, 6, word.as_bytes())?;
    out.push(b' ')?;
    put_timestamp(out, stamp)
}

fn put_blank_stamp(out: &mut Vec<u8>) -> Result<(), AllocError>
    ensures { OnOk result (out.new.items ≡ out.old.items ++ 32 ∷ blank_timestamp_text) }
{
    put_spaced_text(out, b"                       ")
}

fn align_id_shares_price(
    alloc: Global,
    out: &mut Vec<u8>,
    id: Id,
    shares: i128,
    price: Price,
) -> Result<(), AllocError>
    ensures { OnOk result (out.new.items
        ≡ out.old.items ++ 32 ∷ right_aligned_text 13 (decimal id) ++ 32 ∷ right_aligned_text 11 (signed_decimal shares) ++ 32
        ∷ right_aligned_text 10 (nonnegative_cents_text price)) }
{
    align_number(out, 13, id.get())?;
    align_integer(out, 11, shares)?;
    align_cents(alloc, out, 10, Wide::from(price))
}

/// Appends the first columns of a row about a trade or a lot: word, time, id, shares (below 0 if
/// sold or sold short) and price.
#[tactic(auto, unfolding(brk_model_explain::specs::Texts::leading_row_columns))]
pub fn put_row_start(
    alloc: Global,
    out: &mut Vec<u8>,
    word: &str,
    stamp: Stamp,
    id: Id,
    shares: i128,
    price: Price,
) -> Result<(), AllocError>
    ensures { OnOk result (out.new.items ≡ out.old.items ++ leading_row_columns word.now (timestamp_text stamp) id shares price) }
{
    put_dated_word(out, word, stamp)?;
    align_id_shares_price(alloc, out, id, shares, price)
}

/// Appends the first columns of a row without a time, with 23 spaces in its place.
#[tactic(auto, unfolding(brk_model_explain::specs::Texts::leading_row_columns))]
pub fn put_undated_row_start(
    alloc: Global,
    out: &mut Vec<u8>,
    word: &str,
    id: Id,
    shares: i128,
    price: Price,
) -> Result<(), AllocError>
    ensures { OnOk result (out.new.items ≡ out.old.items ++ leading_row_columns word.now blank_timestamp_text id shares price) }
{
    append_left_aligned(out, 6, word.as_bytes())?;
    put_blank_stamp(out)?;
    align_id_shares_price(alloc, out, id, shares, price)
}

/// Appends an amount, in cents, in 16 places.
#[tactic(auto, unfolding(brk_model_explain::specs::Texts::value_column))]
pub fn align_value(alloc: Global, out: &mut Vec<u8>, amount: Wide) -> Result<(), AllocError>
    ensures { OnOk result (out.new.items ≡ out.old.items ++ value_column amount) }
{
    align_cents(alloc, out, 16, amount)
}

/// Appends an amount, in cents, in 22 places.
#[tactic(auto, unfolding(brk_model_explain::specs::Texts::amount_column))]
pub fn align_amount(alloc: Global, out: &mut Vec<u8>, amount: Wide) -> Result<(), AllocError>
    ensures { OnOk result (out.new.items ≡ out.old.items ++ amount_column amount) }
{
    align_cents(alloc, out, 22, amount)
}

/// Appends a number of shares, below 0 if they were sold short, in 11 places.
#[tactic(auto, unfolding(brk_model_explain::specs::Texts::shares_column))]
pub fn align_shares(out: &mut Vec<u8>, shares: i64) -> Result<(), AllocError>
    ensures { OnOk result (out.new.items ≡ out.old.items ++ shares_column shares) }
{
    align_integer(out, 11, i128::from(shares))
}
