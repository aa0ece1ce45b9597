//! Facts, which are lines of a label and a value: the label in 15 places, a space, then a text, or
//! a number that is right-aligned in 22 places. The functions `put_labeled_..` append them without
//! their line feeds. Longer labels and values are written whole. The functions fail with `Memory`
//! only, and may then have appended a part.

ghost use Rattle.std.specs.Fmt.{signed_decimal};
ghost use Rattle.std.specs.Prelude.{◌≡◌, ◌++◌, ◌∷◌, [], OnOk};
ghost use Rattle.brk_model_explain.specs.Texts as texts;
ghost use Rattle.brk_model.specs.Statement.{left_aligned_text};
ghost use Rattle.brk_money.specs.Spelling.{day_text};
ghost use Rattle.brk_report_lines.specs.Written.{line_with_line_feed};

use crate::pieces::{align_cents, align_integer, align_number, end_line, put_column, put_text};
use brk_money::{Day, Wide, append_day};
use brk_report_lines::append_left_aligned;
use std::alloc::{AllocError, Global};

/// Appends the label and the space after it.
pub fn put_label(out: &mut Vec<u8>, label: &str) -> Result<(), AllocError>
    ensures { OnOk result (out.new.items ≡ out.old.items ++ left_aligned_text 15 label.now ++ 32 ∷ []) }
{
    append_left_aligned(out, 15, label.as_bytes())?;
    out.push(b' ')?;
    Ok(())
}

/// Appends a label and a text, without a line feed.
#[tactic(auto, unfolding(brk_model_explain::specs::Texts::labeled_text))]
pub fn put_labeled_text(out: &mut Vec<u8>, label: &str, text: &[u8]) -> Result<(), AllocError>
    ensures { OnOk result (out.new.items ≡ out.old.items ++ texts.labeled_text label.now text.now) }
{
    put_label(out, label)?;
    put_text(out, text)
}

/// Appends a label and a number, without a line feed.
#[tactic(auto, unfolding(brk_model_explain::specs::Texts::labeled_number, brk_model_explain::specs::Texts::labeled_value))]
pub fn put_labeled_number(out: &mut Vec<u8>, label: &str, n: u64) -> Result<(), AllocError>
    ensures { OnOk result (out.new.items ≡ out.old.items ++ texts.labeled_number label.now n) }
{
    append_left_aligned(out, 15, label.as_bytes())?;
    align_number(out, 22, n)
}

/// Appends a label and an amount, given in cents, with two decimal places and without a line feed.
#[tactic(auto, unfolding(brk_model_explain::specs::Texts::labeled_amount, brk_model_explain::specs::Texts::labeled_value))]
pub fn put_labeled_amount(
    alloc: Global,
    out: &mut Vec<u8>,
    label: &str,
    amount: Wide,
) -> Result<(), AllocError>
    ensures { OnOk result (out.new.items ≡ out.old.items ++ texts.labeled_amount label.now amount) }
{
    append_left_aligned(out, 15, label.as_bytes())?;
    align_cents(alloc, out, 22, amount)
}

pub fn put_text_fact(out: &mut Vec<u8>, label: &str, text: &[u8]) -> Result<(), AllocError>
    ensures { OnOk result (out.new.items ≡ out.old.items ++ line_with_line_feed (texts.labeled_text label.now text.now)) }
{
    put_labeled_text(out, label, text)?;
    end_line(out)
}

/// Appends the line of a label and a text that is right-aligned as a number would be.
#[tactic(auto, unfolding(brk_model_explain::specs::Texts::labeled_value))]
pub fn put_value_fact(out: &mut Vec<u8>, label: &str, value: &[u8]) -> Result<(), AllocError>
    ensures { OnOk result (out.new.items ≡ out.old.items ++ line_with_line_feed (texts.labeled_value label.now value.now)) }
{
    append_left_aligned(out, 15, label.as_bytes())?;
    put_column(out, 22, value)?;
    end_line(out)
}

pub fn put_number_fact(out: &mut Vec<u8>, label: &str, n: u64) -> Result<(), AllocError>
    ensures { OnOk result (out.new.items ≡ out.old.items ++ line_with_line_feed (texts.labeled_number label.now n)) }
{
    put_labeled_number(out, label, n)?;
    end_line(out)
}

#[tactic(auto, unfolding(brk_model_explain::specs::Texts::labeled_value))]
pub fn put_signed_fact(out: &mut Vec<u8>, label: &str, n: i64) -> Result<(), AllocError>
    ensures { OnOk result (out.new.items ≡ out.old.items ++ line_with_line_feed (texts.labeled_value label.now (signed_decimal n))) }
{
    append_left_aligned(out, 15, label.as_bytes())?;
    align_integer(out, 22, i128::from(n))?;
    end_line(out)
}

pub fn put_amount_fact(
    alloc: Global,
    out: &mut Vec<u8>,
    label: &str,
    amount: Wide,
) -> Result<(), AllocError>
    ensures { OnOk result (out.new.items ≡ out.old.items ++ line_with_line_feed (texts.labeled_amount label.now amount)) }
{
    put_labeled_amount(alloc, out, label, amount)?;
    end_line(out)
}

/// Writes the day as YYYY-MM-DD.
#[tactic(auto, unfolding(brk_model_explain::specs::Texts::labeled_text))]
pub fn put_day_fact(out: &mut Vec<u8>, label: &str, day: Day) -> Result<(), AllocError>
    ensures { OnOk result (out.new.items ≡ out.old.items ++ line_with_line_feed (texts.labeled_text label.now (day_text day))) }
{
    put_label(out, label)?;
    append_day(out, day)?;
    end_line(out)
}
