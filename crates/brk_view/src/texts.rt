//! The texts of the fields of a record, each appended to the texts before it.

ghost use Rattle.std.specs.Prelude.{◌≡◌, ◌++◌, ◌∷◌, [], OnOk, decimal};
ghost use Rattle.std.specs.Fmt.{signed_decimal};
ghost use Rattle.std.specs.Option.{option_map_or};
ghost use Rattle.brk_model.specs.Rows.{nonnegative_cents_text as text_of_price};
ghost use Rattle.brk_money.specs.Spelling as spelling;
ghost use Rattle.brk_money.specs.Spelling.{cents_text};
ghost use Rattle.brk_view_rows.specs.Views.{texts_of_record};

use brk_desk_commands::day_text;
use brk_money::{Day, Price, Stamp, Wide};
use std::alloc::{AllocError, Global};

pub(crate) fn push_text(
    alloc: Global,
    texts: &mut Vec<String>,
    word: &str,
) -> Result<(), AllocError>
    ensures { OnOk result (texts_of_record texts.new ≡ texts_of_record texts.old ++ word.now ∷ []) }
{
    texts.push(String::from_str(alloc, word)?)?;
    Ok(())
}

pub(crate) fn push_number(
    alloc: Global,
    texts: &mut Vec<String>,
    number: u64,
) -> Result<(), AllocError>
    ensures { OnOk result (texts_of_record texts.new ≡ texts_of_record texts.old ++ decimal number ∷ []) }
{
    texts.push(format!(in alloc; "{}", number)?)?;
    Ok(())
}

// Shares that were sold short have a minus sign.
pub(crate) fn push_shares(
    alloc: Global,
    texts: &mut Vec<String>,
    shares: i64,
) -> Result<(), AllocError>
    ensures { OnOk result (texts_of_record texts.new ≡ texts_of_record texts.old ++ signed_decimal shares ∷ []) }
{
    texts.push(format!(in alloc; "{}", shares)?)?;
    Ok(())
}

// The text is the number of milliseconds since 1970-01-01 UTC.
pub(crate) fn push_stamp(
    alloc: Global,
    texts: &mut Vec<String>,
    stamp: Stamp,
) -> Result<(), AllocError>
    ensures { OnOk result (texts_of_record texts.new ≡ texts_of_record texts.old ++ decimal stamp ∷ []) }
{
    push_number(alloc, texts, stamp.get().unsigned_abs())
}

// The text is, for example, `2024-03-01`.
pub(crate) fn push_day(alloc: Global, texts: &mut Vec<String>, day: Day) -> Result<(), AllocError>
    ensures { OnOk result (texts_of_record texts.new ≡ texts_of_record texts.old ++ spelling.day_text day ∷ []) }
{
    texts.push(day_text(alloc, day)?)?;
    Ok(())
}

// The text is, for example, `-12.05` for -1,205 cents.
pub(crate) fn push_amount(
    alloc: Global,
    texts: &mut Vec<String>,
    amount: Wide,
) -> Result<(), AllocError>
    ensures { OnOk result (texts_of_record texts.new ≡ texts_of_record texts.old ++ cents_text amount ∷ []) }
{
    texts.push(amount.to_string(alloc)?)?;
    Ok(())
}

// The text is, for example, `10.00` for 1,000 cents, and empty for `None`.
pub(crate) fn push_price(
    alloc: Global,
    texts: &mut Vec<String>,
    price: Option<Price>,
) -> Result<(), AllocError>
    ensures { OnOk result (texts_of_record texts.new ≡ texts_of_record texts.old ++ option_map_or text_of_price price [] ∷ []) }
{
    match price {
        Some(price) => push_amount(alloc, texts, Wide::from(price)),
        None => push_text(alloc, texts, ""),
    }
}
