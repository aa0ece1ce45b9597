//! Texts with a space or a line feed, and right-aligned columns of at most 22 places, each after a
//! space. The functions fail with `Memory` only, and may then have appended a part.

ghost use Rattle.std.specs.Fmt.{signed_decimal};
ghost use Rattle.std.specs.Prelude.{◌≡◌, ◌++◌, ◌∷◌, ◌≤◌, [], OnOk, codes, decimal};
ghost use Rattle.brk_model.specs.Statement.{right_aligned_text};
ghost use Rattle.brk_money.specs.Spelling.{cents_text};
ghost use Rattle.brk_report_lines.specs.Written.{line_with_line_feed};

use brk_money::{Id, Wide, append_cents};
use brk_report_lines::append_right_aligned;
use itoa::Buffer;
use std::alloc::{AllocError, Global};

pub fn end_line(out: &mut Vec<u8>) -> Result<(), AllocError>
    ensures { OnOk result (out.new.items ≡ out.old.items ++ 10 ∷ []) }
{
    out.push(b'\n')?;
    Ok(())
}

pub fn put_text(out: &mut Vec<u8>, text: &[u8]) -> Result<(), AllocError>
    ensures { OnOk result (out.new.items ≡ out.old.items ++ text.now) }
{
    out.extend_from_slice(text)?;
    Ok(())
}

pub fn put_text_line(out: &mut Vec<u8>, text: &[u8]) -> Result<(), AllocError>
    ensures { OnOk result (out.new.items ≡ out.old.items ++ line_with_line_feed text.now) }
{
    put_text(out, text)?;
    end_line(out)
}

pub fn put_spaced_text(out: &mut Vec<u8>, text: &[u8]) -> Result<(), AllocError>
    ensures { OnOk result (out.new.items ≡ out.old.items ++ 32 ∷ text.now) }
{
    out.push(b' ')?;
    put_text(out, text)
}

pub fn put_spaced_line(out: &mut Vec<u8>, text: &[u8]) -> Result<(), AllocError>
    ensures { OnOk result (out.new.items ≡ out.old.items ++ 32 ∷ line_with_line_feed text.now) }
{
    out.push(b' ')?;
    put_text_line(out, text)
}

pub fn put_decimal(out: &mut Vec<u8>, n: u64) -> Result<(), AllocError>
    ensures { OnOk result (out.new.items ≡ out.old.items ++ decimal n) }
{
    let mut buffer = Buffer::new();
    put_text(out, buffer.format(n).as_bytes())
}

/// Appends a text and a number in decimal digits after it, without a space of its own.
pub fn put_numbered(out: &mut Vec<u8>, text: &str, n: u64) -> Result<(), AllocError>
    ensures { OnOk result (out.new.items ≡ out.old.items ++ text.now ++ decimal n) }
{
    put_text(out, text.as_bytes())?;
    put_decimal(out, n)
}

/// Appends the title of an explanation, such as `Trade 7, times in UTC`.
pub fn put_title_line(out: &mut Vec<u8>, text: &str, id: Id) -> Result<(), AllocError>
    ensures { OnOk result (out.new.items ≡ out.old.items ++ line_with_line_feed (text.now ++ decimal id ++ codes ", times in UTC")) }
{
    put_numbered(out, text, id.get())?;
    put_text_line(out, b", times in UTC")
}

/// Appends a space and a text, right-aligned in `places` places; a longer text is appended whole.
pub fn put_column(out: &mut Vec<u8>, places: usize, text: &[u8]) -> Result<(), AllocError>
    requires { places ≤ 22 }
    ensures { OnOk result (out.new.items ≡ out.old.items ++ 32 ∷ right_aligned_text places text.now) }
{
    out.push(b' ')?;
    append_right_aligned(out, places, text)
}

pub fn align_number(out: &mut Vec<u8>, places: usize, n: u64) -> Result<(), AllocError>
    requires { places ≤ 22 }
    ensures { OnOk result (out.new.items ≡ out.old.items ++ 32 ∷ right_aligned_text places (decimal n)) }
{
    let mut buffer = Buffer::new();
    put_column(out, places, buffer.format(n).as_bytes())
}

pub fn align_integer(out: &mut Vec<u8>, places: usize, n: i128) -> Result<(), AllocError>
    requires { places ≤ 22 }
    ensures { OnOk result (out.new.items ≡ out.old.items ++ 32 ∷ right_aligned_text places (signed_decimal n)) }
{
    let mut buffer = Buffer::new();
    put_column(out, places, buffer.format(n).as_bytes())
}

/// Writes the amount, given in cents, with two decimal places.
pub fn align_cents(
    alloc: Global,
    out: &mut Vec<u8>,
    places: usize,
    amount: Wide,
) -> Result<(), AllocError>
    requires { places ≤ 22 }
    ensures { OnOk result (out.new.items ≡ out.old.items ++ 32 ∷ right_aligned_text places (cents_text amount)) }
{
    let mut cents = Vec::new(alloc);
    append_cents(&mut cents, amount)?;
    put_column(out, places, cents.as_slice())
}
