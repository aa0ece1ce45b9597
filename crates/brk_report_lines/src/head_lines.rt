//! The lines of a statement that show no row, each with its line feed: title, name, period, amounts
//! and, as the last line, the numbers of rows. The functions fail with `Memory` only.

ghost use Rattle.std.specs.Prelude.{◌≡◌, ◌++◌, IfOk, codes, decimal};
ghost use Rattle.brk_money.specs.Spelling.{day_text};
ghost use Rattle.brk_model.specs.Statement as statement;
ghost use Rattle.brk_report_lines.specs.Written.{line_with_line_feed};

use crate::columns::{append_left_aligned, append_right_aligned};
use brk_money::{Day, Id, Wide, append_cents, append_day};
use brk_ref::Name;
use itoa::Buffer;
use std::alloc::{AllocError, Global};

/// Returns `Statement of account ID`.
pub fn title_line(alloc: Global, account: Id) -> Result<Vec<u8>, AllocError>
    ensures { IfOk result (λ line. line.items ≡ line_with_line_feed (codes "Statement of account " ++ decimal account)) }
{
    let mut buffer = Buffer::new();
    let mut line = Vec::from_slice(alloc, b"Statement of account ")?;
    line.extend_from_slice(buffer.format(account.get()).as_bytes())?;
    line.push(b'\n')?;
    Ok(line)
}

pub fn name_line(alloc: Global, name: &Name) -> Result<Vec<u8>, AllocError>
    ensures { IfOk result (λ line. line.items ≡ line_with_line_feed name.now) }
{
    let mut line = Vec::from_slice(alloc, name.as_str().as_bytes())?;
    line.push(b'\n')?;
    Ok(line)
}

/// Returns `From DAY to DAY`, with days in the format YYYY-MM-DD.
pub fn period_line(alloc: Global, from: Day, to: Day) -> Result<Vec<u8>, AllocError>
    ensures { IfOk result (λ line. line.items ≡ line_with_line_feed (codes "From " ++ day_text from ++ codes " to " ++ day_text to)) }
{
    let mut line = Vec::from_slice(alloc, b"From ")?;
    append_day(&mut line, from)?;
    line.extend_from_slice(b" to ")?;
    append_day(&mut line, to)?;
    line.push(b'\n')?;
    Ok(line)
}

/// Returns `word`, left-aligned in 10 bytes, a space, and `amount` (in cents), with two decimal
/// places, right-aligned in 22 bytes.
pub fn amount_line(alloc: Global, word: &str, amount: Wide) -> Result<Vec<u8>, AllocError>
    ensures { IfOk result (λ line. line.items ≡ line_with_line_feed (statement.amount_line word.now amount)) }
{
    let mut cents = Vec::new(alloc);
    append_cents(&mut cents, amount)?;
    let mut line = Vec::new(alloc);
    append_left_aligned(&mut line, 10, word.as_bytes())?;
    line.push(b' ')?;
    append_right_aligned(&mut line, 22, cents.as_slice())?;
    line.push(b'\n')?;
    Ok(line)
}

/// Returns `Cash rows N, lots N`, the last line of a statement.
pub fn row_counts_line(alloc: Global, cash: u64, lots: u64) -> Result<Vec<u8>, AllocError>
    ensures { IfOk result (λ line. line.items ≡ line_with_line_feed (codes "Cash rows " ++ decimal cash ++ codes ", lots " ++ decimal lots)) }
{
    let mut buffer = Buffer::new();
    let mut line = Vec::from_slice(alloc, b"Cash rows ")?;
    line.extend_from_slice(buffer.format(cash).as_bytes())?;
    line.extend_from_slice(b", lots ")?;
    line.extend_from_slice(buffer.format(lots).as_bytes())?;
    line.push(b'\n')?;
    Ok(line)
}
