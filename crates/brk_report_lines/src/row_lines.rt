//! The lines of rows in columns, each with its line feed. The functions fail with `Memory` only.

ghost use Rattle.std.specs.Prelude.{◌≡◌, IfOk};
ghost use Rattle.brk_ref.specs.Rows.{abstract_holding_row, abstract_cash_row};
ghost use Rattle.brk_model.specs.Statement as statement;
ghost use Rattle.brk_report_lines.specs.Written.{line_with_line_feed};

use crate::columns::{append_left_aligned, append_right_aligned};
use brk_money::{Wide, append_cents, append_day, day_of};
use brk_ref::{CashRow, HoldingRow};
use itoa::Buffer;
use std::alloc::{AllocError, Global};

/// Returns the UTC day of the row (YYYY-MM-DD), its amount, right-aligned in 22 bytes, and its
/// name, separated by spaces.
pub fn cash_row_line(alloc: Global, row: &CashRow) -> Result<Vec<u8>, AllocError>
    ensures { IfOk result (λ line. line.items ≡ line_with_line_feed (statement.cash_row_line (abstract_cash_row row.now))) }
{
    let mut cents = Vec::new(alloc);
    append_cents(&mut cents, Wide::from(row.amount))?;
    let mut line = Vec::new(alloc);
    append_day(&mut line, day_of(row.stamp))?;
    line.push(b' ')?;
    append_right_aligned(&mut line, 22, cents.as_slice())?;
    line.push(b' ')?;
    line.extend_from_slice(row.name.as_bytes())?;
    line.push(b'\n')?;
    Ok(line)
}

/// Returns the symbol of the lot, left-aligned in 15 bytes, and, right-aligned, the id of the trade
/// that opened it in 13, its quantity (below 0 if sold short) in 11 and its price in 10 bytes,
/// separated by spaces.
pub fn lot_line(alloc: Global, row: &HoldingRow) -> Result<Vec<u8>, AllocError>
    ensures { IfOk result (λ line. line.items ≡ line_with_line_feed (statement.lot_line (abstract_holding_row row.now))) }
{
    let mut price = Vec::new(alloc);
    append_cents(&mut price, Wide::new(i128::from(row.price.get())))?;
    let mut trade = Buffer::new();
    let mut qty = Buffer::new();
    let mut line = Vec::new(alloc);
    append_left_aligned(&mut line, 15, row.symbol.as_str().as_bytes())?;
    line.push(b' ')?;
    append_right_aligned(&mut line, 13, trade.format(row.trade.get()).as_bytes())?;
    line.push(b' ')?;
    append_right_aligned(&mut line, 11, qty.format(row.qty).as_bytes())?;
    line.push(b' ')?;
    append_right_aligned(&mut line, 10, price.as_slice())?;
    line.push(b'\n')?;
    Ok(line)
}
