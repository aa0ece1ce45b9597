//! The checks that trades are numbered from 1, and that movements are not too many.

ghost use Rattle.std.specs.Prelude.{◌≡◌, filter, is_none, length, map, nat_le};
ghost use Rattle.std.specs.List.{range_with_len};
ghost use Rattle.brk_model.specs.Form as form;
ghost use Rattle.brk_model.specs.Limits.{greatest_id};

use brk_money::Id;
use brk_ref::{CashRow, TradeRow};

pub(crate) fn are_numbered(trades: &[TradeRow]) -> bool
    ensures { result ≡ form.are_equal_number_lists (map (λ row. row.id) trades.now) (range_with_len 1 (length trades.now)) }
{
    for (place, row) in trades.iter().enumerate() {
        if row.id.get() - 1 != place as u64 {
            return false;
        }
    }
    true
}

/// At most 10^12 deposits and withdrawals, which are the rows without a trade.
pub(crate) fn is_within_movement_limit(moves: &[CashRow]) -> bool
    ensures { result ≡ nat_le (length (filter (λ r. is_none r.trade) moves.now)) greatest_id }
{
    let mut count = 0u64;
    for row in moves {
        if row.trade.is_none() {
            count += 1;
        }
    }
    count <= Id::GREATEST
}
