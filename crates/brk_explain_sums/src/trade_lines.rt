//! The lines of the trades of a holding. The functions fail with `Memory` or `Store`; after an
//! error a part of the lines may be appended.

ghost use Rattle.std.specs.Prelude.{◌≡◌, ◌++◌, OnOk, map};
ghost use Rattle.brk_ref.specs.Rows.{abstract_trade_row};
ghost use Rattle.brk_model_explain.specs.HoldingLines as lines;
ghost use Rattle.brk_model.specs.Statement.{text_of_lines};
ghost use Rattle.brk_report_lines.specs.Written.{line_with_line_feed};

use crate::trades::{
    completed_price, quantity_after_trade, signed_quantity_of_trade, signed_value_of_trade,
};
use brk_explain_columns::{align_shares, align_value, put_row_start, put_spaced_line};
use brk_money::CallFault;
use brk_ref::TradeRow;
use std::alloc::Global;

// `held` is the quantity of the holding after the trade.
#[tactic(auto, unfolding(brk_model_explain::specs::HoldingLines::holding_trade_line))]
fn put_holding_trade(
    alloc: Global,
    out: &mut Vec<u8>,
    row: &TradeRow,
    held: i64,
) -> Result<(), CallFault>
    ensures { OnOk result (out.new.items ≡ out.old.items ++ line_with_line_feed (lines.holding_trade_line (abstract_trade_row row.now) held)) }
{
    let price = completed_price(row)?;
    let value = signed_value_of_trade(row)?;
    let shares = i128::from(signed_quantity_of_trade(row));
    put_row_start(alloc, out, "Trade", row.stamp, row.id, shares, price)?;
    align_value(alloc, out, value)?;
    align_shares(out, held)?;
    Ok(put_spaced_line(out, row.kind.code().as_bytes())?)
}

/// The holding is 0 before the first trade.
pub(crate) fn put_holding_trades(
    alloc: Global,
    out: &mut Vec<u8>,
    done: &[TradeRow],
) -> Result<(), CallFault>
    ensures { OnOk result (out.new.items ≡ out.old.items ++ text_of_lines (lines.holding_trade_lines (map abstract_trade_row done.now))) }
{
    let mut held: i64 = 0;
    for row in done {
        let after = quantity_after_trade(held, row)?;
        put_holding_trade(alloc, out, row, after)?;
        held = after;
    }
    Ok(())
}
