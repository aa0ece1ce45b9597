//! The lines of the lots of a holding. The functions fail with `Memory` or `Store`; after an error
//! a part of the lines may be appended.

ghost use Rattle.std.specs.Prelude.{◌≡◌, ◌++◌, OnOk, flat_map, map};
ghost use Rattle.brk_model_explain.specs.HoldingLines as lines;
ghost use Rattle.brk_explain_rows.specs.Details.{abstract_priced_lot_change, abstract_lot_details};
ghost use Rattle.brk_model.specs.Statement.{text_of_lines};
ghost use Rattle.brk_report_lines.specs.Written.{line_with_line_feed};

use crate::holding_lots::{
    qty_increase, realised_gain_of_change, remaining_cost_of_lot, remaining_quantity,
};
use crate::trades::completed_price;
use brk_explain_columns::{
    align_shares, align_value, end_line, put_row_start, put_undated_row_start, shares_value,
};
use brk_explain_rows::{LotDetails, PricedLotChange};
use brk_money::{CallFault, Price};
use std::alloc::Global;

#[tactic(auto, unfolding(brk_model_explain::specs::HoldingLines::lot_opening_line))]
fn put_lot_opening(alloc: Global, out: &mut Vec<u8>, lot: &LotDetails) -> Result<(), CallFault>
    ensures { OnOk result (out.new.items ≡ out.old.items ++ line_with_line_feed (lines.lot_opening_line (abstract_lot_details lot.now))) }
{
    let trade = &lot.trade;
    let price = completed_price(trade)?;
    let cost = shares_value(lot.opened, price)?;
    let shares = i128::from(lot.opened);
    put_row_start(alloc, out, "Lot", trade.stamp, trade.id, shares, price)?;
    align_value(alloc, out, cost)?;
    Ok(end_line(out)?)
}

// `price` is the one at which the lot was opened; the line shows that of the change.
#[tactic(auto, unfolding(brk_model_explain::specs::HoldingLines::lot_change_line))]
fn put_lot_change(
    alloc: Global,
    out: &mut Vec<u8>,
    price: Price,
    change: &PricedLotChange,
) -> Result<(), CallFault>
    ensures { OnOk result (out.new.items ≡ out.old.items ++ line_with_line_feed (lines.lot_change_line price (abstract_priced_lot_change change.now))) }
{
    let gain = realised_gain_of_change(price, change)?;
    let shares = qty_increase(change);
    put_row_start(
        alloc,
        out,
        "Change",
        change.stamp,
        change.trade,
        shares,
        change.price,
    )?;
    align_value(alloc, out, gain)?;
    align_shares(out, change.after)?;
    Ok(end_line(out)?)
}

fn put_lot_changes(
    alloc: Global,
    out: &mut Vec<u8>,
    price: Price,
    changes: &[PricedLotChange],
) -> Result<(), CallFault>
    ensures { OnOk result (out.new.items ≡ out.old.items ++ text_of_lines (lines.lot_change_lines price (map abstract_priced_lot_change changes.now))) }
{
    for change in changes {
        put_lot_change(alloc, out, price, change)?;
    }
    Ok(())
}

#[tactic(auto, unfolding(brk_model_explain::specs::HoldingLines::lot_remainder_line))]
fn put_remainder(alloc: Global, out: &mut Vec<u8>, lot: &LotDetails) -> Result<(), CallFault>
    ensures { OnOk result (out.new.items ≡ out.old.items ++ line_with_line_feed (lines.lot_remainder_line (abstract_lot_details lot.now))) }
{
    let price = completed_price(&lot.trade)?;
    let cost = remaining_cost_of_lot(lot)?;
    let left = i128::from(remaining_quantity(lot));
    put_undated_row_start(alloc, out, "Left", lot.trade.id, left, price)?;
    align_value(alloc, out, cost)?;
    Ok(end_line(out)?)
}

#[tactic(auto, unfolding(brk_model_explain::specs::HoldingLines::lot_history_lines))]
fn put_lot_history(alloc: Global, out: &mut Vec<u8>, lot: &LotDetails) -> Result<(), CallFault>
    ensures { OnOk result (out.new.items ≡ out.old.items ++ text_of_lines (lines.lot_history_lines (abstract_lot_details lot.now))) }
{
    let price = completed_price(&lot.trade)?;
    put_lot_opening(alloc, out, lot)?;
    put_lot_changes(alloc, out, price, &lot.changes)?;
    put_remainder(alloc, out, lot)
}

pub(crate) fn put_lot_histories(
    alloc: Global,
    out: &mut Vec<u8>,
    lots: &[LotDetails],
) -> Result<(), CallFault>
    ensures { OnOk result (out.new.items ≡ out.old.items ++ text_of_lines (flat_map lines.lot_history_lines (map abstract_lot_details lots.now))) }
{
    for lot in lots {
        put_lot_history(alloc, out, lot)?;
    }
    Ok(())
}
