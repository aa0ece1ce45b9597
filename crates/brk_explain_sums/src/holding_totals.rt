//! The totals of a holding, and the last line of its explanation. After an error a part of the
//! lines may be appended.

ghost use Rattle.std.specs.Prelude.{◌≡◌, ◌++◌, OnOk, map};
ghost use Rattle.brk_ref.specs.Rows.{abstract_trade_row};
ghost use Rattle.brk_model_explain.specs.HoldingLines as lines;
ghost use Rattle.brk_explain_rows.specs.Details.{abstract_lot_details};
ghost use Rattle.brk_model.specs.Statement.{text_of_lines};
ghost use Rattle.brk_report_lines.specs.Written.{line_with_line_feed};

use crate::holding_lots::{
    count_of_lot_changes, count_open_lots, realised_gain_of_lots, remaining_cost_of_lots,
};
use crate::trades::{negated_total_sale_value, total_purchase_value};
use brk_explain_columns::{
    end_line, put_amount_fact, put_numbered, put_signed_fact, shares_value, subtract_amounts,
};
use brk_explain_rows::LotDetails;
use brk_money::{CallFault, Price, Wide};
use brk_ref::TradeRow;
use std::alloc::{AllocError, Global};

// `sold` is the total of the sales, negated.
#[tactic(auto, unfolding(brk_model_explain::specs::HoldingLines::purchase_sale_gain_and_cost_lines))]
fn put_trade_totals(
    alloc: Global,
    out: &mut Vec<u8>,
    bought: Wide,
    sold: Wide,
    gain: Wide,
    cost: Wide,
) -> Result<(), AllocError>
    ensures { OnOk result (out.new.items ≡ out.old.items ++ text_of_lines (lines.purchase_sale_gain_and_cost_lines bought sold gain cost)) }
{
    put_amount_fact(alloc, out, "Purchases", bought)?;
    put_amount_fact(alloc, out, "Sales", sold)?;
    put_amount_fact(alloc, out, "Realised gain", gain)?;
    put_amount_fact(alloc, out, "Cost basis", cost)
}

// Writes also the shares and the last price. The unrealised gain is the worth minus `cost`, the
// cost basis.
#[tactic(auto, unfolding(brk_model_explain::specs::HoldingLines::holding_value_lines))]
fn put_worth(
    alloc: Global,
    out: &mut Vec<u8>,
    shares: i64,
    price: Price,
    cost: Wide,
) -> Result<(), CallFault>
    ensures { OnOk result (out.new.items ≡ out.old.items ++ text_of_lines (lines.holding_value_lines shares price cost)) }
{
    let worth = shares_value(shares, price)?;
    let gain = subtract_amounts(worth, cost)?;
    put_signed_fact(out, "Shares", shares)?;
    put_amount_fact(alloc, out, "Last price", Wide::from(price))?;
    put_amount_fact(alloc, out, "Worth", worth)?;
    Ok(put_amount_fact(alloc, out, "Unrealised gain", gain)?)
}

// Writes the numbers of trades, lots, open lots and changes.
fn put_holding_counts(
    out: &mut Vec<u8>,
    trades: usize,
    lots: usize,
    open_lots: u64,
    changes: u64,
) -> Result<(), AllocError>
    ensures { OnOk result (out.new.items ≡ out.old.items ++ line_with_line_feed (lines.holding_counts_line trades lots open_lots changes)) }
{
    put_numbered(out, "Trades ", trades as u64)?;
    put_numbered(out, ", lots ", lots as u64)?;
    put_numbered(out, ", open lots ", open_lots)?;
    put_numbered(out, ", changes ", changes)?;
    end_line(out)
}

#[tactic(auto, unfolding(brk_model_explain::specs::HoldingLines::holding_total_lines))]
pub(crate) fn put_holding_end(
    alloc: Global,
    out: &mut Vec<u8>,
    done: &[TradeRow],
    lots: &[LotDetails],
    shares: i64,
    price: Price,
) -> Result<(), CallFault>
    ensures { OnOk result (out.new.items
        ≡ out.old.items ++ text_of_lines (lines.holding_total_lines (map abstract_trade_row done.now) (map abstract_lot_details lots.now) shares price)) }
{
    let bought = total_purchase_value(done)?;
    let sold = negated_total_sale_value(done)?;
    let gain = realised_gain_of_lots(lots)?;
    let cost = remaining_cost_of_lots(lots)?;
    let open_lots = count_open_lots(lots)?;
    let changes = count_of_lot_changes(lots)?;
    put_trade_totals(alloc, out, bought, sold, gain, cost)?;
    put_worth(alloc, out, shares, price, cost)?;
    put_holding_counts(out, done.len(), lots.len(), open_lots, changes)?;
    Ok(())
}
