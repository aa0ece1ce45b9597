//! The lines of the price of a completed trade, of the lots that it closed and opened, and of its
//! gain. After an error a part of them may be appended; a sum that overflows is the fault `Store`.

ghost use Rattle.std.specs.Prelude.{◌≡◌, ◌++◌, OnOk, map, nat_abs, option_map};
ghost use Rattle.brk_ref.specs.Rows.{abstract_lot_change_row, abstract_trade_row};
ghost use Rattle.brk_model_explain.specs.TradeLines as lines;
ghost use Rattle.brk_model_explain.specs.Trades as trades;
ghost use Rattle.brk_explain_rows.specs.Details.{abstract_closing, abstract_order_details, abstract_result_details};
ghost use Rattle.brk_model.specs.Statement.{text_of_lines};
ghost use Rattle.brk_report_lines.specs.Written.{line_with_line_feed};

use crate::amounts::{
    buy_value_of_closing, buy_value_of_closings, sell_value_of_closing, sell_value_of_closings,
    shares_of_closing, total_closed_shares,
};
use brk_explain_columns::{
    align_shares, align_value, end_line, put_amount_fact, put_number_fact, put_row_start,
    put_text_line, subtract_amounts, wide_of_u128,
};
use brk_explain_rows::{Closing, OrderDetails, ResultDetails};
use brk_money::{CallFault, Price, Side, Wide};
use brk_ref::{LotChange, TradeRow};
use std::alloc::{AllocError, Global};

// Writes the line of the price, and the column headings of the lots.
#[tactic(auto, unfolding(brk_model_explain::specs::TradeLines::price_and_lot_header_lines))]
fn put_close_head(
    alloc: Global,
    out: &mut Vec<u8>,
    details: &ResultDetails,
) -> Result<(), AllocError>
    ensures { OnOk result (out.new.items ≡ out.old.items ++ text_of_lines (lines.price_and_lot_header_lines (abstract_result_details details.now))) }
{
    put_amount_fact(alloc, out, "Price", Wide::from(details.price))?;
    put_text_line(
        out,
        b"#      opened                            lot      shares      price       bought for         sold for        left",
    )
}

// `side` and `price` belong to the trade; the line shows the price of the lot.
#[tactic(auto, unfolding(brk_model_explain::specs::TradeLines::lot_closing_line))]
fn put_closing(
    alloc: Global,
    out: &mut Vec<u8>,
    side: Side,
    price: Price,
    closing: &Closing,
) -> Result<(), CallFault>
    ensures { OnOk result (out.new.items ≡ out.old.items ++ line_with_line_feed (lines.lot_closing_line side price (abstract_closing closing.now))) }
{
    let bought = wide_of_u128(buy_value_of_closing(side, price, closing))?;
    let sold = wide_of_u128(sell_value_of_closing(side, price, closing))?;
    let shares = i128::from(shares_of_closing(closing));
    put_row_start(
        alloc,
        out,
        "Closed",
        closing.stamp,
        closing.lot,
        shares,
        closing.price,
    )?;
    align_value(alloc, out, bought)?;
    align_value(alloc, out, sold)?;
    align_shares(out, closing.after)?;
    Ok(end_line(out)?)
}

fn put_closings(
    alloc: Global,
    out: &mut Vec<u8>,
    side: Side,
    price: Price,
    closings: &[Closing],
) -> Result<(), CallFault>
    ensures { OnOk result (out.new.items ≡ out.old.items ++ text_of_lines (map (lines.lot_closing_line side price) (map abstract_closing closings.now))) }
{
    for closing in closings {
        put_closing(alloc, out, side, price, closing)?;
    }
    Ok(())
}

#[tactic(auto, unfolding(brk_model_explain::specs::TradeLines::opened_lot_line))]
fn put_opened_line(
    alloc: Global,
    out: &mut Vec<u8>,
    trade: &TradeRow,
    price: Price,
    lot: &LotChange,
) -> Result<(), AllocError>
    ensures { OnOk result (out.new.items
        ≡ out.old.items ++ line_with_line_feed (lines.opened_lot_line (abstract_trade_row trade.now) price (abstract_lot_change_row lot.now))) }
{
    let shares = i128::from(lot.after);
    put_row_start(alloc, out, "Opened", trade.stamp, trade.id, shares, price)?;
    end_line(out)
}

// Writes no line if the trade opened no lot.
#[tactic(auto, unfolding(brk_model_explain::specs::TradeLines::opened_lot_lines))]
fn put_opened_lot(
    alloc: Global,
    out: &mut Vec<u8>,
    trade: &TradeRow,
    price: Price,
    lot: &Option<LotChange>,
) -> Result<(), AllocError>
    ensures { OnOk result (out.new.items
        ≡ out.old.items ++ text_of_lines (lines.opened_lot_lines (abstract_trade_row trade.now) price (option_map abstract_lot_change_row lot.now))) }
{
    match lot {
        Some(lot) => put_opened_line(alloc, out, trade, price, lot),
        None => Ok(()),
    }
}

fn opened_shares(details: &ResultDetails) -> u64
    ensures { result ≡ nat_abs (trades.opened_quantity (abstract_result_details details.now)) }
{
    match &details.own_lot {
        Some(lot) => lot.after.unsigned_abs(),
        None => 0,
    }
}

#[tactic(auto, unfolding(brk_model_explain::specs::TradeLines::share_count_lines))]
fn put_share_lines(out: &mut Vec<u8>, details: &ResultDetails) -> Result<(), CallFault>
    ensures { OnOk result (out.new.items ≡ out.old.items ++ text_of_lines (lines.share_count_lines (abstract_result_details details.now))) }
{
    let closed = total_closed_shares(&details.closings)?;
    put_number_fact(out, "Shares closed", closed)?;
    Ok(put_number_fact(out, "Shares opened", opened_shares(details))?)
}

#[tactic(auto, unfolding(brk_model_explain::specs::TradeLines::realised_gain_lines))]
fn put_gain_lines(
    alloc: Global,
    out: &mut Vec<u8>,
    order: &OrderDetails,
    details: &ResultDetails,
) -> Result<(), CallFault>
    ensures { OnOk result (out.new.items
        ≡ out.old.items ++ text_of_lines (lines.realised_gain_lines (abstract_order_details order.now) (abstract_result_details details.now))) }
{
    let side = order.trade.kind.side();
    let bought = buy_value_of_closings(side, details.price, &details.closings)?;
    let sold = sell_value_of_closings(side, details.price, &details.closings)?;
    let gain = subtract_amounts(sold, bought)?;
    put_amount_fact(alloc, out, "BUY", bought)?;
    put_amount_fact(alloc, out, "SELL", sold)?;
    Ok(put_amount_fact(alloc, out, "Realised gain", gain)?)
}

#[tactic(auto, unfolding(brk_model_explain::specs::TradeLines::lot_and_gain_lines, brk_model_explain::specs::TradeLines::lot_closing_lines))]
pub(crate) fn put_lots_with_gain(
    alloc: Global,
    out: &mut Vec<u8>,
    order: &OrderDetails,
    details: &ResultDetails,
) -> Result<(), CallFault>
    ensures { OnOk result (out.new.items
        ≡ out.old.items ++ text_of_lines (lines.lot_and_gain_lines (abstract_order_details order.now) (abstract_result_details details.now))) }
{
    let side = order.trade.kind.side();
    put_close_head(alloc, out, details)?;
    put_closings(alloc, out, side, details.price, &details.closings)?;
    put_opened_lot(alloc, out, &order.trade, details.price, &details.own_lot)?;
    put_share_lines(out, details)?;
    put_gain_lines(alloc, out, order, details)
}
