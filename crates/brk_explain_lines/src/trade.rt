//! The text of the explanation of a trade. After an error a part of the lines may be appended.

ghost use Rattle.std.specs.Prelude.{◌≡◌, ◌++◌, IfOk, OnOk, option_map};
ghost use Rattle.brk_model_explain.specs.TradeLines as lines;
ghost use Rattle.brk_explain_rows.specs.Details.{abstract_order_details, abstract_result_details, abstract_trade_details};
ghost use Rattle.brk_model.specs.Statement.{text_of_lines};

use crate::balance_lines::{put_balance, put_trade_end};
use crate::lots_lines::put_lots_with_gain;
use crate::order_lines::put_order_lines;
use crate::settlement_lines::{put_due_days, put_settlement};
use crate::tax_lines::{put_commission, put_tax_lines};
use crate::waiting_lines::put_uncompleted;
use brk_explain_rows::{OrderDetails, ResultDetails, TradeDetails};
use brk_money::CallFault;
use std::alloc::Global;

#[tactic(auto, unfolding(brk_model_explain::specs::TradeLines::completed_trade_lines))]
fn put_completed(
    alloc: Global,
    out: &mut Vec<u8>,
    order: &OrderDetails,
    details: &ResultDetails,
) -> Result<(), CallFault>
    ensures { OnOk result (out.new.items
        ≡ out.old.items ++ text_of_lines (lines.completed_trade_lines (abstract_order_details order.now) (abstract_result_details details.now))) }
{
    put_lots_with_gain(alloc, out, order, details)?;
    put_tax_lines(alloc, out, order, details)?;
    put_commission(alloc, out, order, details)?;
    put_settlement(alloc, out, order, details)?;
    put_due_days(out, order, details)?;
    put_balance(alloc, out, order, details)?;
    Ok(put_trade_end(out, order, details)?)
}

#[tactic(auto, unfolding(brk_model_explain::specs::TradeLines::lines_after_statuses))]
fn put_lines_after_statuses(
    alloc: Global,
    out: &mut Vec<u8>,
    order: &OrderDetails,
    details: &Option<ResultDetails>,
) -> Result<(), CallFault>
    ensures { OnOk result (out.new.items
        ≡ out.old.items ++ text_of_lines (lines.lines_after_statuses (abstract_order_details order.now) (option_map abstract_result_details details.now))) }
{
    match details {
        Some(details) => put_completed(alloc, out, order, details),
        None => Ok(put_uncompleted(alloc, out, order)?),
    }
}

/// Returns all lines of the explanation of a trade. Fails with `Store` if an amount or a number of
/// shares exceeds its limit, or if the tax rates total more than the greatest rate.
#[tactic(auto, unfolding(brk_model_explain::specs::TradeLines::trade_explanation_lines))]
pub fn trade_explanation_text(alloc: Global, details: &TradeDetails) -> Result<Vec<u8>, CallFault>
    ensures { IfOk result (λ text. text.items ≡ text_of_lines (lines.trade_explanation_lines (abstract_trade_details details.now))) }
{
    let mut text = Vec::new(alloc);
    put_order_lines(alloc, &mut text, &details.order)?;
    put_lines_after_statuses(alloc, &mut text, &details.order, &details.result)?;
    Ok(text)
}
