//! The lines of the balance before and after a completed trade, and its last line. After an error a
//! part of them may be appended.

ghost use Rattle.std.specs.Prelude.{◌≡◌, ◌++◌, OnOk, option_map};
ghost use Rattle.brk_ref.specs.Rows.{abstract_cash_row};
ghost use Rattle.brk_model_explain.specs.TradeLines as lines;
ghost use Rattle.brk_explain_rows.specs.Details.{abstract_order_details, abstract_result_details};
ghost use Rattle.brk_model.specs.Statement.{text_of_lines};
ghost use Rattle.brk_report_lines.specs.Written.{line_with_line_feed};

use crate::amounts::balance_change_of_trade;
use brk_explain_columns::{
    add_amounts, end_line, put_amount_fact, put_labeled_number, put_numbered, put_spaced_line,
    put_value_fact,
};
use brk_explain_rows::{OrderDetails, ResultDetails};
use brk_money::{CallFault, Wide};
use brk_ref::CashRow;
use std::alloc::{AllocError, Global};

#[tactic(auto, unfolding(brk_model_explain::specs::TradeLines::trade_cash_row_line))]
fn put_cash_row(out: &mut Vec<u8>, row: &Option<CashRow>) -> Result<(), AllocError>
    ensures { OnOk result (out.new.items ≡ out.old.items ++ line_with_line_feed (lines.trade_cash_row_line (option_map abstract_cash_row row.now))) }
{
    let Some(row) = row else {
        return put_value_fact(out, "Cash row", b"none");
    };
    put_labeled_number(out, "Cash row", row.id.get())?;
    put_spaced_line(out, row.name.as_bytes())
}

/// Writes also the cash row of the trade. Writes `none` and 0.00 for a trade without one.
#[tactic(auto, unfolding(brk_model_explain::specs::TradeLines::trade_balance_lines))]
pub(crate) fn put_balance(
    alloc: Global,
    out: &mut Vec<u8>,
    order: &OrderDetails,
    details: &ResultDetails,
) -> Result<(), CallFault>
    ensures { OnOk result (out.new.items
        ≡ out.old.items ++ text_of_lines (lines.trade_balance_lines (abstract_order_details order.now) (abstract_result_details details.now))) }
{
    let opening = Wide::from(order.account.account.opening);
    let moved = balance_change_of_trade(details);
    let before = add_amounts(opening, details.cash_before)?;
    let after = add_amounts(before, moved)?;
    put_cash_row(out, &details.cash)?;
    put_amount_fact(alloc, out, "Opening", opening)?;
    put_amount_fact(alloc, out, "Cash before", details.cash_before)?;
    put_amount_fact(alloc, out, "Balance before", before)?;
    put_amount_fact(alloc, out, "Cash moved", moved)?;
    put_amount_fact(alloc, out, "Balance after", after)?;
    Ok(())
}

// Counts the lots of which the trade closed shares, and the cash rows before it.
fn put_trade_counts(
    out: &mut Vec<u8>,
    statuses: usize,
    lots: usize,
    cash: u64,
) -> Result<(), AllocError>
    ensures { OnOk result (out.new.items ≡ out.old.items ++ line_with_line_feed (lines.counts_line_of_trade statuses lots cash)) }
{
    put_numbered(out, "Statuses ", statuses as u64)?;
    put_numbered(out, ", lots closed ", lots as u64)?;
    put_numbered(out, ", cash rows before ", cash)?;
    end_line(out)
}

#[tactic(auto, unfolding(brk_model_explain::specs::TradeLines::counts_lines_of_trade))]
pub(crate) fn put_trade_end(
    out: &mut Vec<u8>,
    order: &OrderDetails,
    details: &ResultDetails,
) -> Result<(), AllocError>
    ensures { OnOk result (out.new.items
        ≡ out.old.items ++ text_of_lines (lines.counts_lines_of_trade (abstract_order_details order.now) (abstract_result_details details.now))) }
{
    put_trade_counts(
        out,
        order.statuses.len(),
        details.closings.len(),
        details.cash_rows,
    )
}
