//! The lines of the settlement of a completed trade. The functions fail with `Memory` only, and may
//! then have appended a part.

ghost use Rattle.std.specs.Prelude.{◌≡◌, ◌++◌, OnOk, codes};
ghost use Rattle.std.specs.Option.{option_map_or};
ghost use Rattle.brk_model_explain.specs.Texts.{labeled_text};
ghost use Rattle.brk_model_explain.specs.TradeLines as lines;
ghost use Rattle.brk_explain_rows.specs.Details.{abstract_order_details, abstract_result_details};
ghost use Rattle.brk_model.specs.Statement.{text_of_lines};
ghost use Rattle.brk_money.specs.Spelling.{day_text};
ghost use Rattle.brk_report_lines.specs.Written.{line_with_line_feed};

use crate::amounts::{
    negated_charge, negated_commission, negated_withheld_tax, signed_trade_value,
};
use brk_explain_columns::{put_amount_fact, put_day_fact, put_number_fact, put_text_fact};
use brk_explain_rows::{OrderDetails, ResultDetails};
use brk_money::{Day, Wide, day_of};
use brk_trade_rows::days_to_settlement;
use std::alloc::{AllocError, Global};

/// Negates the amounts that the account pays. The settlement amount is the recorded one.
#[tactic(auto, unfolding(brk_model_explain::specs::TradeLines::trade_settlement_lines))]
pub(crate) fn put_settlement(
    alloc: Global,
    out: &mut Vec<u8>,
    order: &OrderDetails,
    details: &ResultDetails,
) -> Result<(), AllocError>
    ensures { OnOk result (out.new.items
        ≡ out.old.items ++ text_of_lines (lines.trade_settlement_lines (abstract_order_details order.now) (abstract_result_details details.now))) }
{
    put_amount_fact(alloc, out, "Value", signed_trade_value(order, details))?;
    put_amount_fact(alloc, out, "Charge", negated_charge(order))?;
    put_amount_fact(alloc, out, "Commission", negated_commission(order))?;
    put_amount_fact(alloc, out, "Tax withheld", negated_withheld_tax(order))?;
    put_amount_fact(
        alloc,
        out,
        "Settlement",
        Wide::from(details.settlement.amount),
    )?;
    put_text_fact(
        out,
        "Cash type",
        details.settlement.cash_type.text().as_bytes(),
    )?;
    Ok(())
}

fn put_optional_day(out: &mut Vec<u8>, label: &str, day: Option<Day>) -> Result<(), AllocError>
    ensures { OnOk result (out.new.items ≡ out.old.items ++ line_with_line_feed (labeled_text label.now (option_map_or day_text day (codes "none")))) }
{
    match day {
        Some(day) => put_day_fact(out, label, day),
        None => put_text_fact(out, label, b"none"),
    }
}

/// The number of days follows from the current start of one-day settlement; the due day is the
/// recorded one.
#[tactic(auto, unfolding(brk_model_explain::specs::TradeLines::due_day_lines))]
pub(crate) fn put_due_days(
    out: &mut Vec<u8>,
    order: &OrderDetails,
    details: &ResultDetails,
) -> Result<(), AllocError>
    ensures { OnOk result (out.new.items
        ≡ out.old.items ++ text_of_lines (lines.due_day_lines (abstract_order_details order.now) (abstract_result_details details.now))) }
{
    let completed = day_of(order.trade.stamp);
    let days = days_to_settlement(details.rule, completed);
    put_day_fact(out, "Completed on", completed)?;
    put_optional_day(out, "One day from", details.rule)?;
    put_number_fact(out, "Days to settle", u64::from(days))?;
    put_day_fact(out, "Due on", details.settlement.due_day)
}
