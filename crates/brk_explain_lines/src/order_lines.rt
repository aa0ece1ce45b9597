//! The lines of a trade as ordered, and of its status changes. The functions fail with `Memory`
//! only, and may then have appended a part.

ghost use Rattle.std.specs.Prelude.{◌≡◌, ◌++◌, OnOk, map};
ghost use Rattle.brk_ref.specs.Rows.{abstract_history_row};
ghost use Rattle.brk_model_explain.specs.TradeLines as lines;
ghost use Rattle.brk_explain_rows.specs.Details.{abstract_order_details};
ghost use Rattle.brk_model.specs.Statement.{text_of_lines};
ghost use Rattle.brk_report_lines.specs.Written.{line_with_line_feed};

use brk_explain_columns::{
    put_amount_fact, put_dated_word, put_label, put_labeled_number, put_labeled_text,
    put_number_fact, put_spaced_line, put_spaced_text, put_text_fact, put_title_line,
};
use brk_explain_rows::OrderDetails;
use brk_money::Wide;
use brk_ref::{HistoryRow, cash_or_margin_word};
use brk_report_lines::append_left_aligned;
use std::alloc::{AllocError, Global};

#[tactic(auto, unfolding(brk_model_explain::specs::TradeLines::status_change_line))]
fn put_status_line(out: &mut Vec<u8>, row: &HistoryRow) -> Result<(), AllocError>
    ensures { OnOk result (out.new.items ≡ out.old.items ++ line_with_line_feed (lines.status_change_line (abstract_history_row row.now))) }
{
    put_dated_word(out, "Status", row.stamp)?;
    put_spaced_text(out, row.status.code().as_bytes())?;
    put_spaced_line(out, row.status.name().as_bytes())
}

fn put_statuses(out: &mut Vec<u8>, rows: &[HistoryRow]) -> Result<(), AllocError>
    ensures { OnOk result (out.new.items ≡ out.old.items ++ text_of_lines (map lines.status_change_line (map abstract_history_row rows.now))) }
{
    for row in rows {
        put_status_line(out, row)?;
    }
    Ok(())
}

fn put_account(out: &mut Vec<u8>, order: &OrderDetails) -> Result<(), AllocError>
    ensures { OnOk result (out.new.items ≡ out.old.items ++ line_with_line_feed (lines.trade_account_line (abstract_order_details order.now))) }
{
    put_labeled_number(out, "Account", order.trade.account.get())?;
    put_spaced_line(out, order.account.account.name.as_str().as_bytes())
}

#[tactic(auto, unfolding(brk_model_explain::specs::TradeLines::title_and_party_lines))]
fn put_title_with_parties(out: &mut Vec<u8>, order: &OrderDetails) -> Result<(), AllocError>
    ensures { OnOk result (out.new.items ≡ out.old.items ++ text_of_lines (lines.title_and_party_lines (abstract_order_details order.now))) }
{
    let account = &order.account.account;
    put_title_line(out, "Trade ", order.trade.id)?;
    put_account(out, order)?;
    put_number_fact(out, "Customer", account.customer.get())?;
    put_number_fact(out, "Broker", account.broker.get())?;
    put_text_fact(out, "Executor", order.trade.executor.as_bytes())?;
    Ok(())
}

fn put_trade_type(out: &mut Vec<u8>, order: &OrderDetails) -> Result<(), AllocError>
    ensures { OnOk result (out.new.items ≡ out.old.items ++ line_with_line_feed (lines.trade_type_line (abstract_order_details order.now))) }
{
    put_labeled_text(out, "Type", order.trade.kind.code().as_bytes())?;
    put_spaced_line(out, order.trade.kind.name().as_bytes())
}

#[tactic(auto, unfolding(brk_model_explain::specs::Texts::labeled_text))]
fn put_security(out: &mut Vec<u8>, order: &OrderDetails) -> Result<(), AllocError>
    ensures { OnOk result (out.new.items ≡ out.old.items ++ line_with_line_feed (lines.trade_security_line (abstract_order_details order.now))) }
{
    put_label(out, "Security")?;
    append_left_aligned(out, 15, order.trade.symbol.as_str().as_bytes())?;
    put_spaced_line(out, order.security.name.as_str().as_bytes())
}

fn closing_order_text(is_lifo: bool) -> &'static str
    ensures { result.now ≡ lines.closing_order_text is_lifo }
{
    if is_lifo {
        "last in first out"
    } else {
        "first in first out"
    }
}

#[tactic(auto, unfolding(brk_model_explain::specs::TradeLines::order_terms_lines))]
fn put_order_terms(alloc: Global, out: &mut Vec<u8>, order: &OrderDetails) -> Result<(), AllocError>
    ensures { OnOk result (out.new.items ≡ out.old.items ++ text_of_lines (lines.order_terms_lines (abstract_order_details order.now))) }
{
    let trade = &order.trade;
    put_trade_type(out, order)?;
    put_security(out, order)?;
    put_number_fact(out, "Shares", u64::from(trade.qty.get()))?;
    put_amount_fact(alloc, out, "Price asked", Wide::from(trade.bid))?;
    put_text_fact(
        out,
        "Settles by",
        cash_or_margin_word(trade.is_cash).as_bytes(),
    )?;
    put_text_fact(out, "Closes", closing_order_text(trade.is_lifo).as_bytes())?;
    Ok(())
}

#[tactic(auto, unfolding(brk_model_explain::specs::TradeLines::order_and_status_lines))]
pub(crate) fn put_order_lines(
    alloc: Global,
    out: &mut Vec<u8>,
    order: &OrderDetails,
) -> Result<(), AllocError>
    ensures { OnOk result (out.new.items ≡ out.old.items ++ text_of_lines (lines.order_and_status_lines (abstract_order_details order.now))) }
{
    put_title_with_parties(out, order)?;
    put_order_terms(alloc, out, order)?;
    put_statuses(out, &order.statuses)
}
