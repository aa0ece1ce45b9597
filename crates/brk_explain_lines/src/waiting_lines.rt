//! The lines of a trade that is not completed. The functions fail with `Memory` only, and may then
//! have appended a part.

ghost use Rattle.std.specs.Prelude.{◌≡◌, ◌++◌, ◌∷◌, OnOk, codes, decimal};
ghost use Rattle.brk_model_explain.specs.Texts.{labeled_amount, labeled_text};
ghost use Rattle.brk_model_explain.specs.TradeLines as lines;
ghost use Rattle.brk_explain_rows.specs.Details.{abstract_order_details};
ghost use Rattle.brk_model.specs.Rows.{nonnegative_cents_text};
ghost use Rattle.brk_model.specs.Statement.{text_of_lines};
ghost use Rattle.brk_report_lines.specs.Written.{line_with_line_feed};

use brk_explain_columns::{
    end_line, put_amount_fact, put_label, put_labeled_amount, put_number_fact, put_numbered,
    put_spaced_line, put_text,
};
use brk_explain_rows::OrderDetails;
use brk_money::{Price, Status, TradeType, Wide, append_cents};
use brk_ref::TradeRow;
use std::alloc::{AllocError, Global};

fn charge_remark(status: Status) -> &'static str
    ensures { result.now ≡ lines.charge_remark status }
{
    match status {
        Status::Canceled => "never charged",
        Status::Completed | Status::Active | Status::Submitted | Status::Pending => "if completed",
    }
}

fn commission_remark(status: Status) -> &'static str
    ensures { result.now ≡ lines.commission_remark status }
{
    match status {
        Status::Canceled => "never charged",
        Status::Completed | Status::Active | Status::Submitted | Status::Pending => "estimated",
    }
}

fn put_priced_text(out: &mut Vec<u8>, words: &str, price: Price) -> Result<(), AllocError>
    ensures { OnOk result (out.new.items ≡ out.old.items ++ (words.now ++ nonnegative_cents_text price)) }
{
    put_text(out, words.as_bytes())?;
    append_cents(out, Wide::from(price))
}

// A market type has no trigger, so a pending trade of it waits for a cancel.
fn put_trigger(out: &mut Vec<u8>, kind: TradeType, price: Price) -> Result<(), AllocError>
    ensures { OnOk result (out.new.items ≡ out.old.items ++ lines.trigger_condition_text kind price) }
{
    match kind {
        TradeType::StopLoss | TradeType::LimitBuy => {
            put_priced_text(out, "a tick at or below ", price)
        }
        TradeType::LimitSell => put_priced_text(out, "a tick at or above ", price),
        TradeType::MarketBuy | TradeType::MarketSell => put_text(out, b"a cancel"),
    }
}

fn put_awaited(
    out: &mut Vec<u8>,
    status: Status,
    kind: TradeType,
    price: Price,
) -> Result<(), AllocError>
    ensures { OnOk result (out.new.items ≡ out.old.items ++ lines.awaited_event_text status kind price) }
{
    match status {
        Status::Pending => put_trigger(out, kind, price),
        Status::Submitted => put_text(out, b"a result"),
        Status::Completed | Status::Active | Status::Canceled => put_text(out, b"nothing"),
    }
}

#[tactic(auto, unfolding(brk_model_explain::specs::Texts::labeled_text))]
fn put_awaited_line(out: &mut Vec<u8>, trade: &TradeRow) -> Result<(), AllocError>
    ensures { OnOk result (out.new.items
        ≡ out.old.items ++ line_with_line_feed (labeled_text (codes "Waits for") (lines.awaited_event_text trade.now.status trade.now.kind trade.now.bid))) }
{
    put_label(out, "Waits for")?;
    put_awaited(out, trade.status, trade.kind, trade.bid)?;
    end_line(out)
}

fn put_remarked(
    alloc: Global,
    out: &mut Vec<u8>,
    label: &str,
    amount: Wide,
    words: &str,
) -> Result<(), AllocError>
    ensures { OnOk result (out.new.items ≡ out.old.items ++ line_with_line_feed (labeled_amount label.now amount ++ 32 ∷ words.now)) }
{
    put_labeled_amount(alloc, out, label, amount)?;
    put_spaced_line(out, words.as_bytes())
}

fn put_status_count(out: &mut Vec<u8>, count: usize) -> Result<(), AllocError>
    ensures { OnOk result (out.new.items ≡ out.old.items ++ line_with_line_feed (codes "Statuses " ++ decimal count)) }
{
    put_numbered(out, "Statuses ", count as u64)?;
    end_line(out)
}

/// Shares moved and cash moved are 0 until a trade is completed.
#[tactic(auto, unfolding(brk_model_explain::specs::TradeLines::uncompleted_trade_lines))]
pub(crate) fn put_uncompleted(
    alloc: Global,
    out: &mut Vec<u8>,
    order: &OrderDetails,
) -> Result<(), AllocError>
    ensures { OnOk result (out.new.items ≡ out.old.items ++ text_of_lines (lines.uncompleted_trade_lines (abstract_order_details order.now))) }
{
    let trade = &order.trade;
    let charge = Wide::new(i128::from(trade.charge.get()));
    put_remarked(alloc, out, "Charge", charge, charge_remark(trade.status))?;
    let commission = Wide::from(trade.commission);
    put_remarked(
        alloc,
        out,
        "Commission",
        commission,
        commission_remark(trade.status),
    )?;
    put_awaited_line(out, trade)?;
    put_number_fact(out, "Shares moved", 0)?;
    put_amount_fact(alloc, out, "Cash moved", Wide::new(0))?;
    put_status_count(out, order.statuses.len())
}
