//! The lines of replies, and the text of a day, which rows contain too.
#![tactic(auto, unfolding(brk_model::specs::Rows::reply_fields))]

ghost use Rattle.std.specs.Prelude.{◌≡◌, ◌∷◌, ◌++◌, [], IfOk, OnOk, OnErr, Err, decimal, drop, string_bytes, take};
ghost use Rattle.brk_model.specs.Commands as replies;
ghost use Rattle.brk_model.specs.Rows as model;
ghost use Rattle.brk_desk_commands.specs.Fields.{fields_after_separators};
ghost use Rattle.brk_money.specs.Kinds.{trade_status_code};
ghost use Rattle.brk_money.specs.Spelling as spelling;
ghost use Rattle.brk_money.specs.declared.fault.Fault.TheVariants.{Memory};
ghost use Rattle.brk_trade_plans.specs.Replies.{abstract_completion, abstract_estimate, abstract_reply};

use brk_money::{Cents, Day, Fault, Id, MoveId, Stamp};
use brk_trade_plans::{Completed, Estimate, Ordered, Reply};
use itoa::Buffer;
use std::alloc::{AllocError, Global};

// Also begins the lines of `Ticked` and `Completed`.
fn booked_line(alloc: Global, stamp: Stamp) -> Result<String, AllocError>
    ensures { IfOk result (λ line. string_bytes line ≡ model.line_text (replies.Booked stamp)) }
{
    let mut digits = Buffer::new();
    String::from_str(alloc, digits.format(stamp.get().unsigned_abs()))
}

fn append_estimate(line: &mut String, estimate: &Estimate) -> Result<(), AllocError>
    ensures { OnOk result (string_bytes line.new
        ≡ string_bytes line.old ++ fields_after_separators 44 (model.estimate_fields (abstract_estimate estimate.now))) }
{
    write!(
        line,
        ",{},{},{},{},{},{},{}",
        estimate.price,
        estimate.buy_value,
        estimate.sell_value,
        estimate.tax,
        estimate.commission,
        estimate.charge,
        estimate.assets
    )
}

// Stamp, trade id and status, which begin the line of an accepted order.
fn ordered_line_start(alloc: Global, ordered: &Ordered) -> Result<String, AllocError>
    ensures { IfOk result (λ line. string_bytes line
        ≡ model.comma_separated_text (decimal ordered.now.stamp ∷ decimal ordered.now.trade ∷ trade_status_code ordered.now.status ∷ [])) }
{
    format!(in alloc;
        "{},{},{}",
        ordered.stamp.get().unsigned_abs(),
        ordered.trade.get(),
        ordered.status.code()
    )
}

fn ordered_line(alloc: Global, ordered: &Ordered) -> Result<String, AllocError>
    ensures { IfOk result (λ line. string_bytes line
        ≡ model.line_text (replies.Ordered ordered.now.stamp ordered.now.trade ordered.now.status (abstract_estimate ordered.now.estimate))) }
{
    let mut line = ordered_line_start(alloc, ordered)?;
    append_estimate(&mut line, &ordered.estimate)?;
    Ok(line)
}

fn append_trade_id(line: &mut String, trade: Id) -> Result<(), AllocError>
    ensures { OnOk result (string_bytes line.new ≡ string_bytes line.old ++ (44 ∷ decimal trade)) }
{
    write!(line, ",{}", trade.get())
}

fn ticked_line(alloc: Global, stamp: Stamp, triggered: &[Id]) -> Result<String, AllocError>
    ensures { IfOk result (λ line. string_bytes line ≡ model.line_text (replies.Ticked stamp triggered.now)) }
{
    let mut line = booked_line(alloc, stamp)?;
    for trade in triggered {
        append_trade_id(&mut line, *trade)?;
    }
    Ok(line)
}

fn canceled_line(alloc: Global, stamp: Stamp) -> Result<String, AllocError>
    ensures { IfOk result (λ line. string_bytes line ≡ model.line_text (replies.CanceledTrade stamp)) }
{
    format!(in alloc; "{},CNCL", stamp.get().unsigned_abs())
}

/// Returns the text of a day, such as `2024-03-01`.
pub fn day_text(alloc: Global, day: Day) -> Result<String, AllocError>
    ensures { IfOk result (λ text. string_bytes text ≡ spelling.day_text day) }
{
    // The value is not needed: the call shows that the day is at most the greatest day.
    let _days = day.get();
    let mut bytes = Vec::new(alloc);
    brk_money::append_day(&mut bytes, day)?;
    let text = String::from_utf8(bytes).unwrap();
    Ok(text)
}

// The fields are the commission, the tax and the settlement amount.
fn append_amounts(line: &mut String, completed: &Completed) -> Result<(), AllocError>
    ensures { OnOk result (string_bytes line.new
        ≡ string_bytes line.old ++ fields_after_separators 44 (take 3 (model.completion_fields (abstract_completion completed.now)))) }
{
    write!(
        line,
        ",{},{},{}",
        completed.commission, completed.tax, completed.amount
    )
}

fn append_day(line: &mut String, day: &str) -> Result<(), AllocError>
    ensures { OnOk result (string_bytes line.new ≡ string_bytes line.old ++ fields_after_separators 44 (day.now ∷ [])) }
{
    write!(line, ",{day}")
}

// The fields are the buy and the sell value of the closed shares, and the balance.
fn append_closing_with_balance(line: &mut String, completed: &Completed) -> Result<(), AllocError>
    ensures { OnOk result (string_bytes line.new
        ≡ string_bytes line.old ++ fields_after_separators 44 (drop 4 (model.completion_fields (abstract_completion completed.now)))) }
{
    write!(
        line,
        ",{},{},{}",
        completed.buy_value, completed.sell_value, completed.balance
    )
}

fn completed_line(alloc: Global, completed: &Completed) -> Result<String, AllocError>
    ensures { IfOk result (λ line. string_bytes line ≡ model.line_text (replies.CompletedTrade completed.now.stamp (abstract_completion completed.now))) }
{
    let due_day = day_text(alloc, completed.due_day)?;
    let mut line = booked_line(alloc, completed.stamp)?;
    append_amounts(&mut line, completed)?;
    append_day(&mut line, due_day.as_str())?;
    append_closing_with_balance(&mut line, completed)?;
    Ok(line)
}

fn changed_line(alloc: Global, stamp: Stamp, count: usize) -> Result<String, AllocError>
    ensures { IfOk result (λ line. string_bytes line ≡ model.line_text (replies.Changed stamp count)) }
{
    format!(in alloc; "{},{count}", stamp.get().unsigned_abs())
}

fn moved_line(
    alloc: Global,
    stamp: Stamp,
    number: MoveId,
    balance: Cents,
) -> Result<String, AllocError>
    ensures { IfOk result (λ line. string_bytes line ≡ model.line_text (replies.MovedCash stamp number balance)) }
{
    format!(in alloc;
        "{},{},{}",
        stamp.get().unsigned_abs(),
        number.get(),
        balance
    )
}

fn estimate_price_text(alloc: Global, figures: &Estimate) -> Result<String, AllocError>
    ensures { IfOk result (λ line. string_bytes line ≡ model.comma_separated_text (model.nonnegative_cents_text figures.now.price ∷ [])) }
{
    format!(in alloc; "{}", figures.price)
}

fn append_estimate_after_price(line: &mut String, figures: &Estimate) -> Result<(), AllocError>
    ensures { OnOk result (string_bytes line.new
        ≡ string_bytes line.old ++ fields_after_separators 44 (drop 1 (model.estimate_fields (abstract_estimate figures.now)))) }
{
    write!(
        line,
        ",{},{},{},{},{},{}",
        figures.buy_value,
        figures.sell_value,
        figures.tax,
        figures.commission,
        figures.charge,
        figures.assets
    )
}

fn estimated_line(alloc: Global, figures: &Estimate) -> Result<String, AllocError>
    ensures { IfOk result (λ line. string_bytes line ≡ model.line_text (replies.Estimated (abstract_estimate figures.now))) }
{
    let mut line = estimate_price_text(alloc, figures)?;
    append_estimate_after_price(&mut line, figures)?;
    Ok(line)
}

/// `line_text` for a caller that returns an allocation error.
pub fn line_of_reply(alloc: Global, reply: &Reply) -> Result<String, AllocError>
    ensures { IfOk result (λ line. string_bytes line ≡ model.line_text (abstract_reply reply.now)) }
{
    match reply {
        Reply::Booked(stamp) => booked_line(alloc, *stamp),
        Reply::Ordered(ordered) => ordered_line(alloc, ordered),
        Reply::Ticked(stamp, triggered) => ticked_line(alloc, *stamp, triggered),
        Reply::Canceled(stamp) => canceled_line(alloc, *stamp),
        Reply::Completed(completed) => completed_line(alloc, completed),
        Reply::Changed(stamp, count) => changed_line(alloc, *stamp, *count),
        Reply::Moved {
            stamp,
            number,
            balance,
        } => moved_line(alloc, *stamp, *number, *balance),
        Reply::Estimated(estimate) => estimated_line(alloc, estimate),
    }
}

/// Returns the line of a reply, as it is stored under an idempotency key: the stamp, in
/// milliseconds since 1970-01-01 UTC, and the other fields, joined by commas. Amounts are texts
/// such as `10.00`.
pub fn line_text(alloc: Global, reply: &Reply) -> Result<String, Fault>
    ensures line { IfOk result (λ line. string_bytes line ≡ model.line_text (abstract_reply reply.now)) }
    ensures fault { OnErr result (result ≡ Err Memory) }
{
    Ok(line_of_reply(alloc, reply)?)
}
