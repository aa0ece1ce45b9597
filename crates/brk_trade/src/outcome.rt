//! The checks of a result, before lots are read and after, and its figures.

ghost use Rattle.std.specs.Prelude.{◌≡◌, ◌*◌, ◌≤◌, ◌+ℤ◌, pos, true, false, nat_lt, nat_abs, MatchOption, MatchResult, None, Some};
ghost use Rattle.brk_model.specs.Limits.{greatest_price, greatest_summary_quantity};
ghost use Rattle.brk_model.specs.Tests.{first_refusal};
ghost use Rattle.brk_trade.specs.Outcomes as spec;
ghost use Rattle.brk_trade.specs.Outcomes.{checks_before_reading_lots, checks_after_reading_lots, figures_of_result};

use crate::result_found::ResultPlanFacts;
use crate::settling::{
    balance_after_settlement, checked_due_day, commission_of, commissions_after_result,
    settled_amount, tax_on_closed_shares,
};
use brk_lots::{ClosedLots, signed_qty};
use brk_money::{Limit, Price, Rate, Refusal, Stamp};
use brk_ref::is_submitted;
use brk_trade_plans::Completed;
use brk_trade_rows::{Amount, Schema};

/// The figures of a completed trade (Trade-Result). The amounts are in cents.
#[derive(Clone, Copy, PartialEq, Eq)]
pub struct ResultFigures {
    /// The figures in the reply.
    pub completed: Completed,
    /// The number of shares of the security that the account holds after the trade, negative if
    /// sold short.
    pub summary: i64,
    /// The number of completed trades of the broker's accounts after the trade.
    pub trades: i64,
    /// The commission total of the broker after the trade.
    pub commissions: Amount,
}

// The values of a result that are known before lots are read: the commission rate, in hundredths of
// a percent, and the number of shares held after the trade.
#[derive(Clone, Copy)]
pub(crate) struct RateAndSummary {
    pub rate: Rate,
    pub summary: i64,
}

// 0 if there is no summary.
pub(crate) fn shares_held_before_trade(found: &ResultPlanFacts) -> i64
    ensures { result ≡ spec.shares_held_before_trade found.now }
{
    match &found.summary {
        Some(summary) => summary.qty,
        None => 0,
    }
}

// Returns `None` above 9,999,999,999 shares, held or sold short.
fn add_within_summary_limit(held: i64, traded: i64) -> Option<i64>
    ensures { MatchOption result
        (nat_lt greatest_summary_quantity (nat_abs (held +ℤ traded)) ≡ true)
        (λ after. (after ≡ held +ℤ traded) × (nat_lt greatest_summary_quantity (nat_abs (held +ℤ traded)) ≡ false)) }
{
    let after = i128::from(held) + i128::from(traded);
    if after.unsigned_abs() > u128::from(Schema::Third.greatest_summary_quantity()) {
        return None;
    }
    Some(after as i64)
}

fn checked_summary(found: &ResultPlanFacts) -> Option<i64>
    ensures { MatchOption result
        (nat_lt greatest_summary_quantity (nat_abs (spec.shares_held_after_trade found.now)) ≡ true)
        (λ summary. (summary ≡ spec.shares_held_after_trade found.now)
        × (nat_lt greatest_summary_quantity (nat_abs (spec.shares_held_after_trade found.now)) ≡ false)) }
{
    let traded = signed_qty(found.trade.kind.side(), found.trade.qty.get());
    add_within_summary_limit(shares_held_before_trade(found), traded)
}

pub(crate) fn check_before_lots(found: &ResultPlanFacts) -> Result<RateAndSummary, Refusal>
    ensures { MatchResult result
        (λ known. (first_refusal (checks_before_reading_lots found.now) ≡ None) × (found.now.listed.rate ≡ Some known.rate)
        × (known.summary ≡ spec.shares_held_after_trade found.now))
        (λ refusal. first_refusal (checks_before_reading_lots found.now) ≡ Some refusal) }
{
    if !is_submitted(&found.trade) {
        return Err(Refusal::WrongStatus(found.trade.status));
    }
    let Some(rate) = found.listed.rate else {
        return Err(Refusal::NoRate);
    };
    let Some(summary) = checked_summary(found) else {
        return Err(Refusal::Range(Limit::Summary));
    };
    Ok(RateAndSummary { rate, summary })
}

// Returns the figures, or the first refusal of the checks that need the closed lots.
pub(crate) fn check_after_lots(
    found: &ResultPlanFacts,
    price: Price,
    known: &RateAndSummary,
    closed: &ClosedLots,
    trades: i64,
    stamp: Option<Stamp>,
) -> Result<ResultFigures, Refusal>
    requires sold { closed.now.values.sell_value ≤ found.now.trade.qty * greatest_price }
    requires rate { found.now.listed.rate ≡ Some known.now.rate }
    requires summary { known.now.summary ≡ spec.shares_held_after_trade found.now }
    requires trades { trades ≡ found.now.parties.broker.trades +ℤ pos 1 }
    ensures { MatchResult result
        (λ outcome. (first_refusal (checks_after_reading_lots found.now price closed.now.values stamp) ≡ None) × (stamp ≡ Some outcome.completed.stamp)
        × (outcome ≡ figures_of_result found.now price closed.now.values outcome.completed.stamp))
        (λ refusal. first_refusal (checks_after_reading_lots found.now price closed.now.values stamp) ≡ Some refusal) }
{
    let values = closed.values;
    let buy_value = values.buy_value;
    let sell_value = values.sell_value;
    let commission = commission_of(&found.trade, price, known.rate);
    let tax = tax_on_closed_shares(found, values);
    let amount = settled_amount(found, price, commission, tax);
    let Some(balance) = balance_after_settlement(found, amount) else {
        return Err(Refusal::Range(Limit::Balance));
    };
    let Some(commissions) = commissions_after_result(&found.parties.broker, commission) else {
        return Err(Refusal::Range(Limit::Broker));
    };
    let Some(stamp) = stamp else {
        return Err(Refusal::ClockEnd);
    };
    let Some(due_day) = checked_due_day(found.posting.rule, stamp) else {
        return Err(Refusal::ClockEnd);
    };
    let completed = Completed {
        stamp,
        commission,
        tax,
        amount,
        due_day,
        buy_value,
        sell_value,
        balance,
    };
    Ok(ResultFigures {
        completed,
        summary: known.summary,
        trades,
        commissions,
    })
}
