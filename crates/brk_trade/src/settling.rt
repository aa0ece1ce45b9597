//! The arithmetic of a settlement: the cost and the proceeds of a completed trade, its due day, and
//! the totals after it.

ghost use Rattle.std.specs.Prelude.{◌≡◌, ◌+◌, ◌*◌, ◌≤◌, ◌-ℤ◌, ◌+ℤ◌, ◌&&◌, true, false, nat_lt, nat_abs, pos, if◌then◌else◌, MatchOption};
ghost use Rattle.brk_model.specs.Base.{is_withholding_status};
ghost use Rattle.brk_model.specs.Derived as derived;
ghost use Rattle.brk_model.specs.Derived.{signed_proceeds};
ghost use Rattle.brk_model.specs.Limits.{greatest_amount, greatest_price};
ghost use Rattle.brk_money.specs.Amounts as amounts;
ghost use Rattle.brk_money.specs.Kinds.{side_of_trade_type};
ghost use Rattle.brk_money.specs.Moments.{greatest_day};
ghost use Rattle.brk_trade.specs.Outcomes as spec;
ghost use Rattle.brk_trade.specs.Outcomes.{greatest_trade_value, is_trade_count};

use crate::estimate::tax_on_realised_gain;
use crate::result_found::ResultPlanFacts;
use brk_lots::Values;
use brk_money::{Cents, Day, Price, Rate, Side, Stamp, TaxStatus, commission};
use brk_ref::{BrokerRow, TradeRow};
use brk_trade_plans::add_within_balance_limit;
use brk_trade_rows::{Amount, TradeCount, completion_due_day};

#[tactic(auto, using(crate::proofs::Bounds::commission_high))]
pub(crate) fn commission_of(trade: &TradeRow, price: Price, rate: Rate) -> Amount
    ensures value { result ≡ amounts.commission rate trade.now.qty price }
    ensures high { result ≤ greatest_trade_value }
{
    let _limits = (rate.get(), trade.qty.get(), price.get());
    commission(rate, trade.qty, price).unsigned_abs()
}

#[tactic(auto, using(crate::proofs::Bounds::tax_at_high))]
pub(crate) fn tax_on_closed_shares(found: &ResultPlanFacts, values: Values) -> Amount
    requires { values.sell_value ≤ found.now.trade.qty * greatest_price }
    ensures value { result ≡ spec.tax_of_result found.now values }
    ensures high { result ≤ greatest_trade_value }
{
    let parties = &found.parties;
    let _limits = (parties.rates.get(), found.trade.qty.get());
    tax_on_realised_gain(values, parties.account.account.tax_status, parties.rates)
}

fn withheld_part(status: TaxStatus, tax: Amount) -> u64
    ensures { result ≡ (if is_withholding_status status then tax else 0) }
{
    match status {
        TaxStatus::Withheld => tax.get(),
        TaxStatus::Untaxed | TaxStatus::Reported => 0,
    }
}

fn proceeds_less_costs(side: Side, value: u64, taken_off: u64) -> Cents
    requires value { value ≤ greatest_trade_value }
    requires taken_off { taken_off ≤ 3 * greatest_trade_value }
    ensures { result ≡ signed_proceeds side value -ℤ pos taken_off }
{
    let brought = match side {
        Side::Buy => -(value as i64),
        Side::Sell => value as i64,
    };
    Cents::new(brought - taken_off as i64).unwrap()
}

// Returns an amount below 0 if the account pays.
pub(crate) fn settled_amount(
    found: &ResultPlanFacts,
    price: Price,
    commission: Amount,
    tax: Amount,
) -> Cents
    requires commission { commission ≤ greatest_trade_value }
    requires tax { tax ≤ greatest_trade_value }
    ensures { result
        ≡ signed_proceeds (side_of_trade_type found.now.trade.kind) (found.now.trade.qty * price) -ℤ pos (found.now.trade.charge + commission
        + (if is_withholding_status found.now.parties.account.account.tax_status then tax else 0)) }
{
    let trade = &found.trade;
    let value = u64::from(trade.qty.get()) * u64::from(price.get());
    let charge = u64::from(trade.charge.get());
    let status = found.parties.account.account.tax_status;
    let taken_off = charge + commission.get() + withheld_part(status, tax);
    proceeds_less_costs(trade.kind.side(), value, taken_off)
}

// Returns the balance unchanged for a margin trade.
pub(crate) fn balance_after_settlement(found: &ResultPlanFacts, amount: Cents) -> Option<Cents>
    ensures { MatchOption result
        (found.now.trade.is_cash && nat_lt greatest_amount (nat_abs (spec.balance_after_settlement_amount found.now amount)) ≡ true)
        (λ after. (after ≡ spec.balance_after_settlement_amount found.now amount)
        × (found.now.trade.is_cash && nat_lt greatest_amount (nat_abs (spec.balance_after_settlement_amount found.now amount)) ≡ false)) }
{
    if !found.trade.is_cash {
        return Some(found.parties.account.balance);
    }
    add_within_balance_limit(found.parties.account.balance, amount)
}

pub(crate) fn commissions_after_result(broker: &BrokerRow, commission: Amount) -> Option<Amount>
    ensures { MatchOption result
        (nat_lt greatest_amount (broker.now.commissions + commission) ≡ true)
        (λ after. (after ≡ broker.now.commissions + commission) × (nat_lt greatest_amount (broker.now.commissions + commission) ≡ false)) }
{
    match broker.commissions.checked_add(commission.get()) {
        Some(commissions) => Amount::new(commissions),
        None => None,
    }
}

// Returns `None` if the row's number of trades is not 0 to 10^12.
pub(crate) fn trade_count_after_result(broker: &BrokerRow) -> Option<i64>
    ensures { MatchOption result
        (is_trade_count broker.now.trades ≡ false)
        (λ trades. (trades ≡ broker.now.trades +ℤ pos 1) × (is_trade_count broker.now.trades ≡ true)) }
{
    if broker.trades < 0 || broker.trades as u64 > TradeCount::GREATEST {
        return None;
    }
    Some(broker.trades + 1)
}

// `completion_due_day`, with a clause for each outcome. Returns `None` if the due day is after
// 9999-12-31.
pub(crate) fn checked_due_day(rule: Option<Day>, stamp: Stamp) -> Option<Day>
    ensures { MatchOption result
        (nat_lt greatest_day (derived.due_day_of_completion_stamp rule stamp) ≡ true)
        (λ day. (day ≡ derived.due_day_of_completion_stamp rule stamp) × (nat_lt greatest_day (derived.due_day_of_completion_stamp rule stamp) ≡ false)) }
{
    completion_due_day(rule, stamp)
}
