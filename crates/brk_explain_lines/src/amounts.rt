//! The amounts of a completed trade, in cents. A sum that overflows is the fault `Store`.

ghost use Rattle.std.specs.Prelude.{◌≡◌, ◌*◌, IfOk, map, neg_ℤ, pos, if◌then◌else◌};
ghost use Rattle.brk_model_explain.specs.Trades as trades;
ghost use Rattle.brk_explain_rows.specs.Details.{abstract_closing, abstract_order_details, abstract_result_details};
ghost use Rattle.brk_model.specs.Base as base;
ghost use Rattle.brk_money.specs.Amounts as amounts;
ghost use Rattle.brk_ref.specs.Records.{abstract_tax_rate};

use brk_explain_columns::{cents_of_wide, subtract_amounts, wide_of_u128};
use brk_explain_rows::{Closing, OrderDetails, ResultDetails};
use brk_money::{Amount, Price, Qty, Side, StoreFailed, TaxRate, TaxStatus, Wide, commission, tax};
use brk_ref::{Tax, is_taxable_status, tax_sum};

pub(crate) fn shares_of_closing(closing: &Closing) -> u64
    ensures { result ≡ trades.shares_of_closing (abstract_closing closing.now) }
{
    (i128::from(closing.before) - i128::from(closing.after)).unsigned_abs() as u64
}

/// Returns the closed shares times `price` for a purchase, and times the lot's price for a sale.
pub(crate) fn buy_value_of_closing(side: Side, price: Price, closing: &Closing) -> u128
    ensures { result ≡ trades.buy_value_of_closing side price (abstract_closing closing.now) }
{
    match side {
        Side::Sell => u128::from(shares_of_closing(closing)) * u128::from(closing.price.get()),
        Side::Buy => u128::from(shares_of_closing(closing)) * u128::from(price.get()),
    }
}

/// Returns the closed shares times `price` for a sale, and times the lot's price for a purchase.
pub(crate) fn sell_value_of_closing(side: Side, price: Price, closing: &Closing) -> u128
    ensures { result ≡ trades.sell_value_of_closing side price (abstract_closing closing.now) }
{
    match side {
        Side::Sell => u128::from(shares_of_closing(closing)) * u128::from(price.get()),
        Side::Buy => u128::from(shares_of_closing(closing)) * u128::from(closing.price.get()),
    }
}

pub(crate) fn total_closed_shares(closings: &[Closing]) -> Result<u64, StoreFailed>
    ensures { IfOk result (λ total. total ≡ trades.total_closed_shares (map abstract_closing closings.now)) }
{
    let mut total: u64 = 0;
    for closing in closings {
        let Some(sum) = total.checked_add(shares_of_closing(closing)) else {
            return Err(StoreFailed);
        };
        total = sum;
    }
    Ok(total)
}

pub(crate) fn buy_value_of_closings(
    side: Side,
    price: Price,
    closings: &[Closing],
) -> Result<Wide, StoreFailed>
    ensures { IfOk result (λ total. total ≡ pos (trades.buy_value_of_closings side price (map abstract_closing closings.now))) }
{
    let mut total: u128 = 0;
    for closing in closings {
        let Some(sum) = total.checked_add(buy_value_of_closing(side, price, closing)) else {
            return Err(StoreFailed);
        };
        total = sum;
    }
    wide_of_u128(total)
}

pub(crate) fn sell_value_of_closings(
    side: Side,
    price: Price,
    closings: &[Closing],
) -> Result<Wide, StoreFailed>
    ensures { IfOk result (λ total. total ≡ pos (trades.sell_value_of_closings side price (map abstract_closing closings.now))) }
{
    let mut total: u128 = 0;
    for closing in closings {
        let Some(sum) = total.checked_add(sell_value_of_closing(side, price, closing)) else {
            return Err(StoreFailed);
        };
        total = sum;
    }
    wide_of_u128(total)
}

/// Returns the sell values minus the buy values.
pub(crate) fn gain_of_closings(
    side: Side,
    price: Price,
    closings: &[Closing],
) -> Result<Wide, StoreFailed>
    ensures { IfOk result (λ gain. gain ≡ trades.gain_of_closings side price (map abstract_closing closings.now)) }
{
    let bought = buy_value_of_closings(side, price, closings)?;
    let sold = sell_value_of_closings(side, price, closings)?;
    subtract_amounts(sold, bought)
}

/// Returns hundred-thousandths. Fails with `Store` above the greatest tax rate.
pub(crate) fn sum_of_tax_rates(rates: &[Tax]) -> Result<TaxRate, StoreFailed>
    ensures { IfOk result (λ total. total ≡ trades.sum_of_tax_rates (map abstract_tax_rate rates.now)) }
{
    match tax_sum(rates) {
        Some(total) => Ok(total),
        None => Err(StoreFailed),
    }
}

// Rounds half up to whole cents, and returns 0 for a loss, or if the status is not taxable. Fails
// with `Store` if the status is taxable and the absolute value of the gain is above
// `Cents::GREATEST`.
fn tax_on_gain(status: TaxStatus, gain: Wide, rates: TaxRate) -> Result<Wide, StoreFailed>
    ensures { IfOk result (λ tax. tax ≡ pos (if base.is_taxable_status status then amounts.tax gain rates else 0)) }
{
    if !is_taxable_status(status) {
        return Ok(Wide::new(0));
    }
    let gain = cents_of_wide(gain)?;
    Ok(Wide::from(tax(gain, rates)))
}

/// Uses the rates that the customer pays now, not those at the completion of the trade.
pub(crate) fn tax_at_current_rates(
    order: &OrderDetails,
    details: &ResultDetails,
) -> Result<Wide, StoreFailed>
    ensures { IfOk result (λ tax. tax ≡ pos (trades.tax_at_current_rates (abstract_order_details order.now) (abstract_result_details details.now))) }
{
    let gain = gain_of_closings(order.trade.kind.side(), details.price, &details.closings)?;
    let rates = sum_of_tax_rates(&details.rates)?;
    tax_on_gain(order.account.account.tax_status, gain, rates)
}

/// Returns `None` if no band applies.
pub(crate) fn current_commission(order: &OrderDetails, details: &ResultDetails) -> Option<Amount>
    ensures { result ≡ trades.current_commission (abstract_order_details order.now) (abstract_result_details details.now) }
{
    match &details.band {
        Some(band) => { Some(commission(band.rate, order.trade.qty, details.price).unsigned_abs()) }
        None => None,
    }
}

fn value_at_price(qty: Qty, price: Price) -> i128
    ensures { result ≡ pos (qty * price) }
{
    i128::from(u64::from(qty.get()) * u64::from(price.get()))
}

/// Returns a value below 0 for a purchase, which the account pays.
pub(crate) fn signed_trade_value(order: &OrderDetails, details: &ResultDetails) -> Wide
    ensures { result ≡ trades.signed_trade_value (abstract_order_details order.now) (abstract_result_details details.now) }
{
    let value = value_at_price(order.trade.qty, details.price);
    match order.trade.kind.side() {
        Side::Sell => Wide::new(value),
        Side::Buy => Wide::new(-value),
    }
}

pub(crate) fn negated_charge(order: &OrderDetails) -> Wide
    ensures { result ≡ neg_ℤ (pos (abstract_order_details order.now).trade.charge) }
{
    Wide::new(-i128::from(order.trade.charge.get()))
}

pub(crate) fn negated_commission(order: &OrderDetails) -> Wide
    ensures { result ≡ neg_ℤ (pos (abstract_order_details order.now).trade.commission) }
{
    Wide::new(-i128::from(order.trade.commission.get()))
}

/// Returns 0 unless the tax status of the account is `Withheld`.
pub(crate) fn negated_withheld_tax(order: &OrderDetails) -> Wide
    ensures { result ≡ neg_ℤ (pos (trades.withheld_tax_of_trade (abstract_order_details order.now))) }
{
    match order.account.account.tax_status {
        TaxStatus::Withheld => Wide::new(-i128::from(order.trade.tax.get())),
        TaxStatus::Untaxed | TaxStatus::Reported => Wide::new(0),
    }
}

/// Returns 0 if the trade has no cash row.
pub(crate) fn balance_change_of_trade(details: &ResultDetails) -> Wide
    ensures { result ≡ trades.balance_change_of_trade (abstract_result_details details.now) }
{
    match &details.cash {
        Some(row) => Wide::from(row.amount),
        None => Wide::new(0),
    }
}
