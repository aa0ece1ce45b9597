//! The quantities of completed trades, their values in cents, and their totals. A trade without a
//! price, and a product or a sum that overflows, are the fault `Store`.

ghost use Rattle.std.specs.Prelude.{◌≡◌, ◌+ℤ◌, IfOk, if◌then◌else◌, int_lt, map, pos};
ghost use Rattle.brk_ref.specs.Rows.{abstract_trade_row};
ghost use Rattle.brk_model_explain.specs.Holdings as holdings;
ghost use Rattle.brk_model_explain.specs.Trades as details;

use brk_explain_columns::{add_amounts, shares_value};
use brk_money::{Price, Side, StoreFailed, Wide};
use brk_ref::TradeRow;

pub(crate) fn completed_price(row: &TradeRow) -> Result<Price, StoreFailed>
    ensures { IfOk result (λ price. price ≡ details.completion_price_or_zero (abstract_trade_row row.now)) }
{
    match row.price {
        Some(price) => Ok(price),
        None => Err(StoreFailed),
    }
}

/// Returns a number below 0 for a sale.
pub(crate) fn signed_quantity_of_trade(row: &TradeRow) -> i64
    ensures { result ≡ holdings.signed_quantity_of_trade (abstract_trade_row row.now) }
{
    let shares = i64::from(row.qty.get());
    match row.kind.side() {
        Side::Buy => shares,
        Side::Sell => -shares,
    }
}

/// Returns an amount below 0 for a sale.
pub(crate) fn signed_value_of_trade(row: &TradeRow) -> Result<Wide, StoreFailed>
    ensures { IfOk result (λ value. value ≡ holdings.signed_value_of_trade (abstract_trade_row row.now)) }
{
    let price = completed_price(row)?;
    shares_value(signed_quantity_of_trade(row), price)
}

pub(crate) fn quantity_after_trade(held: i64, row: &TradeRow) -> Result<i64, StoreFailed>
    ensures { IfOk result (λ after. after ≡ held +ℤ holdings.signed_quantity_of_trade (abstract_trade_row row.now)) }
{
    match held.checked_add(signed_quantity_of_trade(row)) {
        Some(after) => Ok(after),
        None => Err(StoreFailed),
    }
}

fn is_below(one: Wide, other: Wide) -> bool
    ensures { result ≡ int_lt one other }
{
    one.get() < other.get()
}

fn positive_part(amount: Wide) -> Wide
    ensures { result ≡ (if int_lt (pos 0) amount then amount else pos 0) }
{
    let zero = Wide::new(0);
    if is_below(zero, amount) { amount } else { zero }
}

fn negative_part(amount: Wide) -> Wide
    ensures { result ≡ (if int_lt amount (pos 0) then amount else pos 0) }
{
    let zero = Wide::new(0);
    if is_below(amount, zero) { amount } else { zero }
}

pub(crate) fn total_purchase_value(done: &[TradeRow]) -> Result<Wide, StoreFailed>
    ensures { IfOk result (λ total. total ≡ holdings.total_purchase_value (map abstract_trade_row done.now)) }
{
    let mut total = Wide::new(0);
    for row in done {
        let value = signed_value_of_trade(row)?;
        total = add_amounts(total, positive_part(value))?;
    }
    Ok(total)
}

/// Returns an amount below 0, or 0 if there is no sale.
pub(crate) fn negated_total_sale_value(done: &[TradeRow]) -> Result<Wide, StoreFailed>
    ensures { IfOk result (λ total. total ≡ holdings.negated_total_sale_value (map abstract_trade_row done.now)) }
{
    let mut total = Wide::new(0);
    for row in done {
        let value = signed_value_of_trade(row)?;
        total = add_amounts(total, negative_part(value))?;
    }
    Ok(total)
}
