//! The amounts that are rounded half up: the commission and the tax of a trade.

ghost use Rattle.std.specs.Prelude.{◌≡◌, ◌+◌, ◌*◌, ◌<◌, ◌≤◌, ◌^◌, pos};
ghost use Rattle.brk_money.specs.Amounts as spec;
ghost use Rattle.brk_money.specs.declared.cents.TheConstants.Cents;

use crate::cents::Cents;
use crate::price::Price;
use crate::qty::Qty;
use crate::rate::Rate;
use crate::tax_rate::TaxRate;

/// Returns `n / d`, rounded to the nearest whole number; a half is rounded up.
pub fn half_up(n: u128, d: u128) -> u128
    requires divisor { 0 < d }
    requires no_overflow { 2 * n + d < 2 ^ 128 }
    ensures { result ≡ spec.half_up n d }
{
    // Divides by two first, so that twice the divisor need not fit.
    (2 * n + d) / 2 / d
}

fn natural_cents(cents: u128) -> Cents
    requires { cents ≤ Cents.GREATEST }
    ensures { result ≡ pos cents }
{
    Cents::new(cents as i64).unwrap()
}

/// Returns the value of `qty` shares at `price` times `rate`, rounded once to whole cents, a half
/// up (T_COMM, Trade-Result).
pub fn commission(rate: Rate, qty: Qty, price: Price) -> Cents
    ensures { result ≡ pos (spec.commission rate qty price) }
{
    let product = u128::from(rate.get()) * u128::from(qty.get()) * u128::from(price.get());
    natural_cents(half_up(product, 10_000))
}

/// Returns the tax on `gain` at the sum `rates` of a customer's tax rates, rounded once to whole
/// cents, a half up; a loss has no tax (T_TAX, Trade-Result).
pub fn tax(gain: Cents, rates: TaxRate) -> Cents
    ensures { result ≡ pos (spec.tax gain rates) }
{
    let gain = gain.get();
    if gain <= 0 {
        return natural_cents(0);
    }
    natural_cents(half_up(gain as u128 * u128::from(rates.get()), 100_000))
}
