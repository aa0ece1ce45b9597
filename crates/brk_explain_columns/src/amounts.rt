//! Sums, differences and products of amounts, in cents, and amounts as another type. A result that
//! its type cannot hold is the fault `Store`.

ghost use Rattle.std.specs.Prelude.{◌≡◌, ◌*ℤ◌, ◌+ℤ◌, ◌-ℤ◌, IfOk, pos};

use brk_money::{Cents, Price, StoreFailed, Wide};

pub fn add_amounts(one: Wide, other: Wide) -> Result<Wide, StoreFailed>
    ensures { IfOk result (λ sum. sum ≡ one +ℤ other) }
{
    match one.get().checked_add(other.get()) {
        Some(sum) => Ok(Wide::new(sum)),
        None => Err(StoreFailed),
    }
}

pub fn subtract_amounts(one: Wide, other: Wide) -> Result<Wide, StoreFailed>
    ensures { IfOk result (λ difference. difference ≡ one -ℤ other) }
{
    match one.get().checked_sub(other.get()) {
        Some(difference) => Ok(Wide::new(difference)),
        None => Err(StoreFailed),
    }
}

/// Returns the value in cents, below 0 for shares that were sold short.
pub fn shares_value(shares: i64, price: Price) -> Result<Wide, StoreFailed>
    ensures { IfOk result (λ value. value ≡ shares *ℤ pos price) }
{
    match i128::from(shares).checked_mul(i128::from(price.get())) {
        Some(value) => Ok(Wide::new(value)),
        None => Err(StoreFailed),
    }
}

/// Fails with `Store` above the greatest `i128`.
pub fn wide_of_u128(cents: u128) -> Result<Wide, StoreFailed>
    ensures { IfOk result (λ amount. amount ≡ pos cents) }
{
    match i128::try_from(cents) {
        Ok(cents) => Ok(Wide::new(cents)),
        Err(_) => Err(StoreFailed),
    }
}

/// Fails with `Store` if the absolute value is above `Cents::GREATEST`.
pub fn cents_of_wide(amount: Wide) -> Result<Cents, StoreFailed>
    ensures { IfOk result (λ cents. cents ≡ amount) }
{
    let Ok(cents) = i64::try_from(amount.get()) else {
        return Err(StoreFailed);
    };
    match Cents::new(cents) {
        Some(cents) => Ok(cents),
        None => Err(StoreFailed),
    }
}
