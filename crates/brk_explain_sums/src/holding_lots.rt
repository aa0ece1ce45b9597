//! The realised gains and remaining costs, in cents, and the counts of lots and of their changes. A
//! product or a sum that overflows, and a missing price of the trade that opened a lot, are the
//! fault `Store`.

ghost use Rattle.std.specs.Prelude.{◌≡◌, ◌+◌, ◌-ℤ◌, IfOk, if◌then◌else◌, length, map, not, pos};
ghost use Rattle.brk_model_explain.specs.Holdings as holdings;
ghost use Rattle.brk_explain_rows.specs.Details.{abstract_priced_lot_change, abstract_lot_details};
ghost use Rattle.brk_explain_sums.specs.HoldingTexts.{quantity_after_changes};
ghost use Rattle.brk_model.specs.Lists.{is_zero, total_by};

use crate::trades::completed_price;
use brk_explain_columns::{add_amounts, shares_value};
use brk_explain_rows::{LotDetails, PricedLotChange};
use brk_money::{Price, StoreFailed, Wide};

/// Returns a number below 0 if shares of a long lot were closed.
pub(crate) fn qty_increase(change: &PricedLotChange) -> i128
    ensures { result ≡ (abstract_priced_lot_change change.now).after -ℤ (abstract_priced_lot_change change.now).before }
{
    i128::from(change.after) - i128::from(change.before)
}

fn qty_decrease(change: &PricedLotChange) -> i128
    ensures { result ≡ (abstract_priced_lot_change change.now).before -ℤ (abstract_priced_lot_change change.now).after }
{
    i128::from(change.before) - i128::from(change.after)
}

fn price_increase(price: Price, change: &PricedLotChange) -> i128
    ensures { result ≡ pos (abstract_priced_lot_change change.now).price -ℤ pos price }
{
    i128::from(change.price.get()) - i128::from(price.get())
}

/// `price` is the one at which the lot was opened.
pub(crate) fn realised_gain_of_change(
    price: Price,
    change: &PricedLotChange,
) -> Result<Wide, StoreFailed>
    ensures { IfOk result (λ gain. gain ≡ holdings.realised_gain_of_change price (abstract_priced_lot_change change.now)) }
{
    match qty_decrease(change).checked_mul(price_increase(price, change)) {
        Some(gain) => Ok(Wide::new(gain)),
        None => Err(StoreFailed),
    }
}

fn quantity_after_changes(opened: i64, changes: &[PricedLotChange]) -> i64
    ensures { result ≡ quantity_after_changes opened (map abstract_priced_lot_change changes.now) }
{
    let mut left = opened;
    for change in changes {
        left = change.after;
    }
    left
}

/// Returns a number below 0 if shares that were sold short remain.
pub(crate) fn remaining_quantity(lot: &LotDetails) -> i64
    ensures { result ≡ holdings.remaining_quantity (abstract_lot_details lot.now) }
{
    quantity_after_changes(lot.opened, &lot.changes)
}

/// Returns the cost at the price at which the lot was opened, below 0 if shares that were sold
/// short remain.
pub(crate) fn remaining_cost_of_lot(lot: &LotDetails) -> Result<Wide, StoreFailed>
    ensures { IfOk result (λ cost. cost ≡ holdings.remaining_cost_of_lot (abstract_lot_details lot.now)) }
{
    let price = completed_price(&lot.trade)?;
    shares_value(remaining_quantity(lot), price)
}

fn gain_of_changes(price: Price, changes: &[PricedLotChange]) -> Result<Wide, StoreFailed>
    ensures { IfOk result (λ total. total ≡ total_by (holdings.realised_gain_of_change price) (map abstract_priced_lot_change changes.now)) }
{
    let mut total = Wide::new(0);
    for change in changes {
        let gain = realised_gain_of_change(price, change)?;
        total = add_amounts(total, gain)?;
    }
    Ok(total)
}

fn realised_gain_of_lot(lot: &LotDetails) -> Result<Wide, StoreFailed>
    ensures { IfOk result (λ gain. gain ≡ holdings.realised_gain_of_lot (abstract_lot_details lot.now)) }
{
    let price = completed_price(&lot.trade)?;
    gain_of_changes(price, &lot.changes)
}

pub(crate) fn realised_gain_of_lots(lots: &[LotDetails]) -> Result<Wide, StoreFailed>
    ensures { IfOk result (λ total. total ≡ holdings.realised_gain_of_lots (map abstract_lot_details lots.now)) }
{
    let mut total = Wide::new(0);
    for lot in lots {
        let gain = realised_gain_of_lot(lot)?;
        total = add_amounts(total, gain)?;
    }
    Ok(total)
}

pub(crate) fn remaining_cost_of_lots(lots: &[LotDetails]) -> Result<Wide, StoreFailed>
    ensures { IfOk result (λ total. total ≡ holdings.remaining_cost_of_lots (map abstract_lot_details lots.now)) }
{
    let mut total = Wide::new(0);
    for lot in lots {
        let cost = remaining_cost_of_lot(lot)?;
        total = add_amounts(total, cost)?;
    }
    Ok(total)
}

fn count_as_open(left: i64) -> u64
    ensures { result ≡ (if not (is_zero left) then 1 else 0) }
{
    if left == 0 { 0 } else { 1 }
}

fn add_counts(one: u64, other: u64) -> Result<u64, StoreFailed>
    ensures { IfOk result (λ sum. sum ≡ one + other) }
{
    match one.checked_add(other) {
        Some(sum) => Ok(sum),
        None => Err(StoreFailed),
    }
}

/// A lot is open if its remaining quantity is not 0.
pub(crate) fn count_open_lots(lots: &[LotDetails]) -> Result<u64, StoreFailed>
    ensures { IfOk result (λ count. count ≡ length (holdings.lots_not_fully_closed (map abstract_lot_details lots.now))) }
{
    let mut count: u64 = 0;
    for lot in lots {
        count = add_counts(count, count_as_open(remaining_quantity(lot)))?;
    }
    Ok(count)
}

fn change_count(changes: &[PricedLotChange]) -> u64
    ensures { result ≡ length (map abstract_priced_lot_change changes.now) }
{
    changes.len() as u64
}

/// The openings of the lots are not counted.
pub(crate) fn count_of_lot_changes(lots: &[LotDetails]) -> Result<u64, StoreFailed>
    ensures { IfOk result (λ count. count ≡ holdings.count_of_lot_changes (map abstract_lot_details lots.now)) }
{
    let mut count: u64 = 0;
    for lot in lots {
        count = add_counts(count, change_count(&lot.changes))?;
    }
    Ok(count)
}
