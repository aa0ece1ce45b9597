//! The sum of the rates of several taxes.

ghost use Rattle.std.specs.Prelude.{◌≤◌, SomeIff, sum_by};
ghost use Rattle.brk_money.specs.declared.tax_rate.TheConstants.TaxRate;

use crate::tax::Tax;
use brk_money::TaxRate;

/// Returns the sum of the rates, or `None` if it exceeds `TaxRate::GREATEST`.
pub fn tax_sum(taxes: &[Tax]) -> Option<TaxRate>
    ensures { SomeIff result (sum_by (λ tax. tax.rate) taxes.now ≤ TaxRate.GREATEST) (sum_by (λ tax. tax.rate) taxes.now) }
{
    let mut sum = 0;
    for tax in taxes {
        sum += tax.rate.get();
        if sum > TaxRate::GREATEST {
            return None;
        }
    }
    TaxRate::new(sum)
}
