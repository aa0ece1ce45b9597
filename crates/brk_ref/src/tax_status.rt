//! Which tax statuses are taxable. The parser of a tax status is in `numbers`.

ghost use Rattle.std.specs.Prelude.{◌≡◌};
ghost use Rattle.brk_model.specs.Base as spec;

use brk_money::TaxStatus;

/// Returns true for `Withheld` and `Reported`.
pub fn is_taxable_status(status: TaxStatus) -> bool
    ensures { result ≡ spec.is_taxable_status status }
{
    match status {
        TaxStatus::Untaxed => false,
        TaxStatus::Withheld | TaxStatus::Reported => true,
    }
}
