//! The order in which the upgrade numbers the cash rows of schema 1.

ghost use Rattle.std.specs.Prelude.{◌≡◌, IfOk};
ghost use Rattle.brk_model.specs.Lists.{sort_by_key};

use brk_ref::OldCashRow;
use std::alloc::AllocError;

/// Sorts rows of CASH_TRANSACTION by stamp, ascending. Rows with equal stamps keep their order.
pub fn sort_by_stamp(rows: Vec<OldCashRow>) -> Result<Vec<OldCashRow>, AllocError>
    ensures order { IfOk result (λ ordered. ordered.items ≡ sort_by_key (λ r. r.stamp) rows.items) }
{
    let mut ordered = rows;
    ordered.sort_by_key(|row| row.stamp.get().unsigned_abs())?;
    Ok(ordered)
}
