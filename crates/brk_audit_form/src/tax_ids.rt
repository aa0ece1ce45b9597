//! The check that no two customers have the same tax id.

ghost use Rattle.std.specs.Prelude.{◌≡◌, IfOk, map};
ghost use Rattle.brk_model.specs.Form as form;
ghost use Rattle.brk_ref.specs.Records.{abstract_customer};

use brk_ref::Customer;
use std::alloc::{AllocError, Global};
use std::collections::BTreeSet;

pub(crate) fn have_distinct_tax_ids(
    alloc: Global,
    customers: &[Customer],
) -> Result<bool, AllocError>
    ensures { IfOk result (λ holds. holds ≡ form.has_distinct_tax_ids (map abstract_customer customers.now)) }
{
    let mut seen = BTreeSet::new(alloc);
    for customer in customers {
        let tax_id = customer.tax_id.as_str();
        let added = seen.insert(tax_id)?;
        if !added {
            return Ok(false);
        }
    }
    Ok(true)
}
