//! The keys by which the rows of each table are sorted.

ghost use Rattle.std.specs.Prelude.{◌≡◌, List};
ghost use Rattle.std.specs.Ordering.{nat_cmp};
ghost use Rattle.std.specs.Cmp.Lexicographic.{slice_cmp};
ghost use Rattle.brk_model.specs.Form as form;
ghost use Rattle.brk_model.specs.Keys.{KeyPart};
ghost use Rattle.brk_audit_form.specs.Keys.{key_cmp};

use brk_money::Id;
use brk_ref::{Form, Text};
use std::cmp::Ordering;

/// A row of a table with a sort key.
pub(crate) trait Keyed {
    /// The sort key of a row.
    ghost key: { Self → List KeyPart };

    /// Compares part by part: numbers by value, texts by bytes.
    fn compare_keys(&self, other: &Self) -> Ordering
        ensures { result ≡ key_cmp (key self.now) (key other.now) };
}

pub(crate) fn compare_ids(one: Id, other: Id) -> Ordering
    ensures { result ≡ nat_cmp one other }
{
    one.get().cmp(&other.get())
}

pub(crate) fn compare_texts<F: Form>(one: &Text<F>, other: &Text<F>) -> Ordering
    ensures { result ≡ slice_cmp nat_cmp one.now other.now }
{
    one.as_str().cmp(other.as_str())
}

pub(crate) fn keys_ascend<R: Keyed>(rows: &[R]) -> bool
    ensures { result ≡ form.is_sorted_by_unique_key R.key rows.now }
{
    rows.is_sorted_by(|row, next| row.compare_keys(next).is_lt())
}
