//! The lots that remain in a vector after the changes of a trade.

ghost use Rattle.std.specs.Prelude.{◌≡◌, ◌++◌, ◌+◌, ◌<◌, ◌≤◌, Bool, ℕ, drop, slice_index_or, take, vec_capacity, vec_len};
ghost use Rattle.brk_lots.specs.declared.lot.Lot.{Lot};
ghost use Rattle.brk_lots.specs.Lots.{list_reversed_if_lifo};
ghost use Rattle.brk_lots.specs.Position.{IsPositionInAnyOrder};
ghost use Rattle.brk_lots.specs.Walks.{touches_of_first_shares, lots_after_touches, lot_with_nonzero_quantity};

use crate::lot::{Lot, Touch};

// Closes the lots before `last`, and leaves `last` with `qty` shares, or closes it too at 0. Closed
// lots stay in the vector, before the returned index, so that no lot is moved.
fn close_front(lots: &mut Vec<Lot>, last: usize, qty: i64) -> usize
    // `last` is the index of a lot.
    requires { last < vec_len lots.old }

    // The lots from the returned index on are those that remain.
    ensures left { (lot : Lot) → lot ≡ slice_index_or lots.old.items last lot
        → drop result lots.new.items ≡ lot_with_nonzero_quantity qty lot ++ drop (last + 1) lots.old.items }
    ensures within { result ≤ vec_len lots.new }

    // The capacity and the length of the vector are unchanged.
    ensures capacity { vec_capacity lots.new ≡ vec_capacity lots.old }
    ensures len { vec_len lots.new ≡ vec_len lots.old }
{
    if qty == 0 {
        return last + 1;
    }
    lots[last].qty = qty;
    last
}

// Removes the lots after `last`, and `last` itself if none of its shares remain.
fn remove_back(lots: &mut Vec<Lot>, last: usize, qty: i64)
    // `last` is the index of a lot.
    requires { last < vec_len lots.old }

    // All lots that remain.
    ensures left { (lot : Lot) → lot ≡ slice_index_or lots.old.items last lot → lots.new.items ≡ take last lots.old.items ++ lot_with_nonzero_quantity qty lot }

    // The capacity of the vector is unchanged, no lot is added, and at least `last` lots remain.
    ensures capacity { vec_capacity lots.new ≡ vec_capacity lots.old }
    ensures len { vec_len lots.new ≤ vec_len lots.old }
    ensures within { last ≤ vec_len lots.new }
{
    if qty == 0 {
        lots.truncate(last);
        return;
    }
    lots.truncate(last + 1);
    lots[last].qty = qty;
}

// Returns the index of the first remaining lot; closed lots may stay in the vector before it. Each
// change closes its lot, except that the last may only reduce it.
pub(crate) fn apply_touches(lots: &mut Vec<Lot>, first: usize, touched: &[Touch]) -> usize
    // The lots from `first` on form a position; the changes close its first or last `k` shares.
    requires within { first ≤ vec_len lots.old }
    requires walk { IsPositionInAnyOrder (drop first lots.old.items) }
    requires rows { (lifo : Bool) × (k : ℕ) × (touched.now ≡ touches_of_first_shares k (list_reversed_if_lifo lifo (drop first lots.old.items))) }

    // The lots from the returned index on are those that remain.
    ensures left { drop result lots.new.items ≡ lots_after_touches touched.now (drop first lots.old.items) }
    ensures begins { result ≤ vec_len lots.new }

    // The capacity of the vector is unchanged, and no lot is added.
    ensures capacity { vec_capacity lots.new ≡ vec_capacity lots.old }
    ensures len { vec_len lots.new ≤ vec_len lots.old }
{
    let count = touched.len();
    if count == 0 {
        return first;
    }
    let qty = touched[count - 1].after;
    if touched[0].lot == lots[first].trade {
        return close_front(lots, first + count - 1, qty);
    }
    let last = lots.len() - count;
    remove_back(lots, last, qty);
    first
}
