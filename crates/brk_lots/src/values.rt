//! The values of the shares that an order would close, for its estimate.

ghost use Rattle.std.specs.Prelude.{◌≡◌, ◌+◌, ◌≤◌, ℕ, List, Bool, length, IfOk};
ghost use Rattle.brk_model.specs.Shares.{touches_of_existing_lots};
ghost use Rattle.brk_lots.specs.declared.lot.Lot.{Lot};
ghost use Rattle.brk_lots.specs.Lots.{shares_of_lots};
ghost use Rattle.brk_lots.specs.Position.{AreOpenedByOtherTrades};
ghost use Rattle.brk_lots.specs.Sources.{YieldsPosition, AreLotsOfFaithfulSource, RequestsLots};
ghost use Rattle.brk_lots.specs.Values.{closing_values_of_deal};

use crate::closed_values::Values;
use crate::rows::TouchDiscarder;
use crate::source::LotSource;
use crate::walk::close_lots_with_values;
use brk_money::{Fault, Price, Qty, Side};

/// Returns the values of the shares that an order at `price` would close (Trade-Order), over the
/// lots of a position and under the disk assumption; the lots that it did not take then remain in
/// the source, also if it fails. Requests at most one lot for each share. Fails with a fault of the
/// source only.
pub fn estimate_values<L: LotSource>(
    source: &mut L,
    side: Side,
    qty: Qty,
    price: Price,
) -> Result<Values, Fault>
    ensures source { RequestsLots L.leads L.reads_faithfully L.remaining L.asked L.faulted L.fails (λ _. ⊥) qty source.old source.new result }
    // Over the lots of a position, from either end, the result is the values of exactly the shares
    // that a trade at `price` would close, under the disk assumption.
    ensures values { IfOk result (λ values. (ls : List Lot) (trade stamp : ℕ) (lifo : Bool) →
        YieldsPosition (AreLotsOfFaithfulSource (L.reads_faithfully source.new) (L.remaining source.old)) lifo ls →
        values ≡ closing_values_of_deal (record { trade = trade; side = side; qty = qty; price = price; stamp = stamp; is_lifo = lifo }) (shares_of_lots ls)) }
    // Also if it fails, it has requested at most one lot for each share of the order and, over the
    // lots of a position under the disk assumption, at most one lot more than a trade that opened
    // none of them would close or reduce.
    ensures requests_at_most_touched { (ls : List Lot) (trade stamp : ℕ) (lifo : Bool) →
        YieldsPosition (AreLotsOfFaithfulSource (L.reads_faithfully source.new) (L.remaining source.old)) lifo ls → AreOpenedByOtherTrades trade ls →
        L.asked source.new
        ≤ L.asked source.old
        + length (touches_of_existing_lots (record { trade = trade; side = side; qty = qty; price = price; stamp = stamp; is_lifo = lifo }) (shares_of_lots ls))
        + 1 }
{
    let taken = close_lots_with_values(source, side, qty, price, &mut TouchDiscarder)?;
    Ok(taken.values)
}
