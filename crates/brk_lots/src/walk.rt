//! Closing the lots of a source one by one, with the cost and the values of their shares.

ghost use Rattle.std.specs.Prelude.{◌+◌, ◌*◌, ◌≤◌, List, [], length, IfOk};
ghost use Rattle.brk_model.specs.Limits.{greatest_price};
ghost use Rattle.brk_lots.specs.declared.lot.Lot.{Lot};
ghost use Rattle.brk_lots.specs.declared.lot.Touch.{Touch};
ghost use Rattle.brk_lots.specs.Position.{IsPositionInAnyOrder};
ghost use Rattle.brk_lots.specs.Sources.{AreLotsOfFaithfulSource, RequestsLots};
ghost use Rattle.brk_lots.specs.Values.{IsResultOfTradeAgainstLots};
ghost use Rattle.brk_lots.specs.Walks.{IsResultOfClosingLots, closed_share_count, touches_of_first_shares};

use crate::closed_values::{Values, share_values};
use crate::lot::are_same_side;
use crate::rows::TouchReceiver;
use crate::shares::shares_to_close_in_lot;
use crate::source::LotSource;
use brk_money::{Fault, Price, Qty, Side};

// The quantity that closed no share (`left`), and the value at which the closed shares were opened,
// in cents (`cost`).
#[derive(Drop)]
struct CloseCost {
    left: u32,
    cost: u64,
}

// The quantity that closed no share (`left`), and the buy value and the sell value of the closed
// shares, in cents (`values`).
#[derive(Drop)]
pub(crate) struct CloseValues {
    pub left: u32,
    pub values: Values,
}

// Adds the change of each lot to `rows`, which begins empty; a call that fails may have added some.
fn close_lots_with_cost<L: LotSource, R: TouchReceiver>(
    source: &mut L,
    side: Side,
    qty: Qty,
    rows: &mut R,
) -> Result<CloseCost, Fault>
    requires { R.holds rows.old [] }
    ensures source { RequestsLots L.leads L.reads_faithfully L.remaining L.asked L.faulted L.fails R.fails qty source.old source.new result }
    // It requests at most one lot more than it adds changes to `rows`. Over the lots of a position
    // under the disk assumption, it adds the changes of the lots that the trade closes or reduces.
    ensures taken { IfOk result (λ walked. (touched : List Touch) × R.holds rows.new touched × (L.asked source.new ≤ L.asked source.old + length touched + 1)
        × ((ls : List Lot) → AreLotsOfFaithfulSource (L.reads_faithfully source.new) (L.remaining source.old) ls → IsPositionInAnyOrder ls
        → IsResultOfClosingLots side qty ls touched walked.left walked.cost)) }
    ensures left { IfOk result (λ walked. walked.left ≤ qty) }
    ensures limit { IfOk result (λ walked. walked.cost ≤ qty * greatest_price) }
    // Also if it fails, it has requested at most one lot for each share and, over the lots of a
    // position under the disk assumption, at most one lot more than the trade closes or reduces.
    ensures requests_at_most_touched { (ls : List Lot) → AreLotsOfFaithfulSource (L.reads_faithfully source.new) (L.remaining source.old) ls
        → IsPositionInAnyOrder ls → L.asked source.new ≤ L.asked source.old + length (touches_of_first_shares (closed_share_count side qty ls) ls) + 1 }
{
    let mut left = qty.get();
    let mut cost: u64 = 0;
    while left > 0 {
        let Some(lot) = source.next()? else {
            break;
        };
        if are_same_side(lot.side(), side) {
            break;
        }
        let shares = shares_to_close_in_lot(lot.share_count(), left);
        rows.add(lot.closing_touch(shares))?;
        cost += u64::from(shares) * u64::from(lot.price.get());
        left -= shares;
    }
    Ok(CloseCost { left, cost })
}

// Closes lots as `close_lots_with_cost` does, and values the closed shares at `price` too.
pub(crate) fn close_lots_with_values<L: LotSource, R: TouchReceiver>(
    source: &mut L,
    side: Side,
    qty: Qty,
    price: Price,
    rows: &mut R,
) -> Result<CloseValues, Fault>
    requires { R.holds rows.old [] }
    ensures source { RequestsLots L.leads L.reads_faithfully L.remaining L.asked L.faulted L.fails R.fails qty source.old source.new result }
    // It requests at most one lot more than it adds changes to `rows`. Over the lots of a position
    // under the disk assumption, it adds the changes of the lots that the trade closes or reduces.
    ensures taken { IfOk result (λ taken. (touched : List Touch) × R.holds rows.new touched × (L.asked source.new ≤ L.asked source.old + length touched + 1)
        × ((ls : List Lot) → AreLotsOfFaithfulSource (L.reads_faithfully source.new) (L.remaining source.old) ls → IsPositionInAnyOrder ls
        → IsResultOfTradeAgainstLots side qty price ls touched taken.left taken.values)) }
    ensures bought { IfOk result (λ taken. taken.values.buy_value ≤ qty * greatest_price) }
    ensures sold { IfOk result (λ taken. taken.values.sell_value ≤ qty * greatest_price) }
    // Also if it fails, it has requested at most one lot for each share and, over the lots of a
    // position under the disk assumption, at most one lot more than the trade closes or reduces.
    ensures requests_at_most_touched { (ls : List Lot) → AreLotsOfFaithfulSource (L.reads_faithfully source.new) (L.remaining source.old) ls
        → IsPositionInAnyOrder ls → L.asked source.new ≤ L.asked source.old + length (touches_of_first_shares (closed_share_count side qty ls) ls) + 1 }
{
    let walked = close_lots_with_cost(source, side, qty, rows)?;
    let closed = qty.get() - walked.left;
    Ok(CloseValues {
        left: walked.left,
        values: share_values(side, closed, price, walked.cost),
    })
}
