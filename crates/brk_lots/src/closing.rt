ghost use Rattle.std.specs.Prelude.{◌≡◌, ◌+◌, ◌*◌, ◌≤◌, ◌≤ℤ◌, List, Bool, length, map, IfOk, vec_len, replicate, pos};
ghost use Rattle.std.specs.Option.{option_to_list};
ghost use Rattle.brk_model.specs.Limits.{greatest_price};
ghost use Rattle.brk_model.specs.Shares.{lots_of_shares, touches_of_existing_lots};
ghost use Rattle.brk_lots.specs.declared.lot.Lot.{Lot};
ghost use Rattle.brk_lots.specs.Lots.{abstract_lot, shares_of_lots};
ghost use Rattle.brk_lots.specs.Position.{AreOpenedByOtherTrades};
ghost use Rattle.brk_lots.specs.Closing.{IsEffectOfDealOnLots, IsClosingOfDeal};
ghost use Rattle.brk_lots.specs.Sources.{YieldsPosition, AreLotsOfFaithfulSource, RequestsLots};

use crate::closed_values::Values;
use crate::lot::{Lot, Touch, signed_qty};
use crate::source::LotSource;
use crate::walk::close_lots_with_values;
use brk_money::{Fault, Id, Price, Qty, Side, Stamp, Wide};
use std::alloc::Global;

/// The effect of a trade on a position: the lots that it closes or reduces, the lot that it opens,
/// and the values of the shares that it closes.
#[derive(Drop)]
pub struct ClosedLots {
    /// The lots that it closes or reduces, in the sequence in which the source returns them.
    pub touched: Vec<Touch>,
    /// The lot that it opens with the remaining shares, or `None` if none remain.
    pub opened: Option<Lot>,
    /// Buy value and sell value of the closed shares, in cents.
    pub values: Values,
}

/// The effect of a trade on a position, as `ClosedLots`, with its values as `Wide`, the type of
/// sums over many shares.
#[derive(Drop)]
pub struct Closing {
    pub touched: Vec<Touch>,
    pub opened: Option<Lot>,
    pub buy_value: Wide,
    pub sell_value: Wide,
}

pub(crate) fn opened_lot(
    side: Side,
    shares: u32,
    trade: Id,
    price: Price,
    stamp: Stamp,
) -> Option<Lot>
    ensures { map abstract_lot (option_to_list result)
        ≡ lots_of_shares (replicate shares (record { side = side; trade = trade; price = price; stamp = stamp })) }
{
    if shares == 0 {
        return None;
    }
    Some(Lot {
        trade,
        price,
        qty: signed_qty(side, shares),
        stamp,
    })
}

/// Closes lots and opens a lot with the rest, as `close` does, with the values as `Amount`s.
pub fn close_lots<L: LotSource>(
    alloc: Global,
    source: &mut L,
    side: Side,
    qty: Qty,
    trade: Id,
    price: Price,
    stamp: Stamp,
) -> Result<ClosedLots, Fault>
    ensures source { RequestsLots L.leads L.reads_faithfully L.remaining L.asked L.faulted L.fails (λ fault. fault ≡ Fault.Memory) qty source.old source.new result }
    // Over the lots of a position, from either end, none of which `trade` opened, the result is the
    // effect of the trade on the shares of that position, under the disk assumption.
    ensures closed { IfOk result (λ closed. (ls : List Lot) (lifo : Bool)
        → YieldsPosition (AreLotsOfFaithfulSource (L.reads_faithfully source.new) (L.remaining source.old)) lifo ls → AreOpenedByOtherTrades trade ls →
        IsEffectOfDealOnLots (record { trade = trade; side = side; qty = qty; price = price; stamp = stamp; is_lifo = lifo }) ls closed) }
    // Both values are at most that of the quantity at the greatest price.
    ensures bought { IfOk result (λ closed. closed.values.buy_value ≤ qty * greatest_price) }
    ensures sold { IfOk result (λ closed. closed.values.sell_value ≤ qty * greatest_price) }
    ensures asked { IfOk result (λ closed. L.asked source.new ≤ L.asked source.old + vec_len closed.touched + 1) }
    // Also if it fails, it has requested at most one lot for each share of the trade and, under the
    // conditions of the effect above, at most one lot more than the trade closes or reduces.
    ensures requests_at_most_touched { (ls : List Lot) (lifo : Bool)
        → YieldsPosition (AreLotsOfFaithfulSource (L.reads_faithfully source.new) (L.remaining source.old)) lifo ls → AreOpenedByOtherTrades trade ls →
        L.asked source.new
        ≤ L.asked source.old
        + length (touches_of_existing_lots (record { trade = trade; side = side; qty = qty; price = price; stamp = stamp; is_lifo = lifo }) (shares_of_lots ls))
        + 1 }
{
    let mut touched = Vec::new(alloc);
    let taken = close_lots_with_values(source, side, qty, price, &mut touched)?;
    Ok(ClosedLots {
        touched,
        opened: opened_lot(side, taken.left, trade, price, stamp),
        values: taken.values,
    })
}

/// Closes lots of the other side until the quantity is used up, the source has no further lot, or
/// the next lot has the side of the trade, and opens a lot with the remaining shares, if any
/// (Trade-Result).
///
/// Under the disk assumption, the result over the lots of a position, none of which `trade` opened,
/// is the effect of the trade; the lots that it did not take remain in the source, also if it
/// fails. Requests at most one lot for each share. Fails with `Memory` or a fault of the source.
pub fn close<L: LotSource>(
    alloc: Global,
    source: &mut L,
    side: Side,
    qty: Qty,
    trade: Id,
    price: Price,
    stamp: Stamp,
) -> Result<Closing, Fault>
    ensures source { RequestsLots L.leads L.reads_faithfully L.remaining L.asked L.faulted L.fails (λ fault. fault ≡ Fault.Memory) qty source.old source.new result }
    // Over the lots of a position, from either end, none of which `trade` opened, the result is the
    // effect of the trade on the shares of that position, under the disk assumption.
    ensures closing { IfOk result (λ closing. (ls : List Lot) (lifo : Bool)
        → YieldsPosition (AreLotsOfFaithfulSource (L.reads_faithfully source.new) (L.remaining source.old)) lifo ls → AreOpenedByOtherTrades trade ls →
        IsClosingOfDeal (record { trade = trade; side = side; qty = qty; price = price; stamp = stamp; is_lifo = lifo }) ls closing) }
    // Both values are at least 0, and at most that of the quantity at the greatest price.
    ensures bought { IfOk result (λ closing. (pos 0 ≤ℤ closing.buy_value) × (closing.buy_value ≤ℤ pos (qty * greatest_price))) }
    ensures sold { IfOk result (λ closing. (pos 0 ≤ℤ closing.sell_value) × (closing.sell_value ≤ℤ pos (qty * greatest_price))) }
    ensures asked { IfOk result (λ closing. L.asked source.new ≤ L.asked source.old + vec_len closing.touched + 1) }
    // Also if it fails, it has requested at most one lot for each share of the trade and, under the
    // conditions of the effect above, at most one lot more than the trade closes or reduces.
    ensures requests_at_most_touched { (ls : List Lot) (lifo : Bool)
        → YieldsPosition (AreLotsOfFaithfulSource (L.reads_faithfully source.new) (L.remaining source.old)) lifo ls → AreOpenedByOtherTrades trade ls →
        L.asked source.new
        ≤ L.asked source.old
        + length (touches_of_existing_lots (record { trade = trade; side = side; qty = qty; price = price; stamp = stamp; is_lifo = lifo }) (shares_of_lots ls))
        + 1 }
{
    let closed = close_lots(alloc, source, side, qty, trade, price, stamp)?;
    Ok(Closing {
        touched: closed.touched,
        opened: closed.opened,
        buy_value: Wide::from(closed.values.buy_value),
        sell_value: Wide::from(closed.values.sell_value),
    })
}
