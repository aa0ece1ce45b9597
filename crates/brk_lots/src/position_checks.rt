//! The checks that lots form a position, and that a trade is later than all of them.

ghost use Rattle.std.specs.Prelude.{◌≡◌, ◌≢◌, ◌<◌, IsTrue, IsPermutation, ◌↔◌};
ghost use Rattle.std.specs.List.{All};
ghost use Rattle.std.specs.List.Sorted.{IsNonDecreasingBy};
ghost use Rattle.brk_lots.specs.Order.{IsOneSidedAndAscending, NeighboursDifferInTrade, FirstLotSatisfies, PrecedesOnSameSide};
ghost use Rattle.brk_lots.specs.Position.{IsPosition};

use crate::lot::{Lot, are_same_side};
use brk_money::{Id, Stamp};

// Returns true if the next lot, if there is one, has the same side and a later stamp.
fn precedes_next(lot: &Lot, rest: &[Lot]) -> bool
    ensures { IsTrue result ↔ FirstLotSatisfies (PrecedesOnSameSide lot.now) rest.now }
{
    match rest {
        [] => true,
        [next, ..] => are_same_side(next.side(), lot.side()) && lot.stamp.get() < next.stamp.get(),
    }
}

// Returns false also if a lot has 0 shares.
fn is_one_sided_ascending(lots: &[Lot]) -> bool
    ensures { IsTrue result ↔ IsOneSidedAndAscending lots.now }
{
    for (i, lot) in lots.iter().enumerate() {
        if lot.qty == 0 || !precedes_next(lot, &lots[i + 1..]) {
            return false;
        }
    }
    true
}

fn differs_from_next(trade: Id, rest: &[Lot]) -> bool
    ensures { IsTrue result ↔ FirstLotSatisfies (λ l. l.trade ≢ trade) rest.now }
{
    match rest {
        [] => true,
        [next, ..] => next.trade != trade,
    }
}

fn neighbours_differ_in_trade(lots: &[Lot]) -> bool
    ensures { IsTrue result ↔ NeighboursDifferInTrade lots.now }
{
    for (i, lot) in lots.iter().enumerate() {
        if !differs_from_next(lot.trade, &lots[i + 1..]) {
            return false;
        }
    }
    true
}

fn sort_by_trades(lots: &mut [Lot])
    ensures permutation { IsPermutation lots.old lots.new }
    ensures order { IsNonDecreasingBy (λ l. l.trade) lots.new }
{
    lots.sort_unstable_by_key(|lot| lot.trade.get());
}

fn sort_by_stamps(lots: &mut [Lot])
    ensures permutation { IsPermutation lots.old lots.new }
    ensures order { IsNonDecreasingBy (λ l. l.stamp) lots.new }
{
    lots.sort_unstable_by_key(|lot| lot.stamp.get().unsigned_abs());
}

// Sorts the lots by trade, to compare neighbours alone, and then by stamp again.
pub(crate) fn is_position(lots: &mut [Lot]) -> bool
    ensures lots { lots.new ≡ lots.old }
    ensures position { IsTrue result ↔ IsPosition lots.old }
{
    if !is_one_sided_ascending(lots) {
        return false;
    }
    sort_by_trades(lots);
    let distinct = neighbours_differ_in_trade(lots);
    sort_by_stamps(lots);
    distinct
}

pub(crate) fn is_later_trade(lots: &[Lot], trade: Id, stamp: Stamp) -> bool
    ensures { IsTrue result ↔ All (λ l. (l.trade ≢ trade) × (l.stamp < stamp)) lots.now }
{
    lots.iter()
        .all(|l| l.trade != trade && l.stamp.get() < stamp.get())
}
