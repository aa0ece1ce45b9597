//! The check that a trade closes lots, and the effect and the values of one that closes none.

ghost use Rattle.std.specs.Prelude.{◌≡◌, List, Bool, false};
ghost use Rattle.brk_model.specs.Shares as model;
ghost use Rattle.brk_lots.specs.declared.lot.Lot.{Lot};
ghost use Rattle.brk_lots.specs.Against.{is_trade_closing_lots};
ghost use Rattle.brk_lots.specs.Books.{lot_quantity_sum};
ghost use Rattle.brk_lots.specs.Closing.{IsEffectOfDealOnLots};
ghost use Rattle.brk_lots.specs.Lots.{shares_of_lots};
ghost use Rattle.brk_lots.specs.Position.{AreOpenedByOtherTrades, IsPositionInAnyOrder};
ghost use Rattle.brk_lots.specs.Values.{closing_values_of_deal};

use crate::closed_values::Values;
use crate::closing::{ClosedLots, opened_lot};
use brk_money::{Amount, Id, Price, Qty, Side, Stamp};
use std::alloc::Global;

/// Returns true if a trade of the side closes lots of a position that holds `held` shares (HS_QTY),
/// below 0 if they were sold short.
pub fn is_trade_closing_lots(side: Side, held: i64) -> bool
    ensures { result ≡ is_trade_closing_lots side held }
{
    match side {
        Side::Buy => held < 0,
        Side::Sell => held > 0,
    }
}

/// Returns the effect of a trade that closes no lot: it opens a lot of all its shares
/// (Trade-Result). The caller checks with `is_trade_closing_lots` that it closes none.
pub fn opening_effect(
    alloc: Global,
    side: Side,
    qty: Qty,
    trade: Id,
    price: Price,
    stamp: Stamp,
) -> ClosedLots
    ensures closed { (ls : List Lot) (lifo : Bool) → IsPositionInAnyOrder ls → AreOpenedByOtherTrades trade ls
        → is_trade_closing_lots side (lot_quantity_sum ls) ≡ false →
        IsEffectOfDealOnLots (record { trade = trade; side = side; qty = qty; price = price; stamp = stamp; is_lifo = lifo }) ls result }
    ensures bought { result.values.buy_value ≡ 0 }
    ensures sold { result.values.sell_value ≡ 0 }
{
    ClosedLots {
        touched: Vec::new(alloc),
        opened: opened_lot(side, qty.get(), trade, price, stamp),
        values: zero_values(),
    }
}

/// Returns the values of a trade that closes no lot, which the caller checks with
/// `is_trade_closing_lots`.
pub fn zero_values() -> Values
    ensures values { (d : model.Deal) (ls : List Lot) → IsPositionInAnyOrder ls → is_trade_closing_lots d.side (lot_quantity_sum ls) ≡ false
        → result ≡ closing_values_of_deal d (shares_of_lots ls) }
    ensures bought { result.buy_value ≡ 0 }
    ensures sold { result.sell_value ≡ 0 }
{
    Values {
        buy_value: Amount::new(0).unwrap(),
        sell_value: Amount::new(0).unwrap(),
    }
}
