//! The condition `Lots`: the rows of HOLDING are exactly the lots that remain after the completed
//! trades.

ghost use Rattle.std.specs.Prelude.{◌≡◌, ◌++◌, ◌↔◌, IfOk, IsSome, IsTrue, OnOk, map};
ghost use Rattle.std.specs.List.{AllByRecursion, IsDistinct};
ghost use Rattle.std.specs.List.Sorted.{IsSortedBy};
ghost use Rattle.brk_audit_sums.specs.Conditions.{HasWellFormedRows, HasValidStatuses};
ghost use Rattle.brk_audit.specs.Positions.{AreLotsLeftByTrades, has_same_id_or_stamp, holding_row_in_position_of_trade, is_before_by_position};
ghost use Rattle.brk_ref.specs.Rows.{abstract_holding_row, abstract_trade_row};
ghost use Rattle.brk_trade_rows.specs.Sheets.{abstract_sheets};
ghost use Rattle.brk_lots.specs.Lots.{abstract_lot};
ghost use Rattle.brk_model.specs.Audit.{ConditionHolds};
ghost use Rattle.brk_model.specs.Schemas.{Schema};
ghost use Rattle.brk_money.specs.declared.fault.Condition.TheVariants.{Lots};

use crate::positions::{position_after, position_trade_count, sorted_completed_trades};
use brk_lots::Lot;
use brk_ref::{HoldingRow, TradeRow};
use brk_trade_rows::Sheets;
use std::alloc::{AllocError, Global};

// Of `trade` only the account and the symbol are used.
fn append_lots(held: &mut Vec<HoldingRow>, trade: &TradeRow, lots: &[Lot]) -> Result<(), AllocError>
    ensures { OnOk result (map abstract_holding_row held.new.items
        ≡ map abstract_holding_row held.old.items ++ map (holding_row_in_position_of_trade (abstract_trade_row trade.now)) (map abstract_lot lots.now)) }
{
    for lot in lots {
        held.push(HoldingRow {
            trade: lot.trade,
            account: trade.account,
            symbol: trade.symbol.clone()?,
            stamp: lot.stamp,
            price: lot.price,
            qty: lot.qty,
        })?;
    }
    Ok(())
}

// Executes the trades of each position from no lots.
fn final_lots(alloc: Global, done: &[&TradeRow]) -> Result<Vec<HoldingRow>, AllocError>
    // The trades are sorted, no two have the same id or stamp, and each has a price.
    requires order { IsSortedBy (λ one other. is_before_by_position (abstract_trade_row one.now) (abstract_trade_row other.now)) done.now }
    requires apart { IsDistinct has_same_id_or_stamp (map (λ row. abstract_trade_row row.now) done.now) }
    requires priced { AllByRecursion (λ row. IsSome row.now.price) done.now }

    // At `Ok` the lots that remain after exactly these trades; the only fault is `Memory`.
    ensures { IfOk result (λ held. AreLotsLeftByTrades (map (λ row. abstract_trade_row row.now) done.now) (map abstract_holding_row held.items)) }
{
    let mut held = Vec::new(alloc);
    let mut begin = 0;
    while begin < done.len() {
        let trade = done[begin];
        let end = begin + 1 + position_trade_count(trade, &done[begin + 1..]);
        let position = position_after(alloc, &done[begin..end])?;
        append_lots(&mut held, trade, position.lots())?;
        begin = end;
    }
    Ok(held)
}

fn holding_equals(one: &HoldingRow, other: &HoldingRow) -> bool
    ensures { IsTrue result ↔ (abstract_holding_row one.now ≡ abstract_holding_row other.now) }
{
    one.trade == other.trade
        && one.account == other.account
        && one.symbol.as_str() == other.symbol.as_str()
        && one.stamp == other.stamp
        && one.price == other.price
        && one.qty == other.qty
}

fn holdings_equal(rows: &[HoldingRow], others: &[HoldingRow]) -> bool
    ensures { IsTrue result ↔ (map abstract_holding_row rows.now ≡ map abstract_holding_row others.now) }
{
    if rows.len() != others.len() {
        return false;
    }
    for (i, row) in rows.iter().enumerate() {
        if !holding_equals(row, &others[i]) {
            return false;
        }
    }
    true
}

pub(crate) fn meets_lots(alloc: Global, sheets: &Sheets) -> Result<bool, AllocError>
    requires form { HasWellFormedRows sheets.now }
    requires status { HasValidStatuses sheets.now }
    ensures { IfOk result (λ holds. (schema : Schema) → IsTrue holds ↔ ConditionHolds schema Lots (abstract_sheets sheets.now)) }
{
    let done = sorted_completed_trades(alloc, &sheets.trades)?;
    let mut held = final_lots(alloc, &done)?;
    held.sort_unstable_by_key(|row| row.trade.get());
    Ok(holdings_equal(&held, &sheets.holdings))
}
