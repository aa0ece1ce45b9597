//! The condition `History`: the rows of HOLDING_HISTORY are exactly the lot changes of the
//! completed trades.

ghost use Rattle.std.specs.Prelude.{◌≡◌, ◌++◌, ◌↔◌, IfOk, IsPermutation, IsSome, IsTrue, OnOk, [], map};
ghost use Rattle.std.specs.List.{AllByRecursion, IsDistinct};
ghost use Rattle.std.specs.List.Sorted.{IsSortedBy};
ghost use Rattle.std.specs.Ordering.{is_lt};
ghost use Rattle.brk_audit_sums.specs.Conditions.{HasWellFormedRows, HasValidStatuses};
ghost use Rattle.brk_audit.specs.Positions.{AreLotChangesOfTrades, has_same_id_or_stamp, is_before_by_position, deal_of_completed_row};
ghost use Rattle.brk_ref.specs.Rows.{abstract_lot_change_row, abstract_trade_row};
ghost use Rattle.brk_trade_rows.specs.Sheets.{abstract_sheets};
ghost use Rattle.brk_lots.specs.Chains.{abstract_deal_touch, lot_changes_of_deals};
ghost use Rattle.brk_lots.specs.Deals.{AreDistinctAscendingDeals};
ghost use Rattle.brk_model.specs.Audit.{ConditionHolds};
ghost use Rattle.brk_model.specs.Schemas.{Schema};
ghost use Rattle.brk_model.specs.Keys.{holding_history_key, is_row_key_less};
ghost use Rattle.brk_money.specs.declared.fault.Condition.TheVariants.{History};

use crate::positions::{deals_of_trades, position_trade_count, sorted_completed_trades};
use brk_lots::{DealTouch, Position};
use brk_ref::{LotChange, TradeRow};
use brk_trade_rows::Sheets;
use std::alloc::{AllocError, Global};
use std::cmp::Ordering;

// `run` is all completed trades of one position, in order.
fn append_lot_changes(
    alloc: Global,
    rows: &mut Vec<DealTouch>,
    run: &[&TradeRow],
) -> Result<(), AllocError>
    requires priced { AllByRecursion (λ row. IsSome row.now.price) run.now }
    requires deals { AreDistinctAscendingDeals (map (λ row. deal_of_completed_row (abstract_trade_row row.now)) run.now) }
    ensures added { OnOk result (map abstract_deal_touch rows.new.items
        ≡ map abstract_deal_touch rows.old.items ++ lot_changes_of_deals (map (λ row. deal_of_completed_row (abstract_trade_row row.now)) run.now) []) }
{
    let deals = deals_of_trades(alloc, run)?;
    let _ = Position::replay_with_changes(alloc, &deals, rows)?;
    Ok(())
}

// Executes the trades of each position from no lots.
fn all_lot_changes(alloc: Global, done: &[&TradeRow]) -> Result<Vec<DealTouch>, AllocError>
    // The trades are sorted, no two have the same id or stamp, and each has a price.
    requires order { IsSortedBy (λ one other. is_before_by_position (abstract_trade_row one.now) (abstract_trade_row other.now)) done.now }
    requires apart { IsDistinct has_same_id_or_stamp (map (λ row. abstract_trade_row row.now) done.now) }
    requires priced { AllByRecursion (λ row. IsSome row.now.price) done.now }

    // At `Ok` the lot changes of exactly these trades; the only fault is `Memory`.
    ensures { IfOk result (λ rows. AreLotChangesOfTrades (map (λ row. abstract_trade_row row.now) done.now) (map abstract_deal_touch rows.items)) }
{
    let mut rows = Vec::new(alloc);
    let mut begin = 0;
    while begin < done.len() {
        let trade = done[begin];
        let end = begin + 1 + position_trade_count(trade, &done[begin + 1..]);
        append_lot_changes(alloc, &mut rows, &done[begin..end])?;
        begin = end;
    }
    Ok(rows)
}

fn compare_touch_keys(one: &DealTouch, other: &DealTouch) -> Ordering
    ensures { is_lt result ≡ is_row_key_less holding_history_key (abstract_deal_touch one.now) (abstract_deal_touch other.now) }
{
    let lots = one.touch.lot.get().cmp(&other.touch.lot.get());
    let trades = one.trade.get().cmp(&other.trade.get());
    lots.then(trades)
}

fn sort_lot_changes(rows: &mut Vec<DealTouch>)
    ensures permutation { IsPermutation rows.old.items rows.new.items }
    ensures order { IsSortedBy (λ one other. is_row_key_less holding_history_key (abstract_deal_touch one) (abstract_deal_touch other)) rows.new.items }
{
    rows.sort_unstable_by(|one, other| compare_touch_keys(one, other));
}

fn touch_equals(touch: &DealTouch, row: &LotChange) -> bool
    ensures { IsTrue result ↔ (abstract_deal_touch touch.now ≡ abstract_lot_change_row row.now) }
{
    touch.touch.lot == row.lot
        && touch.trade == row.trade
        && touch.touch.before == row.before
        && touch.touch.after == row.after
}

fn touches_equal(touches: &[DealTouch], rows: &[LotChange]) -> bool
    ensures { IsTrue result ↔ (map abstract_deal_touch touches.now ≡ map abstract_lot_change_row rows.now) }
{
    if touches.len() != rows.len() {
        return false;
    }
    for (i, touch) in touches.iter().enumerate() {
        if !touch_equals(touch, &rows[i]) {
            return false;
        }
    }
    true
}

pub(crate) fn meets_history(alloc: Global, sheets: &Sheets) -> Result<bool, AllocError>
    requires form { HasWellFormedRows sheets.now }
    requires status { HasValidStatuses sheets.now }
    ensures { IfOk result (λ holds. (schema : Schema) → IsTrue holds ↔ ConditionHolds schema History (abstract_sheets sheets.now)) }
{
    let done = sorted_completed_trades(alloc, &sheets.trades)?;
    let mut rows = all_lot_changes(alloc, &done)?;
    sort_lot_changes(&mut rows);
    Ok(touches_equal(&rows, &sheets.holding_history))
}
