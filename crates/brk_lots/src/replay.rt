//! The replay of deals from no lots, and the changes of lots that it makes.

ghost use Rattle.std.specs.Prelude.{◌≡◌, ◌≢◌, ◌<◌, ◌++◌, [], map, IfOk, IfErr, OnOk};
ghost use Rattle.std.specs.List.{AllByRecursion};
ghost use Rattle.std.specs.Option.{option_to_list};
ghost use Rattle.brk_model.specs.Shares.{replay, shares_after_deal};
ghost use Rattle.brk_model.specs.Tables.{holding_history_row};
ghost use Rattle.brk_lots.specs.Chains.{opening_touch, abstract_deal_touch, lot_changes_of_deal, lot_changes_of_deals};
ghost use Rattle.brk_lots.specs.Deals.{AreDistinctAscendingDeals};
ghost use Rattle.brk_lots.specs.Lots.{shares_of_lots, abstract_deal, abstract_lot, abstract_touch};

use crate::closing::{Closing, close};
use crate::deal::Deal;
use crate::lot::{Lot, Touch};
use crate::position::Position;
use brk_money::{Fault, Id};
use std::alloc::{AllocError, Global};

/// A change of a lot by the trade that closed, reduced or opened the lot.
#[derive(Clone, Copy)]
pub struct DealTouch {
    pub trade: Id,
    pub touch: Touch,
}

fn append_closings(
    rows: &mut Vec<DealTouch>,
    trade: Id,
    touched: &[Touch],
) -> Result<(), AllocError>
    ensures added { OnOk result (map abstract_deal_touch rows.new.items
        ≡ map abstract_deal_touch rows.old.items ++ map (holding_history_row trade) (map abstract_touch touched.now)) }
{
    for touch in touched {
        rows.push(DealTouch {
            trade,
            touch: *touch,
        })?;
    }
    Ok(())
}

fn append_opening(
    rows: &mut Vec<DealTouch>,
    trade: Id,
    opened: Option<Lot>,
) -> Result<(), AllocError>
    ensures added { OnOk result (map abstract_deal_touch rows.new.items
        ≡ map abstract_deal_touch rows.old.items ++ map (holding_history_row trade) (map opening_touch (map abstract_lot (option_to_list opened)))) }
{
    if let Some(lot) = opened {
        let touch = Touch {
            lot: lot.trade,
            before: 0,
            after: lot.qty,
        };
        rows.push(DealTouch { trade, touch })?;
    }
    Ok(())
}

fn append_changes(rows: &mut Vec<DealTouch>, trade: Id, closing: &Closing) -> Result<(), AllocError>
    ensures added { OnOk result (map abstract_deal_touch rows.new.items ≡ map abstract_deal_touch rows.old.items
        ++ map (holding_history_row trade) (map abstract_touch closing.now.touched.items
        ++ map opening_touch (map abstract_lot (option_to_list closing.now.opened)))) }
{
    append_closings(rows, trade, &closing.touched)?;
    append_opening(rows, trade, closing.opened)
}

impl Position {
    /// Returns the position after `deals`, applied in sequence to the empty position.
    pub fn replay(alloc: Global, deals: &[Deal]) -> Result<Position, Fault>
        requires { AreDistinctAscendingDeals (map abstract_deal deals.now) }
        ensures shares { IfOk result (λ position. shares_of_lots position ≡ replay (map abstract_deal deals.now)) }
        ensures fault { IfErr result (λ fault. fault ≡ Fault.Memory) }
    {
        let mut rows = Vec::new(alloc);
        Ok(Position::replay_with_changes(alloc, deals, &mut rows)?)
    }

    /// Replays `deals` as `replay` does, and appends the changes of lots by each deal in sequence:
    /// those of the lots that it closes or reduces, then the one that opens its own lot. A call
    /// that fails may have appended some of them.
    pub fn replay_with_changes(
        alloc: Global,
        deals: &[Deal],
        rows: &mut Vec<DealTouch>,
    ) -> Result<Position, AllocError>
        requires { AreDistinctAscendingDeals (map abstract_deal deals.now) }
        ensures shares { IfOk result (λ position. shares_of_lots position ≡ replay (map abstract_deal deals.now)) }
        ensures rows { OnOk result (map abstract_deal_touch rows.new.items
            ≡ map abstract_deal_touch rows.old.items ++ lot_changes_of_deals (map abstract_deal deals.now) []) }
    {
        let mut position = Position::new(alloc);
        for deal in deals {
            position.apply_deal(alloc, deal, rows)?;
        }
        Ok(position)
    }

    // Applies a deal that is later than each share and of another trade, and appends the changes of
    // lots. A call that fails may have appended some of them.
    fn apply_deal(
        &mut self,
        alloc: Global,
        deal: &Deal,
        rows: &mut Vec<DealTouch>,
    ) -> Result<(), AllocError>
        requires { AllByRecursion (λ share. (share.trade ≢ deal.now.trade) × (share.stamp < deal.now.stamp)) (shares_of_lots self.old) }
        ensures shares { OnOk result (shares_of_lots self.new ≡ shares_after_deal (shares_of_lots self.old) (abstract_deal deal.now)) }
        ensures rows { OnOk result (map abstract_deal_touch rows.new.items
            ≡ map abstract_deal_touch rows.old.items ++ lot_changes_of_deal (abstract_deal deal.now) (shares_of_lots self.old)) }
    {
        let mut end = self.from_end(deal.lifo);
        let Ok(closing) = close(
            alloc, &mut end, deal.side, deal.qty, deal.trade, deal.price, deal.stamp,
        ) else {
            return Err(AllocError);
        };
        let Ok(()) = self.apply(&closing) else {
            return Err(AllocError);
        };
        append_changes(rows, deal.trade, &closing)?;
        Ok(())
    }
}
