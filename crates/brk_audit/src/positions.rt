//! The completed trades, position by position; a position is an account with a security.

ghost use Rattle.std.specs.Prelude.{◌≡◌, ◌≤◌, IfOk, IsPermutation, IsSome, drop, false, filter, length, map, take, true};
ghost use Rattle.std.specs.List.{AllByRecursion};
ghost use Rattle.std.specs.List.Sorted.{IsSortedBy};
ghost use Rattle.std.specs.Ordering.{is_lt};
ghost use Rattle.brk_audit_sums.specs.Completed.{is_completed_trade_row};
ghost use Rattle.brk_audit.specs.Positions.{FirstElementSatisfies, is_before_by_position, deal_of_completed_row, has_same_position};
ghost use Rattle.brk_ref.specs.Rows.{abstract_trade_row};
ghost use Rattle.brk_lots.specs.Deals.{AreDistinctAscendingDeals};
ghost use Rattle.brk_lots.specs.Lots.{abstract_deal, shares_of_lots};
ghost use Rattle.brk_model.specs.Shares.{replay};

use brk_lots::{Deal, Position};
use brk_money::Status;
use brk_ref::TradeRow;
use std::alloc::{AllocError, Global};
use std::cmp::Ordering;

fn collect_completed(alloc: Global, trades: &[TradeRow]) -> Result<Vec<&TradeRow>, AllocError>
    ensures { IfOk result (λ done. map (λ row. abstract_trade_row row.now) done.items
        ≡ filter is_completed_trade_row (map abstract_trade_row trades.now)) }
{
    let mut done = Vec::new(alloc);
    for row in trades {
        if row.status == Status::Completed {
            done.push(row)?;
        }
    }
    Ok(done)
}

// By account, then by symbol, then by stamp.
fn position_order(one: &TradeRow, other: &TradeRow) -> Ordering
    ensures { is_lt result ≡ is_before_by_position (abstract_trade_row one.now) (abstract_trade_row other.now) }
{
    let accounts = one.account.get().cmp(&other.account.get());
    let symbols = one.symbol.as_str().cmp(other.symbol.as_str());
    let moments = one
        .stamp
        .get()
        .unsigned_abs()
        .cmp(&other.stamp.get().unsigned_abs());
    accounts.then(symbols.then(moments))
}

fn sort_by_position(done: &mut Vec<&TradeRow>)
    ensures permutation { IsPermutation done.old.items done.new.items }
    ensures order { IsSortedBy (λ one other. is_before_by_position (abstract_trade_row one.now) (abstract_trade_row other.now)) done.new.items }
{
    done.sort_unstable_by(|one, other| position_order(one, other));
}

/// Sorts by account, then by symbol, then by stamp.
pub(crate) fn sorted_completed_trades(
    alloc: Global,
    trades: &[TradeRow],
) -> Result<Vec<&TradeRow>, AllocError>
    ensures done { IfOk result (λ done.
        IsPermutation (filter is_completed_trade_row (map abstract_trade_row trades.now)) (map (λ row. abstract_trade_row row.now) done.items)) }
    ensures order { IfOk result (λ done.
        IsSortedBy (λ one other. is_before_by_position (abstract_trade_row one.now) (abstract_trade_row other.now)) done.items) }
{
    let mut done = collect_completed(alloc, trades)?;
    sort_by_position(&mut done);
    Ok(done)
}

fn positions_equal(one: &TradeRow, other: &TradeRow) -> bool
    ensures { result ≡ has_same_position (abstract_trade_row one.now) (abstract_trade_row other.now) }
{
    one.account == other.account && one.symbol.as_str() == other.symbol.as_str()
}

// Returns how many trades at the front of `done` have the account and the security of `trade`.
pub(crate) fn position_trade_count(trade: &TradeRow, done: &[&TradeRow]) -> usize
    ensures within { result ≤ length done.now }
    ensures same { AllByRecursion (λ other. has_same_position (abstract_trade_row trade.now) (abstract_trade_row other.now) ≡ true) (take result done.now) }
    ensures next { FirstElementSatisfies (λ other. has_same_position (abstract_trade_row trade.now) (abstract_trade_row other.now)
        ≡ false) (drop result done.now) }
{
    for (i, other) in done.iter().enumerate() {
        if !positions_equal(trade, other) {
            return i;
        }
    }
    done.len()
}

pub(crate) fn completed_deal(row: &TradeRow) -> Deal
    requires { IsSome row.now.price }
    ensures { abstract_deal result ≡ deal_of_completed_row (abstract_trade_row row.now) }
{
    Deal {
        trade: row.id,
        side: row.kind.side(),
        qty: row.qty,
        price: row.price.unwrap(),
        stamp: row.stamp,
        lifo: row.is_lifo,
    }
}

pub(crate) fn deals_of_trades(alloc: Global, run: &[&TradeRow]) -> Result<Vec<Deal>, AllocError>
    requires { AllByRecursion (λ row. IsSome row.now.price) run.now }
    ensures { IfOk result (λ deals. map abstract_deal deals.items ≡ map (λ row. deal_of_completed_row (abstract_trade_row row.now)) run.now) }
{
    let mut deals = Vec::with_capacity(alloc, run.len())?;
    for row in run {
        deals.push(completed_deal(row))?;
    }
    Ok(deals)
}

/// Executes the trades in order from no lots.
pub(crate) fn position_after(alloc: Global, run: &[&TradeRow]) -> Result<Position, AllocError>
    requires priced { AllByRecursion (λ row. IsSome row.now.price) run.now }
    requires deals { AreDistinctAscendingDeals (map (λ row. deal_of_completed_row (abstract_trade_row row.now)) run.now) }
    ensures shares { IfOk result (λ position. shares_of_lots position ≡ replay (map (λ row. deal_of_completed_row (abstract_trade_row row.now)) run.now)) }
{
    let deals = deals_of_trades(alloc, run)?;
    match Position::replay(alloc, &deals) {
        Ok(position) => Ok(position),
        Err(_) => Err(AllocError),
    }
}
