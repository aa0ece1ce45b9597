//! The condition `Status`: each trade's history is a valid status sequence with strictly ascending
//! stamps, the trade's row has the status and the stamp of the last change, and no two completions,
//! deposits or withdrawals have the same stamp.

ghost use Rattle.std.specs.Prelude.{◌≡◌, ◌↔◌, ◌==◌, ℕ, ◌&&◌, ◌||◌, not, is_none, map, ◌++◌, nat_lt, IfOk, IsTrue, OnOk};
ghost use Rattle.std.specs.List.{prefix_len};
ghost use Rattle.std.specs.Ordering.{nat_cmp};
ghost use Rattle.std.specs.BTreeSet.{contains};
ghost use Rattle.brk_money.specs.Kinds.{is_same_trade_status};
ghost use Rattle.brk_money.specs.declared.fault.Condition.TheVariants as condition;
ghost use Rattle.brk_money.specs.declared.status.Status.TheVariants.{Completed};
ghost use Rattle.brk_model.specs.Audit.{ConditionHolds};
ghost use Rattle.brk_model.specs.Schemas.{Schema};
ghost use Rattle.brk_model.specs.Lists.{all_distinct};
ghost use Rattle.brk_audit_sums.specs.Conditions.{HasWellFormedRows};
ghost use Rattle.brk_audit.specs.Statuses as spec;
ghost use Rattle.brk_ref.specs.Rows.{abstract_history_row, abstract_cash_row, abstract_trade_row};
ghost use Rattle.brk_trade_rows.specs.Sheets.{abstract_sheets};

use brk_audit_sums::completion::is_completed;
use brk_money::{Id, Stamp, Status};
use brk_ref::{CashRow, HistoryRow, TradeRow};
use brk_trade_rows::Sheets;
use std::alloc::{AllocError, Global};
use std::collections::BTreeSet;

pub(crate) fn stamp_in_millis(stamp: Stamp) -> u64
    ensures { result ≡ stamp }
{
    stamp.get().unsigned_abs()
}

fn is_before(first: Stamp, second: Stamp) -> bool
    ensures { result ≡ nat_lt first second }
{
    first.get() < second.get()
}

fn can_be_first_status(status: Status) -> bool
    ensures { result ≡ spec.can_be_first_status status }
{
    matches!(status, Status::Submitted | Status::Pending)
}

fn has_last_change(trade: &TradeRow, row: HistoryRow) -> bool
    ensures { result ≡ spec.has_last_change (abstract_trade_row trade.now) (abstract_history_row row) }
{
    trade.status == row.status && trade.stamp == row.stamp
}

// The rows are sorted by the code of the status, as in TRADE_HISTORY, not by stamp.
fn is_valid_pair(trade: &TradeRow, a: HistoryRow, b: HistoryRow) -> bool
    ensures { result ≡ spec.is_valid_pair (abstract_trade_row trade.now) (abstract_history_row a) (abstract_history_row b) }
{
    match (a.status, b.status) {
        (Status::Completed, Status::Submitted) | (Status::Canceled, Status::Pending) => {
            is_before(b.stamp, a.stamp) && has_last_change(trade, a)
        }
        (Status::Pending, Status::Submitted) => {
            is_before(a.stamp, b.stamp) && has_last_change(trade, b)
        }
        _ => false,
    }
}

fn is_valid_triple(trade: &TradeRow, a: HistoryRow, b: HistoryRow, c: HistoryRow) -> bool
    ensures { result
        ≡ spec.is_valid_triple (abstract_trade_row trade.now) (abstract_history_row a) (abstract_history_row b) (abstract_history_row c) }
{
    match (a.status, b.status, c.status) {
        (Status::Completed, Status::Pending, Status::Submitted) => {
            is_before(b.stamp, c.stamp) && is_before(c.stamp, a.stamp) && has_last_change(trade, a)
        }
        _ => false,
    }
}

fn is_valid_trade_history(trade: &TradeRow, rows: &[HistoryRow]) -> bool
    ensures { result ≡ spec.is_valid_history (abstract_trade_row trade.now) (map abstract_history_row rows.now) }
{
    match rows {
        [only] => can_be_first_status(only.status) && has_last_change(trade, *only),
        [a, b] => is_valid_pair(trade, *a, *b),
        [a, b, c] => is_valid_triple(trade, *a, *b, *c),
        _ => false,
    }
}

// Counts only the rows at the front of `history`, up to the first of another trade.
fn row_count_of(history: &[HistoryRow], trade: Id) -> usize
    ensures { result ≡ prefix_len (λ h. h.trade == trade) history.now }
{
    for (i, row) in history.iter().enumerate() {
        if row.trade != trade {
            return i;
        }
    }
    history.len()
}

// Rows after those of the last trade are not checked: `Form` excludes them.
fn all_histories_are_valid(trades: &[TradeRow], history: &[HistoryRow]) -> bool
    ensures { result ≡ spec.all_histories_are_valid (map abstract_trade_row trades.now) (map abstract_history_row history.now) }
{
    let mut rest = history;
    for trade in trades {
        let (rows, others) = rest.split_at(row_count_of(rest, trade.id));
        if !is_valid_trade_history(trade, rows) {
            return false;
        }
        rest = others;
    }
    true
}

// Returns false at a completion whose stamp was seen before.
fn insert_completion_stamp(seen: &mut BTreeSet<u64>, row: &HistoryRow) -> Result<bool, AllocError>
    ensures new { IfOk result (λ new. new ≡ not (is_same_trade_status row.now.status Completed && contains nat_cmp seen.old row.now.stamp)) }
    ensures seen { OnOk result ((q : ℕ)
        → contains nat_cmp seen.new q ≡ contains nat_cmp seen.old q || (is_same_trade_status row.now.status Completed && (row.now.stamp == q))) }
{
    if !is_completed(row.status) {
        return Ok(true);
    }
    let new = seen.insert(stamp_in_millis(row.stamp))?;
    Ok(new)
}

// Returns false at a deposit or a withdrawal whose stamp was seen before.
fn insert_movement_stamp(seen: &mut BTreeSet<u64>, row: &CashRow) -> Result<bool, AllocError>
    ensures new { IfOk result (λ new. new ≡ not (is_none row.now.trade && contains nat_cmp seen.old row.now.stamp)) }
    ensures seen { OnOk result ((q : ℕ) → contains nat_cmp seen.new q ≡ contains nat_cmp seen.old q || (is_none row.now.trade && (row.now.stamp == q))) }
{
    if row.trade.is_some() {
        return Ok(true);
    }
    let new = seen.insert(stamp_in_millis(row.stamp))?;
    Ok(new)
}

fn stamps_distinct(
    alloc: Global,
    history: &[HistoryRow],
    moves: &[CashRow],
) -> Result<bool, AllocError>
    ensures { IfOk result (λ apart. apart
        ≡ all_distinct (spec.completion_stamps_of_history (map abstract_history_row history.now)
        ++ spec.movement_stamps_of_cash_rows (map abstract_cash_row moves.now))) }
{
    let mut seen = BTreeSet::new(alloc);
    for row in history {
        if !insert_completion_stamp(&mut seen, row)? {
            return Ok(false);
        }
    }
    for movement in moves {
        if !insert_movement_stamp(&mut seen, movement)? {
            return Ok(false);
        }
    }
    Ok(true)
}

pub(crate) fn meets_status(alloc: Global, sheets: &Sheets) -> Result<bool, AllocError>
    requires form { HasWellFormedRows sheets.now }
    ensures { IfOk result (λ holds. (schema : Schema) → IsTrue holds ↔ ConditionHolds schema condition.Status (abstract_sheets sheets.now)) }
{
    if !all_histories_are_valid(&sheets.trades, &sheets.history) {
        return Ok(false);
    }
    let apart = stamps_distinct(alloc, &sheets.history, &sheets.moves)?;
    Ok(apart)
}
