//! The condition `Summary`, on the holding summaries of positions in shares: a purchase counts
//! above 0, a sale below. Also the conjunction of three tests, which the condition `Cash` uses too.

ghost use Rattle.std.specs.Prelude.{◌≡◌, ◌↔◌, false, IfOk, IsTrue, map, option_map};
ghost use Rattle.std.specs.List.{AllByRecursion, filter_map};
ghost use Rattle.brk_money.specs.declared.fault.Condition.TheVariants.{Summary};
ghost use Rattle.brk_model.specs.Audit.{ConditionHolds};
ghost use Rattle.brk_model.specs.Schemas.{Schema};
ghost use Rattle.brk_model.specs.Lists.{is_zero};
ghost use Rattle.brk_model.specs.Shares.{signed_by_side};
ghost use Rattle.brk_ref.specs.Rows.{abstract_summary_row, abstract_trade_row};
ghost use Rattle.brk_trade_rows.specs.Sheets.{abstract_sheets};
ghost use Rattle.brk_audit_sums.specs.Conditions.{HasWellFormedRows, HasValidStatuses};
ghost use Rattle.brk_audit_sums.specs.PositionSums.{posting_with_owned_symbol, share_posting_of_trade, share_posting_of_summary};
ghost use Rattle.brk_audit_sums.specs.Tally.{sum_at_key};

use crate::completion::is_completed;
use crate::tally::{KeyedAmount, sum_at, sum_by_key};
use brk_money::Side;
use brk_ref::{SummaryRow, TradeRow};
use brk_trade_rows::Sheets;
use std::alloc::{AllocError, Global};
use std::collections::BTreeMap;

fn signed_shares(side: Side, qty: u32) -> i64
    ensures { result ≡ signed_by_side side qty }
{
    match side {
        Side::Buy => i64::from(qty),
        Side::Sell => -i64::from(qty),
    }
}

fn share_posting(trade: &TradeRow) -> Option<KeyedAmount<(u64, &str)>>
    ensures { option_map posting_with_owned_symbol result ≡ share_posting_of_trade (abstract_trade_row trade.now) }
{
    if !is_completed(trade.status) {
        return None;
    }
    let key = (trade.account.get(), trade.symbol.as_str());
    let amount = signed_shares(trade.kind.side(), trade.qty.get());
    Some(KeyedAmount { key, amount })
}

fn share_postings<'a>(
    alloc: Global,
    trades: &'a [TradeRow],
) -> Result<Vec<KeyedAmount<(u64, &'a str)>>, AllocError>
    ensures all { IfOk result (λ all. map posting_with_owned_symbol all.items ≡ filter_map (λ r. share_posting_of_trade (abstract_trade_row r)) trades.now) }
{
    let mut all = Vec::new(alloc);
    for trade in trades {
        if let Some(posting) = share_posting(trade) {
            all.push(posting)?;
        }
    }
    Ok(all)
}

// Returns the quantity of the holding summary as a posting at its account and symbol.
fn summary_posting(row: &SummaryRow) -> KeyedAmount<(u64, &str)>
    ensures { posting_with_owned_symbol result ≡ share_posting_of_summary (abstract_summary_row row.now) }
{
    let key = (row.account.get(), row.symbol.as_str());
    let amount = row.qty;
    KeyedAmount { key, amount }
}

fn summary_postings<'a>(
    alloc: Global,
    rows: &'a [SummaryRow],
) -> Result<Vec<KeyedAmount<(u64, &'a str)>>, AllocError>
    ensures { IfOk result (λ all. map posting_with_owned_symbol all.items ≡ map (λ r. share_posting_of_summary (abstract_summary_row r)) rows.now) }
{
    let mut all = Vec::new(alloc);
    for row in rows {
        all.push(summary_posting(row))?;
    }
    Ok(all)
}

// Compares the sums at the keys of `postings` only.
fn sums_agree<K: Ord + Copy>(
    sums: &BTreeMap<K, i128>,
    claimed: &BTreeMap<K, i128>,
    postings: &[KeyedAmount<K>],
) -> bool
    ensures { IsTrue result ↔ AllByRecursion (λ p. sum_at_key K.cmp sums.now p.key ≡ sum_at_key K.cmp claimed.now p.key) postings.now }
{
    for posting in postings {
        if sum_at(sums, posting.key) != sum_at(claimed, posting.key) {
            return false;
        }
    }
    true
}

fn is_nonzero(qty: i64) -> bool
    ensures { IsTrue result ↔ (is_zero qty ≡ false) }
{
    qty != 0
}

fn has_no_zero(rows: &[SummaryRow]) -> bool
    ensures { IsTrue result ↔ AllByRecursion (λ r. is_zero r.qty ≡ false) rows.now }
{
    for row in rows {
        if !is_nonzero(row.qty) {
            return false;
        }
    }
    true
}

/// Returns `one && other && last`; its clause names the three apart.
pub fn all_three(one: bool, other: bool, last: bool) -> bool
    ensures { IsTrue result ↔ (IsTrue one × IsTrue other × IsTrue last) }
{
    one && other && last
}

/// Returns true if the rows satisfy the condition `Summary`, which is the same in all schemas: the
/// holding summaries of a position sum to the shares that its completed trades bought minus those
/// that they sold, and none is 0. Compares the sums at the keys of all trades and of all summaries.
pub fn meets_summary(alloc: Global, sheets: &Sheets) -> Result<bool, AllocError>
    requires form { HasWellFormedRows sheets.now }
    requires status { HasValidStatuses sheets.now }
    ensures { IfOk result (λ holds. (schema : Schema) → IsTrue holds ↔ ConditionHolds schema Summary (abstract_sheets sheets.now)) }
{
    let postings = share_postings(alloc, &sheets.trades)?;
    let claims = summary_postings(alloc, &sheets.summaries)?;
    let sums = sum_by_key(alloc, &postings)?;
    let told = sum_by_key(alloc, &claims)?;
    let each_trade = sums_agree(&sums, &told, &postings);
    let each_row = sums_agree(&sums, &told, &claims);
    let shares = has_no_zero(&sheets.summaries);
    Ok(all_three(each_trade, each_row, shares))
}
