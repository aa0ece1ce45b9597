//! Totals of rows that are sums over trades by key.

ghost use Rattle.std.specs.Prelude.{◌≡◌, ◌↔◌, ℕ, ℤ, IfOk, IsTrue, Option};
ghost use Rattle.std.specs.BTreeMap.{BTreeMap};
ghost use Rattle.std.specs.List.{AllByRecursion, filter_map};
ghost use Rattle.brk_model.specs.Tables as tables;
ghost use Rattle.brk_ref.specs.Rows.{abstract_trade_row};
ghost use Rattle.brk_audit_sums.specs.declared.account_terms.AccountTerms as terms;
ghost use Rattle.brk_audit_sums.specs.declared.tally.KeyedAmount as posting;

use crate::account_terms::AccountTerms;
use crate::tally::KeyedAmount;
use brk_ref::TradeRow;
use std::alloc::{AllocError, Global};
use std::collections::BTreeMap;

/// A column of totals: each trade may post an amount at a key, and each row has a total that
/// follows from the sum of the amounts at its key.
pub(crate) trait KeyedSum {
    /// A row that has a total.
    type Total;

    /// The amount that a row of TRADE posts by the terms of the accounts, or `None` if it posts
    /// none.
    ghost posting_of: { BTreeMap ℕ terms.AccountTerms → tables.TradeRow → Option (posting.KeyedAmount ℕ) };

    /// Holds if the total of a row follows from the sum at its key in the map. A key that the map
    /// does not contain has the sum 0.
    ghost has_sum: { BTreeMap ℕ ℤ → Self.Total → Type 0 };

    fn posting_of_trade(
        terms: &BTreeMap<u64, AccountTerms>,
        trade: &TradeRow,
    ) -> Option<KeyedAmount<u64>>
        ensures { result ≡ posting_of terms.now (abstract_trade_row trade.now) };

    fn matches_sum(sums: &BTreeMap<u64, i128>, row: &Self::Total) -> bool
        ensures { IsTrue result ↔ has_sum sums.now row.now };
}

pub(crate) fn trade_postings<S: KeyedSum>(
    alloc: Global,
    terms: &BTreeMap<u64, AccountTerms>,
    trades: &[TradeRow],
) -> Result<Vec<KeyedAmount<u64>>, AllocError>
    ensures all { IfOk result (λ all. all.items ≡ filter_map (λ r. S.posting_of terms.now (abstract_trade_row r)) trades.now) }
{
    let all = trades
        .iter()
        .filter_map(|trade| S::posting_of_trade(terms, trade))
        .collect(alloc)?;
    Ok(all)
}

pub(crate) fn all_match_sums<S: KeyedSum>(sums: &BTreeMap<u64, i128>, rows: &[S::Total]) -> bool
    ensures { IsTrue result ↔ AllByRecursion (S.has_sum sums.now) rows.now }
{
    for row in rows {
        if !S::matches_sum(sums, row) {
            return false;
        }
    }
    true
}
