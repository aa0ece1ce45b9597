//! The condition `Balance`, on the balances of accounts in cents.

ghost use Rattle.std.specs.Prelude.{◌≡◌, ◌↔◌, ◌++◌, IfOk, IsTrue, OnOk, ◌+ℤ◌};
ghost use Rattle.std.specs.List.{filter_map};
ghost use Rattle.std.specs.Ordering.{nat_cmp};
ghost use Rattle.brk_money.specs.declared.fault.Condition.TheVariants.{Balance};
ghost use Rattle.brk_model.specs.Audit.{ConditionHolds};
ghost use Rattle.brk_model.specs.Schemas.{Schema};
ghost use Rattle.brk_ref.specs.Rows.{abstract_cash_row};
ghost use Rattle.brk_trade_rows.specs.Sheets.{abstract_sheets};
ghost use Rattle.brk_audit_sums.specs.AccountTerms.{account_tax_status_in_terms};
ghost use Rattle.brk_audit_sums.specs.Conditions.{HasWellFormedRows, HasValidStatuses};
ghost use Rattle.brk_audit_sums.specs.Sums.{cash_posting_of_trade_row, movement_posting_of_row};
ghost use Rattle.brk_audit_sums.specs.Tally.{sum_at_key};

use crate::account_terms::{AccountTerms, tax_status_of, terms_by_id};
use crate::amounts::settlement_amount_of_trade;
use crate::completion::is_completed;
use crate::keyed_sum::{KeyedSum, all_match_sums, trade_postings};
use crate::tally::{KeyedAmount, sum_at, sum_by_key};
use brk_ref::{AccountRow, CashRow, TradeRow};
use brk_trade_rows::Sheets;
use std::alloc::{AllocError, Global};
use std::collections::BTreeMap;

// A row of CASH_MOVE without a trade is a deposit or a withdrawal.
fn movement_posting(row: &CashRow) -> Option<KeyedAmount<u64>>
    ensures { result ≡ movement_posting_of_row (abstract_cash_row row.now) }
{
    if row.trade.is_some() {
        return None;
    }
    let key = row.account.get();
    let amount = row.amount.get();
    Some(KeyedAmount { key, amount })
}

fn append_movement_postings(
    all: &mut Vec<KeyedAmount<u64>>,
    moves: &[CashRow],
) -> Result<(), AllocError>
    ensures all { OnOk result (all.new.items ≡ all.old.items ++ filter_map (λ r. movement_posting_of_row (abstract_cash_row r)) moves.now) }
{
    for row in moves {
        if let Some(posting) = movement_posting(row) {
            all.push(posting)?;
        }
    }
    Ok(())
}

// In 128 bits, because the difference may exceed 64.
fn above_opening(balance: i64, opening: i64) -> i128
    ensures { opening +ℤ result ≡ balance }
{
    i128::from(balance) - i128::from(opening)
}

fn same_numbers(one: i128, other: i128) -> bool
    ensures { IsTrue result ↔ (one ≡ other) }
{
    one == other
}

fn is_balance_after(balance: i64, opening: i64, moved: i128) -> bool
    ensures { IsTrue result ↔ (balance ≡ opening +ℤ moved) }
{
    let left = above_opening(balance, opening);
    same_numbers(left, moved)
}

/// The balances of accounts, in cents. Each completed cash trade posts its settlement amount at its
/// account. A balance is the opening balance plus the sum at the account's id of these amounts and
/// of the deposits and withdrawals, which `meets_balance` adds.
struct Balances;

impl KeyedSum for Balances {
    type Total = AccountRow;

    ghost posting_of = { λ terms r. cash_posting_of_trade_row (account_tax_status_in_terms terms) r };

    ghost has_sum = { λ sums row. row.balance ≡ row.account.opening +ℤ sum_at_key nat_cmp sums row.account.id };

    fn posting_of_trade(
        terms: &BTreeMap<u64, AccountTerms>,
        trade: &TradeRow,
    ) -> Option<KeyedAmount<u64>> {
        if !is_completed(trade.status) || !trade.is_cash {
            return None;
        }
        let key = trade.account.get();
        let amount = settlement_amount_of_trade(trade, tax_status_of(terms, trade.account));
        Some(KeyedAmount { key, amount })
    }

    fn matches_sum(sums: &BTreeMap<u64, i128>, row: &AccountRow) -> bool {
        let moved = sum_at(sums, row.account.id.get());
        is_balance_after(row.balance.get(), row.account.opening.get(), moved)
    }
}

/// Returns true if the rows satisfy the condition `Balance`, which is the same in all schemas: the
/// balance of each account is its opening balance plus the settlement amounts of its completed cash
/// trades, its deposits and its withdrawals.
pub fn meets_balance(alloc: Global, sheets: &Sheets) -> Result<bool, AllocError>
    requires form { HasWellFormedRows sheets.now }
    requires status { HasValidStatuses sheets.now }
    ensures { IfOk result (λ holds. (schema : Schema) → IsTrue holds ↔ ConditionHolds schema Balance (abstract_sheets sheets.now)) }
{
    let terms = terms_by_id(alloc, &sheets.accounts)?;
    let mut postings = trade_postings::<Balances>(alloc, &terms, &sheets.trades)?;
    append_movement_postings(&mut postings, &sheets.moves)?;
    let sums = sum_by_key(alloc, &postings)?;
    Ok(all_match_sums::<Balances>(&sums, &sheets.accounts))
}
