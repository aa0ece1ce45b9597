//! The condition `Cash`: the cash rows of trades, in CASH_TRANSACTION in schema 1 and in CASH_MOVE
//! in later schemas, are exactly those of the completed cash trades. In later schemas
//! CASH_TRANSACTION is empty, and all rows of CASH_MOVE are numbered from 1 by ascending stamp.
//! Names of rows are not compared: `Form` checks them.

ghost use Rattle.std.specs.List.{filter_map};
ghost use Rattle.brk_audit.specs.CashMoveFigures.{abstract_posted_figures};
ghost use Rattle.std.specs.Prelude.{◌≡◌, ◌↔◌, ◌==◌, ◌&&◌, map, filter, nat_le, option_map, IfOk, IsTrue, MatchOption};
ghost use Rattle.brk_money.specs.declared.fault.Condition.TheVariants.{Cash, Form};
ghost use Rattle.brk_model.specs.Audit.{ConditionHolds};
ghost use Rattle.brk_audit_sums.specs.AccountTerms.{account_tax_status_in_terms};
ghost use Rattle.brk_audit_sums.specs.Conditions.{HasValidStatuses};
ghost use Rattle.brk_audit_sums.specs.Settling.{RowsCannotMatchTrades, RowsMatchTradesIffOthersDo, settlement_amount_at_tax_status, is_completed_cash_trade};
ghost use Rattle.brk_audit_sums.specs.Settling.{is_numbered_by_stamp, cash_transaction_figures_of_trade, cash_transaction_figures_of_row};
ghost use Rattle.brk_audit_sums.specs.Settling.{posted_figures_of_trade, posted_figures_of_row};
ghost use Rattle.brk_ref.specs.Rows.{abstract_old_cash_row, abstract_cash_row, abstract_trade_row};
ghost use Rattle.brk_trade_rows.specs.Schemas.{abstract_schema};
ghost use Rattle.brk_trade_rows.specs.Sheets.{abstract_sheets};

use crate::status::stamp_in_millis;
use brk_audit_sums::account_terms::{AccountTerms, tax_status_of, terms_by_id};
use brk_audit_sums::amounts::settlement_amount_of_trade;
use brk_audit_sums::completion::is_completed;
use brk_audit_sums::summaries::all_three;
use brk_money::{Cents, Id, Stamp, TaxStatus};
use brk_ref::{CashRow, OldCashRow, TradeRow};
use brk_trade_rows::{Schema, Sheets};
use std::alloc::{AllocError, Global};
use std::collections::BTreeMap;

fn is_cash_transaction_of_trade(cash: &OldCashRow, trade: &TradeRow, tax_status: TaxStatus) -> bool
    ensures { IsTrue result
        ↔ ((cash.now.trade ≡ trade.now.id) × (cash.now.stamp ≡ trade.now.stamp)
        × (cash.now.amount ≡ settlement_amount_at_tax_status tax_status (abstract_trade_row trade.now))) }
{
    cash.trade == trade.id
        && cash.stamp == trade.stamp
        && cash.amount.get() == settlement_amount_of_trade(trade, tax_status)
}

fn is_completed_cash_trade(trade: &TradeRow) -> bool
    ensures { result ≡ is_completed_cash_trade (abstract_trade_row trade.now) }
{
    is_completed(trade.status) && trade.is_cash
}

// Returns the rows after that of `trade`, if it is a completed cash trade; `None` if its row is not
// the first.
fn strip_cash_transaction<'a>(
    cash: &'a [OldCashRow],
    trade: &TradeRow,
    terms: &BTreeMap<u64, AccountTerms>,
) -> Option<&'a [OldCashRow]>
    ensures { MatchOption result
        (RowsCannotMatchTrades cash_transaction_figures_of_row (cash_transaction_figures_of_trade (account_tax_status_in_terms terms.now))
        is_completed_cash_trade
        (map abstract_old_cash_row cash.now) (abstract_trade_row trade.now))
        (λ others. RowsMatchTradesIffOthersDo cash_transaction_figures_of_row (cash_transaction_figures_of_trade (account_tax_status_in_terms terms.now))
        is_completed_cash_trade
        (map abstract_old_cash_row cash.now) (abstract_trade_row trade.now) (map abstract_old_cash_row others.now)) }
{
    if !is_completed_cash_trade(trade) {
        return Some(cash);
    }
    let [first, others @ ..] = cash else {
        return None;
    };
    if is_cash_transaction_of_trade(first, trade, tax_status_of(terms, trade.account)) {
        Some(others)
    } else {
        None
    }
}

// One walk over both lists suffices, because both are sorted by trade.
fn cash_transactions_match_trades(
    cash: &[OldCashRow],
    trades: &[TradeRow],
    terms: &BTreeMap<u64, AccountTerms>,
) -> bool
    ensures { IsTrue result
        ↔ (map cash_transaction_figures_of_row (map abstract_old_cash_row cash.now)
        ≡ map (cash_transaction_figures_of_trade (account_tax_status_in_terms terms.now))
        (filter is_completed_cash_trade (map abstract_trade_row trades.now))) }
{
    let mut rest = cash;
    for trade in trades {
        let Some(others) = strip_cash_transaction(rest, trade, terms) else {
            return false;
        };
        rest = others;
    }
    rest.is_empty()
}

// The account, the trade, the stamp and the amount of a row of CASH_MOVE that belongs to a trade.
#[derive(Clone, Copy, Drop)]
struct CashMoveFigures {
    account: Id,
    trade: Id,
    stamp: Stamp,
    amount: Cents,
}

// Returns `None` for a deposit or a withdrawal, which has no trade.
fn figures_of_row(row: &CashRow) -> Option<CashMoveFigures>
    ensures { option_map abstract_posted_figures result ≡ posted_figures_of_row (abstract_cash_row row.now) }
{
    let trade = row.trade?;
    Some(CashMoveFigures {
        account: row.account,
        trade,
        stamp: row.stamp,
        amount: row.amount,
    })
}

fn figures_of_rows(alloc: Global, moves: &[CashRow]) -> Result<Vec<CashMoveFigures>, AllocError>
    ensures all { IfOk result (λ all. map abstract_posted_figures all.items ≡ filter_map (λ r. posted_figures_of_row (abstract_cash_row r)) moves.now) }
{
    let mut all = Vec::new(alloc);
    for row in moves {
        if let Some(posted) = figures_of_row(row) {
            all.push(posted)?;
        }
    }
    Ok(all)
}

// Compares the account, the stamp and the amount too; the caller has tested that the trade is a
// completed cash trade.
fn is_cash_move_of_trade(row: CashMoveFigures, trade: &TradeRow, tax_status: TaxStatus) -> bool
    ensures { IsTrue result
        ↔ ((row.account ≡ trade.now.account) × (row.trade ≡ trade.now.id) × (row.stamp ≡ trade.now.stamp)
        × (row.amount ≡ settlement_amount_at_tax_status tax_status (abstract_trade_row trade.now))) }
{
    row.account == trade.account
        && row.trade == trade.id
        && row.stamp == trade.stamp
        && row.amount.get() == settlement_amount_of_trade(trade, tax_status)
}

// Does for rows of CASH_MOVE what `strip_cash_transaction` does for those of CASH_TRANSACTION.
fn strip_cash_move<'a>(
    rows: &'a [CashMoveFigures],
    trade: &TradeRow,
    terms: &BTreeMap<u64, AccountTerms>,
) -> Option<&'a [CashMoveFigures]>
    ensures { MatchOption result
        (RowsCannotMatchTrades (λ p. p) (posted_figures_of_trade (account_tax_status_in_terms terms.now)) is_completed_cash_trade
        (map abstract_posted_figures rows.now) (abstract_trade_row trade.now))
        (λ others. RowsMatchTradesIffOthersDo (λ p. p) (posted_figures_of_trade (account_tax_status_in_terms terms.now)) is_completed_cash_trade
        (map abstract_posted_figures rows.now) (abstract_trade_row trade.now) (map abstract_posted_figures others.now)) }
{
    if !is_completed_cash_trade(trade) {
        return Some(rows);
    }
    let [first, others @ ..] = rows else {
        return None;
    };
    if is_cash_move_of_trade(*first, trade, tax_status_of(terms, trade.account)) {
        Some(others)
    } else {
        None
    }
}

fn cash_moves_match_trades(
    rows: &[CashMoveFigures],
    trades: &[TradeRow],
    terms: &BTreeMap<u64, AccountTerms>,
) -> bool
    ensures { IsTrue result
        ↔ (map (λ p. p) (map abstract_posted_figures rows.now)
        ≡ map (posted_figures_of_trade (account_tax_status_in_terms terms.now)) (filter is_completed_cash_trade (map abstract_trade_row trades.now))) }
{
    let mut rest = rows;
    for trade in trades {
        let Some(others) = strip_cash_move(rest, trade, terms) else {
            return false;
        };
        rest = others;
    }
    rest.is_empty()
}

fn is_next_row(row: &CashRow, number: u64, stamp: u64) -> bool
    ensures { result ≡ (row.now.id == number) && nat_le stamp row.now.stamp }
{
    row.id.get() == number && stamp <= stamp_in_millis(row.stamp)
}

// Numbers count from 1 without a gap; stamps do not decrease.
fn are_rows_numbered(moves: &[CashRow]) -> bool
    ensures { result ≡ is_numbered_by_stamp 1 0 (map abstract_cash_row moves.now) }
{
    let mut stamp = 0;
    for (i, row) in moves.iter().enumerate() {
        if !is_next_row(row, i as u64 + 1, stamp) {
            return false;
        }
        stamp = stamp_in_millis(row.stamp);
    }
    true
}

pub(crate) fn meets_cash(alloc: Global, schema: Schema, sheets: &Sheets) -> Result<bool, AllocError>
    requires form { ConditionHolds (abstract_schema schema) Form (abstract_sheets sheets.now) }
    requires status { HasValidStatuses sheets.now }
    ensures { IfOk result (λ holds. IsTrue holds ↔ ConditionHolds (abstract_schema schema) Cash (abstract_sheets sheets.now)) }
{
    let terms = terms_by_id(alloc, &sheets.accounts)?;
    if !schema.has_cash_move_table() {
        return Ok(cash_transactions_match_trades(&sheets.cash, &sheets.trades, &terms));
    }
    let mut rows = figures_of_rows(alloc, &sheets.moves)?;
    rows.sort_unstable_by_key(|row| row.trade.get());
    let no_others = sheets.cash.is_empty();
    let in_turn = are_rows_numbered(&sheets.moves);
    let posted = cash_moves_match_trades(&rows, &sheets.trades, &terms);
    Ok(all_three(no_others, in_turn, posted))
}
