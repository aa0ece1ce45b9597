//! The condition `Settlement`: SETTLEMENT has exactly one row for each completed trade, with its
//! due day and its settlement amount in cents. Settlement texts are not compared: `Form` checks
//! them. `rule` is the first day of one-day settlement, if it is set.

ghost use Rattle.std.specs.Prelude.{◌≡◌, ◌↔◌, ◌+◌, map, filter, IfOk, IsTrue, MatchOption};
ghost use Rattle.brk_money.specs.declared.fault.Condition.TheVariants.{Settlement};
ghost use Rattle.brk_model.specs.Audit.{ConditionHolds};
ghost use Rattle.brk_model.specs.Schemas.{Schema};
ghost use Rattle.brk_model.specs.Derived.{due_day_of_completion_stamp};
ghost use Rattle.brk_audit_sums.specs.AccountTerms.{account_tax_status_in_terms};
ghost use Rattle.brk_audit_sums.specs.Completed.{is_completed_trade_row};
ghost use Rattle.brk_audit_sums.specs.Conditions.{HasWellFormedRows, HasValidStatuses};
ghost use Rattle.brk_audit_sums.specs.Settling.{RowsCannotMatchTrades, RowsMatchTradesIffOthersDo, settlement_amount_at_tax_status};
ghost use Rattle.brk_audit_sums.specs.Settling.{settlement_figures_of_row, settlement_figures_of_trade};
ghost use Rattle.brk_ref.specs.Rows.{abstract_settlement_row, abstract_trade_row};
ghost use Rattle.brk_trade_rows.specs.Sheets.{abstract_sheets};

use brk_audit_sums::account_terms::{AccountTerms, tax_status_of, terms_by_id};
use brk_audit_sums::amounts::settlement_amount_of_trade;
use brk_audit_sums::completion::is_completed;
use brk_money::{Day, Stamp, TaxStatus, day_of};
use brk_ref::{SettlementRow, TradeRow};
use brk_trade_rows::{Sheets, days_to_settlement};
use std::alloc::{AllocError, Global};
use std::collections::BTreeMap;

fn is_due_day(day: Day, rule: Option<Day>, stamp: Stamp) -> bool
    ensures { IsTrue result ↔ (day ≡ due_day_of_completion_stamp rule stamp) }
{
    let completed = day_of(stamp);
    day.get() == completed.get() + i32::from(days_to_settlement(rule, completed))
}

fn settlement_matches_trade(
    settlement: &SettlementRow,
    trade: &TradeRow,
    rule: Option<Day>,
    tax_status: TaxStatus,
) -> bool
    ensures { IsTrue result ↔ ((settlement.now.trade ≡ trade.now.id) × (settlement.now.due_day ≡ due_day_of_completion_stamp rule trade.now.stamp)
        × (settlement.now.amount ≡ settlement_amount_at_tax_status tax_status (abstract_trade_row trade.now))) }
{
    settlement.trade == trade.id
        && is_due_day(settlement.due_day, rule, trade.stamp)
        && settlement.amount.get() == settlement_amount_of_trade(trade, tax_status)
}

// Returns the settlements after that of `trade`, if it is completed; `None` if its settlement is
// not the first.
fn strip_settlement<'a>(
    settlements: &'a [SettlementRow],
    trade: &TradeRow,
    rule: &Option<Day>,
    terms: &BTreeMap<u64, AccountTerms>,
) -> Option<&'a [SettlementRow]>
    ensures { MatchOption result
        (RowsCannotMatchTrades settlement_figures_of_row (settlement_figures_of_trade rule.now (account_tax_status_in_terms terms.now)) is_completed_trade_row
        (map abstract_settlement_row settlements.now) (abstract_trade_row trade.now))
        (λ others. RowsMatchTradesIffOthersDo settlement_figures_of_row
        (settlement_figures_of_trade rule.now (account_tax_status_in_terms terms.now)) is_completed_trade_row
        (map abstract_settlement_row settlements.now) (abstract_trade_row trade.now) (map abstract_settlement_row others.now)) }
{
    if !is_completed(trade.status) {
        return Some(settlements);
    }
    let [first, others @ ..] = settlements else {
        return None;
    };
    if settlement_matches_trade(first, trade, *rule, tax_status_of(terms, trade.account)) {
        Some(others)
    } else {
        None
    }
}

// One walk over both lists suffices, because both are sorted by trade.
fn settlements_match_trades(
    settlements: &[SettlementRow],
    trades: &[TradeRow],
    rule: &Option<Day>,
    terms: &BTreeMap<u64, AccountTerms>,
) -> bool
    ensures { IsTrue result
        ↔ (map settlement_figures_of_row (map abstract_settlement_row settlements.now)
        ≡ map (settlement_figures_of_trade rule.now (account_tax_status_in_terms terms.now))
        (filter is_completed_trade_row (map abstract_trade_row trades.now))) }
{
    let mut rest = settlements;
    for trade in trades {
        let Some(others) = strip_settlement(rest, trade, rule, terms) else {
            return false;
        };
        rest = others;
    }
    rest.is_empty()
}

pub(crate) fn meets_settlement(alloc: Global, sheets: &Sheets) -> Result<bool, AllocError>
    requires form { HasWellFormedRows sheets.now }
    requires status { HasValidStatuses sheets.now }
    ensures { IfOk result (λ holds. (schema : Schema) → IsTrue holds ↔ ConditionHolds schema Settlement (abstract_sheets sheets.now)) }
{
    let terms = terms_by_id(alloc, &sheets.accounts)?;
    Ok(settlements_match_trades(&sheets.settlements, &sheets.trades, &sheets.rule, &terms))
}
