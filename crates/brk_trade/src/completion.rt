//! The row changes that complete a trade. A function that fails may have appended a part of them.

ghost use Rattle.std.specs.Prelude.{◌≡◌, ◌++◌, flat_map, option_map, option_to_list, string_bytes, IfOk, OnOk};
ghost use Rattle.brk_trade.specs.Outcomes.{quantity_in_summary};
ghost use Rattle.brk_trade.specs.Results as spec;
ghost use Rattle.brk_trade.specs.Results.{AreResultChanges};
ghost use Rattle.brk_ref.specs.Rows.{abstract_cash_row};

use crate::outcome::ResultFigures;
use crate::result_found::ResultPlanFacts;
use brk_lots::{ClosedLots, Lot, Touch};
use brk_money::{Id, Price, Qty, Status};
use brk_ref::{
    CashRow, CashType, HistoryRow, HoldingRow, LotChange, Name, SettlementRow, SummaryRow, TradeRow,
};
use brk_trade_plans::Completed;
use brk_trade_rows::{Amount, Change};
use std::alloc::{AllocError, Global};

// Appends the completion of the trade and its history row.
fn append_trade(
    trade: Id,
    price: Price,
    completed: &Completed,
    changes: &mut Vec<Change>,
) -> Result<(), AllocError>
    ensures changes { OnOk result (changes.new.items ≡ changes.old.items ++ spec.row_changes_of_completed_trade trade price completed.now) }
{
    changes.push(Change::CompleteTrade {
        trade,
        stamp: completed.stamp,
        price,
        commission: completed.commission,
        tax: completed.tax,
    })?;
    changes.push(Change::AddHistory(HistoryRow {
        trade,
        status: Status::Completed,
        stamp: completed.stamp,
    }))?;
    Ok(())
}

fn holding_change(touch: &Touch) -> Change
    ensures { result ≡ spec.row_change_of_touched_holding touch.now }
{
    if touch.after == 0 {
        Change::RemoveLot(touch.lot)
    } else {
        Change::SetLot {
            trade: touch.lot,
            qty: touch.after,
        }
    }
}

fn lot_history_change(trade: Id, touch: &Touch) -> Change
    ensures { result ≡ spec.row_change_adding_lot_history trade touch.now }
{
    Change::AddLotChange(LotChange {
        lot: touch.lot,
        trade,
        before: touch.before,
        after: touch.after,
    })
}

fn append_touch(trade: Id, touch: &Touch, changes: &mut Vec<Change>) -> Result<(), AllocError>
    ensures changes { OnOk result (changes.new.items ≡ changes.old.items ++ spec.row_changes_of_touched_lot trade touch.now) }
{
    changes.push(holding_change(touch))?;
    changes.push(lot_history_change(trade, touch))?;
    Ok(())
}

fn append_touches(trade: Id, touched: &[Touch], changes: &mut Vec<Change>) -> Result<(), AllocError>
    ensures changes { OnOk result (changes.new.items ≡ changes.old.items ++ flat_map (spec.row_changes_of_touched_lot trade) touched.now) }
{
    for touch in touched {
        append_touch(trade, touch, changes)?;
    }
    Ok(())
}

fn append_opened_lot(
    trade: &TradeRow,
    opened: Option<Lot>,
    changes: &mut Vec<Change>,
) -> Result<(), AllocError>
    ensures changes { OnOk result (changes.new.items ≡ changes.old.items ++ flat_map (spec.row_changes_of_opened_lot trade.now) (option_to_list opened)) }
{
    let Some(lot) = opened else {
        return Ok(());
    };
    changes.push(Change::AddLot(HoldingRow {
        trade: lot.trade,
        account: trade.account,
        symbol: trade.symbol.clone()?,
        stamp: lot.stamp,
        price: lot.price,
        qty: lot.qty,
    }))?;
    changes.push(Change::AddLotChange(LotChange {
        lot: lot.trade,
        trade: lot.trade,
        before: 0,
        after: lot.qty,
    }))?;
    Ok(())
}

fn summary_change(found: &ResultPlanFacts, outcome: &ResultFigures) -> Result<Change, AllocError>
    ensures change { IfOk result (λ change. change ≡ spec.row_change_of_summary (quantity_in_summary found.now) found.now.trade outcome.now.summary) }
{
    let account = found.trade.account;
    let symbol = found.trade.symbol.clone()?;
    let qty = outcome.summary;
    if found.summary.is_none() {
        return Ok(Change::AddSummary(SummaryRow {
            account,
            symbol,
            qty,
        }));
    }
    if qty == 0 {
        return Ok(Change::RemoveSummary { account, symbol });
    }
    Ok(Change::SetSummary(SummaryRow {
        account,
        symbol,
        qty,
    }))
}

fn first_cash_type(is_cash: bool) -> CashType
    ensures { result ≡ spec.first_cash_type_of_trade is_cash }
{
    if is_cash {
        CashType::CashAccount
    } else {
        CashType::Margin
    }
}

fn totals_change(found: &ResultPlanFacts, outcome: &ResultFigures) -> Change
    ensures { result ≡ spec.row_change_of_broker_totals found.now outcome.now }
{
    Change::SetBrokerTotals {
        broker: found.parties.account.account.broker,
        trades: outcome.trades,
        commissions: outcome.commissions,
    }
}

fn settlement_change(trade: &TradeRow, completed: &Completed) -> Change
    ensures { result ≡ spec.row_change_adding_settlement trade.now completed.now }
{
    Change::AddSettlement(SettlementRow {
        trade: trade.id,
        cash_type: first_cash_type(trade.is_cash),
        due_day: completed.due_day,
        amount: completed.amount,
    })
}

// Appends the changes of the summary, of the broker's totals and of the settlement.
fn append_sums_with_settlement(
    found: &ResultPlanFacts,
    outcome: &ResultFigures,
    changes: &mut Vec<Change>,
) -> Result<(), AllocError>
    ensures { OnOk result (changes.new.items ≡ changes.old.items ++ spec.summary_broker_settlement_changes found.now outcome.now) }
{
    let summary = summary_change(found, outcome)?;
    changes.push(summary)?;
    changes.push(totals_change(found, outcome))?;
    changes.push(settlement_change(&found.trade, &outcome.completed))?;
    Ok(())
}

fn append_cash_text_quantity(name: &mut String, qty: Qty) -> Result<(), AllocError>
    ensures { OnOk result (string_bytes name.new ≡ string_bytes name.old ++ spec.cash_text_part_with_quantity qty) }
{
    write!(name, " {} shares of ", qty.get())
}

// For example `Limit-Buy 100 shares of Acme`. Text updates (`toggle_cash_text`) and the audit
// (`text_of_trade`) rely on the words.
fn trade_cash_text(alloc: Global, trade: &TradeRow, security: &Name) -> Result<String, AllocError>
    ensures { IfOk result (λ name. string_bytes name ≡ spec.cash_text_of_trade trade.now security.now) }
{
    let mut name = String::from_str(alloc, trade.kind.name())?;
    append_cash_text_quantity(&mut name, trade.qty)?;
    name.push_str(security.as_str())?;
    Ok(name)
}

fn result_cash_row(
    alloc: Global,
    found: &ResultPlanFacts,
    completed: &Completed,
) -> Result<Option<CashRow>, AllocError>
    ensures { IfOk result (λ cash. option_map abstract_cash_row cash ≡ spec.cash_row_of_result found.now completed.now) }
{
    if !found.trade.is_cash {
        return Ok(None);
    }
    Ok(Some(CashRow {
        id: found.posting.next,
        account: found.trade.account,
        trade: Some(found.trade.id),
        stamp: completed.stamp,
        amount: completed.amount,
        name: trade_cash_text(alloc, &found.trade, &found.listed.security.name)?,
    }))
}

// Appends the cash row and the balance, or nothing for a margin trade.
fn append_cash(
    account: Id,
    completed: &Completed,
    cash: Option<CashRow>,
    changes: &mut Vec<Change>,
) -> Result<(), AllocError>
    ensures changes { OnOk result (changes.new.items
        ≡ changes.old.items ++ flat_map (spec.row_changes_of_cash_row account completed.now.balance) (option_to_list cash)) }
{
    let Some(row) = cash else {
        return Ok(());
    };
    changes.push(Change::AddMove(row))?;
    changes.push(Change::SetBalance {
        account,
        balance: completed.balance,
    })?;
    Ok(())
}

// Appends all but the changes of cash and of the last stamp.
fn append_completion(
    found: &ResultPlanFacts,
    price: Price,
    closed: &ClosedLots,
    outcome: &ResultFigures,
    changes: &mut Vec<Change>,
) -> Result<(), AllocError>
    ensures changes { OnOk result (changes.new.items ≡ changes.old.items
        ++ spec.row_changes_of_completed_trade found.now.trade.id price outcome.now.completed
        ++ flat_map (spec.row_changes_of_touched_lot found.now.trade.id) closed.now.touched.items
        ++ flat_map (spec.row_changes_of_opened_lot found.now.trade) (option_to_list closed.now.opened)
        ++ spec.summary_broker_settlement_changes found.now outcome.now) }
{
    let trade = &found.trade;
    append_trade(trade.id, price, &outcome.completed, changes)?;
    append_touches(trade.id, &closed.touched, changes)?;
    append_opened_lot(trade, closed.opened, changes)?;
    append_sums_with_settlement(found, outcome, changes)?;
    Ok(())
}

fn append_result(
    found: &ResultPlanFacts,
    price: Price,
    closed: &ClosedLots,
    outcome: &ResultFigures,
    cash: Option<CashRow>,
    changes: &mut Vec<Change>,
) -> Result<(), AllocError>
    ensures changes { OnOk result (changes.new.items ≡ changes.old.items ++ spec.row_changes_of_result found.now price closed.now outcome.now cash) }
{
    let completed = &outcome.completed;
    append_completion(found, price, closed, outcome, changes)?;
    append_cash(found.trade.account, completed, cash, changes)?;
    changes.push(Change::SetLastStamp(completed.stamp))?;
    Ok(())
}

pub(crate) fn result_changes(
    alloc: Global,
    found: &ResultPlanFacts,
    price: Price,
    closed: &ClosedLots,
    outcome: &ResultFigures,
) -> Result<Vec<Change>, AllocError>
    ensures changes { IfOk result (λ changes. AreResultChanges found.now price closed.now outcome.now changes.items) }
{
    let cash = result_cash_row(alloc, found, &outcome.completed)?;
    let mut changes = Vec::new(alloc);
    append_result(found, price, closed, outcome, cash, &mut changes)?;
    Ok(changes)
}
