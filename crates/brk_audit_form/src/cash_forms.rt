//! The checks of cash rows: their texts, their stamps and their amounts in cents.

ghost use Rattle.std.specs.Prelude.{◌≡◌, ◌∷◌, ◌++◌, IfOk, OnOk, decimal, false, map, string_bytes};
ghost use Rattle.std.specs.List.{list_all};
ghost use Rattle.std.specs.Option.{option_map_or};
ghost use Rattle.brk_model.specs.Form as form;
ghost use Rattle.brk_model.specs.Joins.{trade_row_with_id};
ghost use Rattle.brk_model.specs.Results.{cash_row_name_from_parts};
ghost use Rattle.brk_ref.specs.Rows.{abstract_old_cash_row, abstract_cash_row, abstract_trade_row};
ghost use Rattle.brk_trade_rows.specs.Sheets.{abstract_sheets};
ghost use Rattle.brk_audit_form.specs.Conditions.{HasSortedKeys};
ghost use Rattle.brk_audit_form.specs.Names.{security_name_or_empty};

use crate::limits::{is_valid_cash_row_id, is_valid_cents, is_valid_stamp};
use crate::references::{find_security, find_trade, has_account};
use brk_money::{Cents, Id, Qty};
use brk_ref::{CashRow, OldCashRow, Symbol, TradeRow};
use brk_trade_rows::Sheets;
use std::alloc::{AllocError, Global};

// Returns an empty text if the symbol is unknown.
fn security_name<'a>(sheets: &'a Sheets, symbol: &Symbol) -> &'a str
    requires { HasSortedKeys sheets.now }
    ensures { result.now ≡ security_name_or_empty (abstract_sheets sheets.now) symbol.now }
{
    match find_security(sheets, symbol) {
        Some(security) => security.name.as_str(),
        None => "",
    }
}

fn append_cash_text_quantity(name: &mut String, qty: Qty, words: &str) -> Result<(), AllocError>
    ensures { OnOk result (string_bytes name.new ≡ string_bytes name.old ++ (32 ∷ decimal qty ++ words.now)) }
{
    write!(name, " {}{}", qty.get(), words)
}

// For example `Limit-Buy 100 shares of ACME Inc`.
fn text_of_trade(
    alloc: Global,
    trade: &TradeRow,
    words: &str,
    security: &str,
) -> Result<String, AllocError>
    ensures name { IfOk result (λ name. string_bytes name ≡ cash_row_name_from_parts words.now trade.now.kind trade.now.qty security.now) }
{
    let mut name = String::from_str(alloc, trade.kind.name())?;
    append_cash_text_quantity(&mut name, trade.qty, words)?;
    name.push_str(security)?;
    Ok(name)
}

// Accepts ` shares of ` and ` Shares of `: a text update replaces one by the other.
fn is_trade_text(
    alloc: Global,
    sheets: &Sheets,
    trade: &TradeRow,
    name: &str,
) -> Result<bool, AllocError>
    requires { HasSortedKeys sheets.now }
    ensures { IfOk result (λ holds. holds ≡ form.is_cash_row_name_of_trade (abstract_sheets sheets.now) name.now (abstract_trade_row trade.now)) }
{
    let security = security_name(sheets, &trade.symbol);
    let first = text_of_trade(alloc, trade, " shares of ", security)?;
    if name == first.as_str() {
        return Ok(true);
    }
    let second = text_of_trade(alloc, trade, " Shares of ", security)?;
    Ok(name == second.as_str())
}

fn is_text_of_trade_id(
    alloc: Global,
    sheets: &Sheets,
    id: Id,
    name: &str,
) -> Result<bool, AllocError>
    requires { HasSortedKeys sheets.now }
    ensures value { IfOk result (λ holds. holds
        ≡ option_map_or (form.is_cash_row_name_of_trade (abstract_sheets sheets.now) name.now) (trade_row_with_id (abstract_sheets sheets.now) id) false) }
{
    let Some(trade) = find_trade(sheets, id) else {
        return Ok(false);
    };
    is_trade_text(alloc, sheets, trade, name)
}

fn is_valid_old_cash_row(
    alloc: Global,
    sheets: &Sheets,
    row: &OldCashRow,
) -> Result<bool, AllocError>
    requires { HasSortedKeys sheets.now }
    ensures value { IfOk result (λ holds. holds ≡ form.is_well_formed_cash_transaction_row (abstract_sheets sheets.now) (abstract_old_cash_row row.now)) }
{
    let is_named = is_text_of_trade_id(alloc, sheets, row.trade, row.name.as_str())?;
    Ok(is_named && is_valid_stamp(sheets, row.stamp) && is_valid_cents(row.amount))
}

// The amount of a deposit is above 0, that of a withdrawal below.
fn is_movement_text(name: &str, amount: Cents) -> bool
    ensures { result ≡ form.is_movement_name_and_amount name.now amount }
{
    (name == "Deposit" && 0 < amount.get()) || (name == "Withdrawal" && amount.get() < 0)
}

// A row without a trade is a deposit or a withdrawal.
fn has_valid_text(alloc: Global, sheets: &Sheets, row: &CashRow) -> Result<bool, AllocError>
    requires { HasSortedKeys sheets.now }
    ensures value { IfOk result (λ holds. holds
        ≡ option_map_or (form.has_cash_row_name_of_trade (abstract_sheets sheets.now) (abstract_cash_row row.now)) row.now.trade
        (form.is_movement_name_and_amount (string_bytes row.now.name) row.now.amount)) }
{
    match row.trade {
        Some(trade) => is_text_of_trade_id(alloc, sheets, trade, row.name.as_str()),
        None => Ok(is_movement_text(row.name.as_str(), row.amount)),
    }
}

fn is_valid_cash_row(alloc: Global, sheets: &Sheets, row: &CashRow) -> Result<bool, AllocError>
    requires { HasSortedKeys sheets.now }
    ensures value { IfOk result (λ holds. holds ≡ form.is_well_formed_cash_move_row (abstract_sheets sheets.now) (abstract_cash_row row.now)) }
{
    let is_called = has_valid_text(alloc, sheets, row)?;
    Ok(
        is_valid_cash_row_id(row.id)
            && has_account(sheets, row.account)
            && is_called
            && is_valid_stamp(sheets, row.stamp)
            && is_valid_cents(row.amount),
    )
}

pub(crate) fn are_valid_old_cash_rows(alloc: Global, sheets: &Sheets) -> Result<bool, AllocError>
    requires { HasSortedKeys sheets.now }
    ensures { IfOk result (λ holds. holds
        ≡ list_all (form.is_well_formed_cash_transaction_row (abstract_sheets sheets.now)) (map abstract_old_cash_row sheets.now.cash.items)) }
{
    for row in &sheets.cash {
        let is_formed = is_valid_old_cash_row(alloc, sheets, row)?;
        if !is_formed {
            return Ok(false);
        }
    }
    Ok(true)
}

pub(crate) fn are_valid_cash_rows(alloc: Global, sheets: &Sheets) -> Result<bool, AllocError>
    requires { HasSortedKeys sheets.now }
    ensures { IfOk result (λ holds. holds
        ≡ list_all (form.is_well_formed_cash_move_row (abstract_sheets sheets.now)) (map abstract_cash_row sheets.now.moves.items)) }
{
    for row in &sheets.moves {
        let is_formed = is_valid_cash_row(alloc, sheets, row)?;
        if !is_formed {
            return Ok(false);
        }
    }
    Ok(true)
}
