//! Searches for the records that rows refer to. They are binary searches, so each table must be
//! sorted by key without a repeated key.

ghost use Rattle.std.specs.Prelude.{◌≡◌, ◌==◌, bytes_eq, find, option_map};
ghost use Rattle.std.specs.List.{list_any};
ghost use Rattle.std.specs.Option.{option_copied};
ghost use Rattle.brk_money.specs.Kinds.{is_same_trade_status};
ghost use Rattle.brk_money.specs.declared.status.Status.TheVariants.{Completed};
ghost use Rattle.brk_model.specs.Form as form;
ghost use Rattle.brk_model.specs.Joins as joins;
ghost use Rattle.brk_ref.specs.Rows.{abstract_trade_row};
ghost use Rattle.brk_trade_rows.specs.Sheets.{abstract_sheets};
ghost use Rattle.brk_ref.specs.Records.{abstract_security_row, abstract_tax_rate};
ghost use Rattle.brk_audit_form.specs.Conditions.{HasSortedKeys};

use crate::keys::{compare_ids, compare_texts};
use brk_money::{Id, Status};
use brk_ref::{Security, Symbol, Tax, TradeRow};
use brk_trade_rows::Sheets;

pub(crate) fn has_broker(sheets: &Sheets, id: Id) -> bool
    requires { HasSortedKeys sheets.now }
    ensures { result ≡ form.has_broker (abstract_sheets sheets.now) id }
{
    let number = id.get();
    sheets
        .brokers
        .binary_search_by_key(&number, |row| row.broker.id.get())
        .is_ok()
}

pub(crate) fn has_customer(sheets: &Sheets, id: Id) -> bool
    requires { HasSortedKeys sheets.now }
    ensures { result ≡ form.has_customer (abstract_sheets sheets.now) id }
{
    let number = id.get();
    sheets
        .customers
        .binary_search_by_key(&number, |row| row.id.get())
        .is_ok()
}

pub(crate) fn has_account(sheets: &Sheets, id: Id) -> bool
    requires { HasSortedKeys sheets.now }
    ensures { result ≡ form.has_account (abstract_sheets sheets.now) id }
{
    let number = id.get();
    sheets
        .accounts
        .binary_search_by_key(&number, |row| row.account.id.get())
        .is_ok()
}

pub(crate) fn has_trade(sheets: &Sheets, id: Id) -> bool
    requires { HasSortedKeys sheets.now }
    ensures { result ≡ form.has_trade (abstract_sheets sheets.now) id }
{
    let number = id.get();
    sheets
        .trades
        .binary_search_by_key(&number, |row| row.id.get())
        .is_ok()
}

pub(crate) fn has_tax_rate(sheets: &Sheets, id: Id) -> bool
    requires { HasSortedKeys sheets.now }
    ensures { result ≡ list_any (λ r. r.id == id) (abstract_sheets sheets.now).tax_rates }
{
    let number = id.get();
    sheets
        .tax_rates
        .binary_search_by_key(&number, |row| row.id.get())
        .is_ok()
}

pub(crate) fn has_security(sheets: &Sheets, symbol: &Symbol) -> bool
    requires { HasSortedKeys sheets.now }
    ensures { result ≡ form.has_security (abstract_sheets sheets.now) symbol.now }
{
    sheets
        .securities
        .binary_search_by(|row| compare_texts(&row.symbol, symbol))
        .is_ok()
}

pub(crate) fn has_last_trade(sheets: &Sheets, symbol: &Symbol) -> bool
    requires { HasSortedKeys sheets.now }
    ensures { result ≡ list_any (λ l. bytes_eq l.symbol symbol.now) (abstract_sheets sheets.now).last_trades }
{
    sheets
        .last_trades
        .binary_search_by(|row| compare_texts(&row.symbol, symbol))
        .is_ok()
}

/// Searches TRADE_HISTORY; TRADE need not contain the trade.
pub(crate) fn has_completion(sheets: &Sheets, id: Id) -> bool
    requires { HasSortedKeys sheets.now }
    ensures { result ≡ list_any (λ h. is_same_trade_status h.status Completed) (joins.history_rows_with_trade_id (abstract_sheets sheets.now) id) }
{
    let code = Status::Completed.code();
    sheets
        .history
        .binary_search_by(|row| compare_ids(row.trade, id).then(row.status.code().cmp(code)))
        .is_ok()
}

pub(crate) fn find_trade(sheets: &Sheets, id: Id) -> Option<&TradeRow>
    requires { HasSortedKeys sheets.now }
    ensures { option_map abstract_trade_row (option_copied result) ≡ joins.trade_row_with_id (abstract_sheets sheets.now) id }
{
    let number = id.get();
    match sheets
        .trades
        .binary_search_by_key(&number, |row| row.id.get())
    {
        Ok(place) => Some(&sheets.trades[place]),
        Err(_) => None,
    }
}

pub(crate) fn find_security<'a>(sheets: &'a Sheets, symbol: &Symbol) -> Option<&'a Security>
    requires { HasSortedKeys sheets.now }
    ensures { option_map abstract_security_row (option_copied result) ≡ joins.security_row_with_symbol (abstract_sheets sheets.now) symbol.now }
{
    match sheets
        .securities
        .binary_search_by(|row| compare_texts(&row.symbol, symbol))
    {
        Ok(place) => Some(&sheets.securities[place]),
        Err(_) => None,
    }
}

pub(crate) fn find_tax_rate(sheets: &Sheets, id: Id) -> Option<&Tax>
    requires { HasSortedKeys sheets.now }
    ensures { option_map abstract_tax_rate (option_copied result) ≡ find (λ r. r.id == id) (abstract_sheets sheets.now).tax_rates }
{
    let number = id.get();
    match sheets
        .tax_rates
        .binary_search_by_key(&number, |row| row.id.get())
    {
        Ok(place) => Some(&sheets.tax_rates[place]),
        Err(_) => None,
    }
}
