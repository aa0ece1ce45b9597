//! Reads of the facts that decide on a text update.

ghost use Rattle.std.specs.Prelude.{◌≡◌, MatchOption, is_none, is_some, true};
ghost use Rattle.brk_trade_rows.specs.Chosen as chosen;
ghost use Rattle.brk_model.specs.Joins.{account_row_with_id, security_row_with_symbol};
ghost use Rattle.brk_store_transactions.specs.Holds.{ReadPost};
ghost use Rattle.brk_store_reads.specs.ReadSequences.{ReadSequencePost};
ghost use Rattle.brk_trade_theorems.specs.Corrections.{CashTextsMatchTables, SettlementTextsMatchTables, UpdateFactsMatchTables, SecurityHasName};
ghost use Rattle.brk_ref_orders.specs.declared.update.Update.TheVariants as update;

use crate::update_texts::{cash_name_of, cash_type_of};
use brk_money::{CallFault, Id};
use brk_ref::{Name, Span, Symbol};
use brk_ref_orders::TradeIds;
use brk_store::{Store, read_trades_by_ids};
use brk_trade::{CashText, SettlementText, TextUpdate};
use sqlite::Alter;
use std::alloc::Global;

// Fails with `Store` also if one of the trades has no settlement.
fn read_cash_types<S: Alter>(
    alloc: Global,
    store: &mut Store<S>,
    account: Id,
    span: Span,
) -> Result<Vec<SettlementText>, CallFault>
    ensures { ReadPost S.Store store.old store.new result
        (λ settled t. SettlementTextsMatchTables t (chosen.first_twenty_completed_trade_rows_of_account account span.first span.last t) settled.items) }
{
    let trades = store.twenty_completed_trades(alloc, account, span)?;
    let mut settled = Vec::new(alloc);
    for trade in &trades {
        let cash_type = cash_type_of(store, trade.id)?;
        settled.push(SettlementText {
            trade: trade.id,
            is_cash: trade.is_cash,
            cash_type,
        })?;
    }
    Ok(settled)
}

// Fails with `Store` also if one of the trades has no cash row.
fn read_cash_names<S: Alter>(
    alloc: Global,
    store: &mut Store<S>,
    symbol: &Symbol,
    span: Span,
) -> Result<Vec<CashText>, CallFault>
    ensures { ReadPost S.Store store.old store.new result
        (λ paid t. CashTextsMatchTables t (chosen.first_twenty_completed_cash_trade_rows_of_symbol symbol.now span.first span.last t) paid.items) }
{
    let trades = store.twenty_completed_cash_trades(alloc, symbol, span)?;
    let mut paid = Vec::new(alloc);
    for trade in &trades {
        let name = cash_name_of(store, trade.id)?;
        paid.push(CashText {
            trade: trade.id,
            kind: trade.kind,
            qty: trade.qty,
            name,
        })?;
    }
    Ok(paid)
}

pub(crate) fn executor_facts<S: Alter>(
    alloc: Global,
    store: &mut Store<S>,
    trades: &TradeIds,
) -> Result<Option<TextUpdate>, CallFault>
    ensures { ReadSequencePost S.Store store.old store.new result (λ found t. UpdateFactsMatchTables t (update.Executors trades.now) found) }
{
    match read_trades_by_ids(alloc, store, trades.ids())? {
        Some(trades) => Ok(Some(TextUpdate::Executors(trades))),
        None => Ok(None),
    }
}

// The same read as `reference_finding::account_exists`, with the clause that updates need.
fn account_row_exists<S: Alter>(store: &mut Store<S>, account: Id) -> Result<bool, CallFault>
    ensures { ReadPost S.Store store.old store.new result (λ there t. there ≡ is_some (account_row_with_id t account)) }
{
    Ok(store.account(account)?.is_some())
}

pub(crate) fn cash_type_facts<S: Alter>(
    alloc: Global,
    store: &mut Store<S>,
    account: Id,
    span: Span,
) -> Result<Option<TextUpdate>, CallFault>
    ensures { ReadPost S.Store store.old store.new result (λ found t. UpdateFactsMatchTables t (update.CashTypes account span) found) }
{
    if !account_row_exists(store, account)? {
        return Ok(None);
    }
    let settled = read_cash_types(alloc, store, account, span)?;
    Ok(Some(TextUpdate::CashTypes(settled)))
}

// Returns `None` if no security has the symbol.
fn security_name<S: Alter>(store: &mut Store<S>, symbol: &Symbol) -> Result<Option<Name>, CallFault>
    ensures { ReadPost S.Store store.old store.new result (λ name t. MatchOption name (is_none (security_row_with_symbol t symbol.now)
        ≡ true) (SecurityHasName t symbol.now)) }
{
    match store.security(symbol)? {
        Some(security) => Ok(Some(security.name)),
        None => Ok(None),
    }
}

pub(crate) fn cash_name_facts<S: Alter>(
    alloc: Global,
    store: &mut Store<S>,
    symbol: &Symbol,
    span: Span,
) -> Result<Option<TextUpdate>, CallFault>
    ensures { ReadPost S.Store store.old store.new result (λ found t. UpdateFactsMatchTables t (update.CashNames symbol.now span) found) }
{
    let Some(name) = security_name(store, symbol)? else {
        return Ok(None);
    };
    let paid = read_cash_names(alloc, store, symbol, span)?;
    Ok(Some(TextUpdate::CashNames(name, paid)))
}
