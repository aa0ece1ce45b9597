//! The records of the views of accounts: the worth of each, the recent activity of one, and its
//! status.

ghost use Rattle.std.specs.Prelude.{◌≡◌, ◌++◌, IfOk, OnOk, map};
ghost use Rattle.brk_ref.specs.Rows.{abstract_trade_row};
ghost use Rattle.brk_view_rows.specs.Recent as recents;
ghost use Rattle.brk_view_rows.specs.Status as statuses;
ghost use Rattle.brk_view_rows.specs.Views.{texts_of_record, texts_of_records};
ghost use Rattle.brk_view_rows.specs.Worths.{account_worth_record};

use crate::texts::{push_amount, push_number, push_stamp, push_text};
use brk_money::Wide;
use brk_ref::{HistoryRow, TradeRow};
use brk_view_rows::recents::Activity;
use brk_view_rows::statuses::{AccountStatus, TradeStatus};
use brk_view_rows::worths::AccountWorth;
use std::alloc::{AllocError, Global};

fn worth_texts(alloc: Global, account: &AccountWorth) -> Result<Vec<String>, AllocError>
    ensures { IfOk result (λ texts. texts_of_record texts ≡ account_worth_record account.now) }
{
    let mut texts = Vec::new(alloc);
    push_number(alloc, &mut texts, account.account.get())?;
    push_amount(alloc, &mut texts, Wide::from(account.balance))?;
    push_amount(alloc, &mut texts, account.assets)?;
    Ok(texts)
}

pub(crate) fn worth_records(
    alloc: Global,
    accounts: &[AccountWorth],
) -> Result<Vec<Vec<String>>, AllocError>
    ensures { IfOk result (λ records. texts_of_records records ≡ map account_worth_record accounts.now) }
{
    let mut records = Vec::new(alloc);
    for account in accounts {
        let texts = worth_texts(alloc, account)?;
        records.push(texts)?;
    }
    Ok(records)
}

// Returns the record of a trade in the view `recent`.
fn trade_row_texts(alloc: Global, trade: &TradeRow) -> Result<Vec<String>, AllocError>
    ensures { IfOk result (λ texts. texts_of_record texts ≡ recents.recent_trade_record (abstract_trade_row trade.now)) }
{
    let mut texts = Vec::new(alloc);
    push_text(alloc, &mut texts, "trade")?;
    push_number(alloc, &mut texts, trade.id.get())?;
    push_text(alloc, &mut texts, trade.symbol.as_str())?;
    push_number(alloc, &mut texts, u64::from(trade.qty.get()))?;
    Ok(texts)
}

fn history_texts(alloc: Global, row: &HistoryRow) -> Result<Vec<String>, AllocError>
    ensures { IfOk result (λ texts. texts_of_record texts ≡ recents.recent_status_record row.now) }
{
    let mut texts = Vec::new(alloc);
    push_text(alloc, &mut texts, "history")?;
    push_number(alloc, &mut texts, row.trade.get())?;
    push_text(alloc, &mut texts, row.status.name())?;
    push_stamp(alloc, &mut texts, row.stamp)?;
    Ok(texts)
}

fn trade_records(alloc: Global, trades: &[TradeRow]) -> Result<Vec<Vec<String>>, AllocError>
    ensures { IfOk result (λ records. texts_of_records records ≡ map recents.recent_trade_record (map abstract_trade_row trades.now)) }
{
    let mut records = Vec::new(alloc);
    for trade in trades {
        let texts = trade_row_texts(alloc, trade)?;
        records.push(texts)?;
    }
    Ok(records)
}

fn append_history(
    alloc: Global,
    records: &mut Vec<Vec<String>>,
    history: &[HistoryRow],
) -> Result<(), AllocError>
    ensures { OnOk result (texts_of_records records.new ≡ texts_of_records records.old ++ map recents.recent_status_record history.now) }
{
    for row in history {
        let texts = history_texts(alloc, row)?;
        records.push(texts)?;
    }
    Ok(())
}

pub(crate) fn recent_records(
    alloc: Global,
    recent: &Activity,
) -> Result<Vec<Vec<String>>, AllocError>
    ensures { IfOk result (λ records. texts_of_records records ≡ recents.records_of_activity recent.now) }
{
    let mut records = trade_records(alloc, &recent.trades)?;
    append_history(alloc, &mut records, &recent.history)?;
    Ok(records)
}

fn party_texts(alloc: Global, account: &AccountStatus) -> Result<Vec<String>, AllocError>
    ensures { IfOk result (λ texts. texts_of_record texts ≡ statuses.party_names_record account.now) }
{
    let mut texts = Vec::new(alloc);
    push_text(alloc, &mut texts, account.last_name.as_str())?;
    push_text(alloc, &mut texts, account.first_name.as_str())?;
    push_text(alloc, &mut texts, account.broker.as_str())?;
    Ok(texts)
}

// Returns the fields 1 to 5 of a trade.
fn first_status_fields(alloc: Global, trade: &TradeRow) -> Result<Vec<String>, AllocError>
    ensures { IfOk result (λ texts. texts_of_record texts ≡ statuses.first_five_status_fields trade.now) }
{
    let mut texts = Vec::new(alloc);
    push_number(alloc, &mut texts, trade.id.get())?;
    push_stamp(alloc, &mut texts, trade.stamp)?;
    push_text(alloc, &mut texts, trade.status.name())?;
    push_text(alloc, &mut texts, trade.kind.name())?;
    push_text(alloc, &mut texts, trade.symbol.as_str())?;
    Ok(texts)
}

// Appends the fields 6 to 10 of a trade.
fn append_last_status_fields(
    alloc: Global,
    texts: &mut Vec<String>,
    status: &TradeStatus,
) -> Result<(), AllocError>
    ensures { OnOk result (texts_of_record texts.new ≡ texts_of_record texts.old ++ statuses.last_five_status_fields status.now) }
{
    push_number(alloc, texts, u64::from(status.trade.qty.get()))?;
    push_text(alloc, texts, status.trade.executor.as_str())?;
    push_amount(
        alloc,
        texts,
        Wide::new(i128::from(status.trade.charge.get())),
    )?;
    push_text(alloc, texts, status.security.name.as_str())?;
    push_text(alloc, texts, status.security.exchange.as_str())
}

fn trade_status_texts(alloc: Global, status: &TradeStatus) -> Result<Vec<String>, AllocError>
    ensures { IfOk result (λ texts. texts_of_record texts ≡ statuses.trade_status_record status.now) }
{
    let mut texts = first_status_fields(alloc, &status.trade)?;
    append_last_status_fields(alloc, &mut texts, status)?;
    Ok(texts)
}

fn append_trade_statuses(
    alloc: Global,
    records: &mut Vec<Vec<String>>,
    trades: &[TradeStatus],
) -> Result<(), AllocError>
    ensures { OnOk result (texts_of_records records.new ≡ texts_of_records records.old ++ map statuses.trade_status_record trades.now) }
{
    for trade in trades {
        let texts = trade_status_texts(alloc, trade)?;
        records.push(texts)?;
    }
    Ok(())
}

pub(crate) fn status_records(
    alloc: Global,
    account: &AccountStatus,
) -> Result<Vec<Vec<String>>, AllocError>
    ensures { IfOk result (λ records. texts_of_records records ≡ statuses.records_of_account_status account.now) }
{
    let mut records = Vec::new(alloc);
    let names = party_texts(alloc, account)?;
    records.push(names)?;
    append_trade_statuses(alloc, &mut records, &account.trades)?;
    Ok(records)
}
