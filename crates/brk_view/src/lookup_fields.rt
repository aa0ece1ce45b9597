//! The records of looked-up trades: one of the trade, in fifteen fields, then those of its
//! settlement, its cash row and its statuses.

ghost use Rattle.std.specs.Prelude.{◌≡◌, ◌++◌, ◌∷◌, [], IfOk, OnOk, flat_map, map, option_map, option_to_list};
ghost use Rattle.brk_ref.specs.Rows.{abstract_cash_row, abstract_settlement_row, abstract_trade_row};
ghost use Rattle.brk_model.specs.LookupView as model;
ghost use Rattle.brk_view_rows.specs.Lookup.{cash_and_lifo_fields, price_and_cost_fields, records_of_looked_up_trade};
ghost use Rattle.brk_view_rows.specs.Lookup.{history_status_record, first_five_trade_fields, order_fields_of_trade};
ghost use Rattle.brk_view_rows.specs.Views.{texts_of_record, texts_of_records};

use crate::texts::{push_amount, push_day, push_number, push_price, push_stamp, push_text};
use brk_money::Wide;
use brk_ref::{CashRow, SettlementRow, TradeRow, cash_or_margin_word, lifo_or_fifo_word};
use brk_view_rows::lookups::{LookedUp, StampedStatus};
use std::alloc::{AllocError, Global};

// Returns the fields 1 to 5.
fn trade_head(alloc: Global, trade: &TradeRow) -> Result<Vec<String>, AllocError>
    ensures { IfOk result (λ texts. texts_of_record texts ≡ first_five_trade_fields (abstract_trade_row trade.now)) }
{
    let mut texts = Vec::new(alloc);
    push_text(alloc, &mut texts, "trade")?;
    push_number(alloc, &mut texts, trade.id.get())?;
    push_stamp(alloc, &mut texts, trade.stamp)?;
    push_text(alloc, &mut texts, trade.status.code())?;
    push_text(alloc, &mut texts, trade.kind.code())?;
    Ok(texts)
}

// Appends the fields 6 to 9.
fn append_order_fields(
    alloc: Global,
    texts: &mut Vec<String>,
    trade: &TradeRow,
) -> Result<(), AllocError>
    ensures { OnOk result (texts_of_record texts.new ≡ texts_of_record texts.old ++ order_fields_of_trade (abstract_trade_row trade.now)) }
{
    push_text(alloc, texts, trade.symbol.as_str())?;
    push_number(alloc, texts, u64::from(trade.qty.get()))?;
    push_amount(alloc, texts, Wide::from(trade.bid))?;
    push_text(alloc, texts, trade.executor.as_str())
}

// Appends the fields 10 to 13; the price is empty if the trade has none.
fn append_costs(alloc: Global, texts: &mut Vec<String>, trade: &TradeRow) -> Result<(), AllocError>
    ensures { OnOk result (texts_of_record texts.new ≡ texts_of_record texts.old ++ price_and_cost_fields (abstract_trade_row trade.now)) }
{
    push_price(alloc, texts, trade.price)?;
    push_amount(alloc, texts, Wide::new(i128::from(trade.charge.get())))?;
    push_amount(alloc, texts, Wide::from(trade.commission))?;
    push_amount(alloc, texts, Wide::from(trade.tax))
}

// Appends the fields 14 and 15.
fn append_flags(alloc: Global, texts: &mut Vec<String>, trade: &TradeRow) -> Result<(), AllocError>
    ensures { OnOk result (texts_of_record texts.new ≡ texts_of_record texts.old ++ cash_and_lifo_fields (abstract_trade_row trade.now)) }
{
    push_text(alloc, texts, cash_or_margin_word(trade.is_cash))?;
    push_text(alloc, texts, lifo_or_fifo_word(trade.is_lifo))
}

fn trade_record_texts(alloc: Global, trade: &TradeRow) -> Result<Vec<String>, AllocError>
    ensures { IfOk result (λ texts. texts_of_record texts ≡ model.trade_record (abstract_trade_row trade.now)) }
{
    let mut texts = trade_head(alloc, trade)?;
    append_order_fields(alloc, &mut texts, trade)?;
    append_costs(alloc, &mut texts, trade)?;
    append_flags(alloc, &mut texts, trade)?;
    Ok(texts)
}

fn settlement_texts(alloc: Global, row: SettlementRow) -> Result<Vec<String>, AllocError>
    ensures { IfOk result (λ texts. texts_of_record texts ≡ model.settlement_record (abstract_settlement_row row)) }
{
    let mut texts = Vec::new(alloc);
    push_text(alloc, &mut texts, "settlement")?;
    push_text(alloc, &mut texts, row.cash_type.text())?;
    push_day(alloc, &mut texts, row.due_day)?;
    push_amount(alloc, &mut texts, Wide::from(row.amount))?;
    Ok(texts)
}

fn cash_row_texts(alloc: Global, row: &CashRow) -> Result<Vec<String>, AllocError>
    ensures { IfOk result (λ texts. texts_of_record texts ≡ model.cash_record (abstract_cash_row row.now)) }
{
    let mut texts = Vec::new(alloc);
    push_text(alloc, &mut texts, "cash")?;
    push_stamp(alloc, &mut texts, row.stamp)?;
    push_amount(alloc, &mut texts, Wide::from(row.amount))?;
    push_text(alloc, &mut texts, row.name.as_str())?;
    Ok(texts)
}

fn stamped_status_texts(alloc: Global, moment: StampedStatus) -> Result<Vec<String>, AllocError>
    ensures { IfOk result (λ texts. texts_of_record texts ≡ history_status_record moment) }
{
    let mut texts = Vec::new(alloc);
    push_text(alloc, &mut texts, "history")?;
    push_stamp(alloc, &mut texts, moment.stamp)?;
    push_text(alloc, &mut texts, moment.status.code())?;
    Ok(texts)
}

fn append_settlement(
    alloc: Global,
    records: &mut Vec<Vec<String>>,
    row: Option<SettlementRow>,
) -> Result<(), AllocError>
    ensures { OnOk result (texts_of_records records.new
        ≡ texts_of_records records.old ++ map model.settlement_record (option_to_list (option_map abstract_settlement_row row))) }
{
    if let Some(row) = row {
        let texts = settlement_texts(alloc, row)?;
        records.push(texts)?;
    }
    Ok(())
}

fn append_cash_row(
    alloc: Global,
    records: &mut Vec<Vec<String>>,
    row: &Option<CashRow>,
) -> Result<(), AllocError>
    ensures { OnOk result (texts_of_records records.new
        ≡ texts_of_records records.old ++ map model.cash_record (option_to_list (option_map abstract_cash_row row.now))) }
{
    if let Some(row) = row {
        let texts = cash_row_texts(alloc, row)?;
        records.push(texts)?;
    }
    Ok(())
}

fn append_stamped_statuses(
    alloc: Global,
    records: &mut Vec<Vec<String>>,
    history: &[StampedStatus],
) -> Result<(), AllocError>
    ensures { OnOk result (texts_of_records records.new ≡ texts_of_records records.old ++ map history_status_record history.now) }
{
    for moment in history {
        let texts = stamped_status_texts(alloc, *moment)?;
        records.push(texts)?;
    }
    Ok(())
}

fn append_trade_record(
    alloc: Global,
    records: &mut Vec<Vec<String>>,
    trade: &TradeRow,
) -> Result<(), AllocError>
    ensures { OnOk result (texts_of_records records.new ≡ texts_of_records records.old ++ model.trade_record (abstract_trade_row trade.now) ∷ []) }
{
    records.push(trade_record_texts(alloc, trade)?)?;
    Ok(())
}

fn append_looked_up_trade(
    alloc: Global,
    records: &mut Vec<Vec<String>>,
    found: &LookedUp,
) -> Result<(), AllocError>
    ensures { OnOk result (texts_of_records records.new ≡ texts_of_records records.old ++ records_of_looked_up_trade found.now) }
{
    append_trade_record(alloc, records, &found.trade)?;
    append_settlement(alloc, records, found.settlement)?;
    append_cash_row(alloc, records, &found.cash)?;
    append_stamped_statuses(alloc, records, &found.history)?;
    Ok(())
}

pub(crate) fn lookup_records(
    alloc: Global,
    trades: &[LookedUp],
) -> Result<Vec<Vec<String>>, AllocError>
    ensures { IfOk result (λ records. texts_of_records records ≡ flat_map records_of_looked_up_trade trades.now) }
{
    let mut records = Vec::new(alloc);
    for found in trades {
        append_looked_up_trade(alloc, &mut records, found)?;
    }
    Ok(records)
}
