ghost use Rattle.std.specs.Prelude.{IfOk};
ghost use Rattle.brk_model.specs.Commands.{ChangeExecutors};
ghost use Rattle.brk_model.specs.Forms.{read_distinct_ids};
ghost use Rattle.brk_model.specs.Parse.{read_and_wrap, read_cash_type_update, read_cash_name_update};
ghost use Rattle.brk_ref_orders.specs.Records.{text_update_command};
ghost use Rattle.brk_ref.specs.Fields.{ParsesAs, texts_of_fields};

use crate::trade_ids::{TradeIds, parse_trade_ids};
use brk_money::{Id, Planned, Refusal};
use brk_ref::{Span, Symbol, parse_id, parse_stamp};
use std::alloc::{AllocError, Global};

/// A requested text update (Trade-Update): the text that it replaces, and the trades that it
/// selects.
#[derive(Drop)]
pub enum Update {
    /// Updates the executors' names of the trades with these ids.
    Executors(TradeIds),
    /// Updates the cash types (SE_CASH_TYPE) of at most 20 trades, the oldest first, of an account
    /// that were completed between two stamps, both included.
    CashTypes { account: Id, span: Span },
    /// Updates the cash names, the texts of the cash rows, of at most 20 cash trades, the oldest
    /// first, of a security that were completed between two stamps, both included.
    CashNames { symbol: Symbol, span: Span },
}

/// Parses the ids of the trades, as `parse_trade_ids` does.
pub fn parse_executor_update(alloc: Global, fields: &[&[u8]]) -> Planned<Update, AllocError>
    ensures read { IfOk result (λ read. ParsesAs text_update_command read (read_and_wrap ChangeExecutors read_distinct_ids (texts_of_fields fields.now))) }
{
    match parse_trade_ids(alloc, fields)? {
        Ok(trades) => Ok(Ok(Update::Executors(trades))),
        Err(refusal) => Ok(Err(refusal)),
    }
}

/// Parses the fields ACCOUNT, FROM and TO, the last two in milliseconds since 1970-01-01 UTC. FROM
/// may be later than TO; the span is then empty. Refuses with `BadText` (18).
pub fn parse_cash_type_update(fields: &[&[u8]]) -> Result<Update, Refusal>
    ensures { ParsesAs text_update_command result (read_cash_type_update (texts_of_fields fields.now)) }
{
    let [account, first, last] = fields else {
        return Err(Refusal::BadText);
    };
    let Some(account) = parse_id(account) else {
        return Err(Refusal::BadText);
    };
    let Some(first) = parse_stamp(first) else {
        return Err(Refusal::BadText);
    };
    let Some(last) = parse_stamp(last) else {
        return Err(Refusal::BadText);
    };
    let span = Span { first, last };
    Ok(Update::CashTypes { account, span })
}

/// Parses the fields SYMBOL, FROM and TO, as `parse_cash_type_update` does.
pub fn parse_cash_name_update(alloc: Global, fields: &[&[u8]]) -> Planned<Update, AllocError>
    ensures read { IfOk result (λ read. ParsesAs text_update_command read (read_cash_name_update (texts_of_fields fields.now))) }
{
    let [symbol, first, last] = fields else {
        return Ok(Err(Refusal::BadText));
    };
    let Some(symbol) = Symbol::parse(alloc, symbol)? else {
        return Ok(Err(Refusal::BadText));
    };
    let Some(first) = parse_stamp(first) else {
        return Ok(Err(Refusal::BadText));
    };
    let Some(last) = parse_stamp(last) else {
        return Ok(Err(Refusal::BadText));
    };
    let span = Span { first, last };
    Ok(Ok(Update::CashNames { symbol, span }))
}
