//! The parsers of the queries of looked-up trades, lots and volumes.

ghost use Rattle.std.specs.Prelude.{IfOk};
ghost use Rattle.brk_model.specs.Ask.{read_lots_query, read_value_and_stamps, read_volume_query};
ghost use Rattle.brk_model.specs.Forms.{read_id, read_distinct_ids, read_symbol};
ghost use Rattle.brk_model.specs.Parse.{read_and_wrap};
ghost use Rattle.brk_model.specs.Queries.{TradesOfAccount, TradesOfSymbol, TradesWith};
ghost use Rattle.brk_ref.specs.Fields.{ParsesAs, texts_of_fields};
ghost use Rattle.brk_view_rows.specs.Queries.{abstract_query};

use crate::broker_names::parse_brokers;
use crate::named_trades::parse_named_trades;
use crate::query::Query;
use brk_money::{Planned, Refusal};
use brk_ref::{Name, Span, Symbol, parse_id, parse_stamp};
use std::alloc::{AllocError, Global};

pub(crate) fn parse_trades(alloc: Global, arguments: &[&[u8]]) -> Planned<Query, AllocError>
    ensures read { IfOk result (λ read. ParsesAs abstract_query read (read_and_wrap TradesWith read_distinct_ids (texts_of_fields arguments.now))) }
{
    match parse_named_trades(alloc, arguments)? {
        Ok(trades) => Ok(Ok(Query::Trades(trades))),
        Err(refusal) => Ok(Err(refusal)),
    }
}

pub(crate) fn parse_account_trades(arguments: &[&[u8]]) -> Result<Query, Refusal>
    ensures { ParsesAs abstract_query result
        (read_value_and_stamps read_id (λ account first last. TradesOfAccount account first last) (texts_of_fields arguments.now)) }
{
    let [account, first, last] = arguments else {
        return Err(Refusal::BadText);
    };
    let Some(account) = parse_id(account) else {
        return Err(Refusal::BadText);
    };
    let Some(first) = parse_stamp(first) else {
        return Err(Refusal::BadText);
    };
    let Some(last) = parse_stamp(last) else {
        return Err(Refusal::BadText);
    };
    let span = Span { first, last };
    Ok(Query::AccountTrades { account, span })
}

pub(crate) fn parse_symbol_trades(alloc: Global, arguments: &[&[u8]]) -> Planned<Query, AllocError>
    ensures read { IfOk result (λ read. ParsesAs abstract_query read
        (read_value_and_stamps read_symbol (λ symbol first last. TradesOfSymbol symbol first last) (texts_of_fields arguments.now))) }
{
    let [symbol, first, last] = arguments else {
        return Ok(Err(Refusal::BadText));
    };
    let Some(symbol) = Symbol::parse(alloc, symbol)? else {
        return Ok(Err(Refusal::BadText));
    };
    let Some(first) = parse_stamp(first) else {
        return Ok(Err(Refusal::BadText));
    };
    let Some(last) = parse_stamp(last) else {
        return Ok(Err(Refusal::BadText));
    };
    let span = Span { first, last };
    Ok(Ok(Query::SymbolTrades { symbol, span }))
}

pub(crate) fn parse_lots(arguments: &[&[u8]]) -> Result<Query, Refusal>
    ensures { ParsesAs abstract_query result (read_lots_query (texts_of_fields arguments.now)) }
{
    let [account, first] = arguments else {
        return Err(Refusal::BadText);
    };
    let Some(account) = parse_id(account) else {
        return Err(Refusal::BadText);
    };
    let Some(first) = parse_stamp(first) else {
        return Err(Refusal::BadText);
    };
    Ok(Query::Lots { account, first })
}

#[tactic(auto, using(brk_ref::proofs::Applied::text_left, brk_ref::proofs::Applied::text_right))]
pub(crate) fn parse_volume(alloc: Global, arguments: &[&[u8]]) -> Planned<Query, AllocError>
    ensures read { IfOk result (λ read. ParsesAs abstract_query read (read_volume_query (texts_of_fields arguments.now))) }
{
    let [sector, names @ ..] = arguments else {
        return Ok(Err(Refusal::BadText));
    };
    let Some(sector) = Name::parse(alloc, sector)? else {
        return Ok(Err(Refusal::BadText));
    };
    match parse_brokers(alloc, names)? {
        Ok(names) => Ok(Ok(Query::Volume { sector, names })),
        Err(refusal) => Ok(Err(refusal)),
    }
}
