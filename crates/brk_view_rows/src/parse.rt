//! The parser of queries by the name of a view, and those of `submitted` and `estimate`.

ghost use Rattle.std.specs.Prelude.{◌≡◌, IfOk, OnErr, Err};
ghost use Rattle.brk_model.specs.Ask as model;
ghost use Rattle.brk_model.specs.Ask.{read_no_arguments};
ghost use Rattle.brk_model.specs.Parse.{read_and_wrap, read_order};
ghost use Rattle.brk_model.specs.Queries.{EstimateOf, SubmittedTrades};
ghost use Rattle.brk_money.specs.declared.fault.Fault.TheVariants.{Memory};
ghost use Rattle.brk_ref.specs.Fields.{ParsesAs, texts_of_fields};
ghost use Rattle.brk_view_rows.specs.Queries.{abstract_query};
ghost use Rattle.brk_view_rows.specs.ViewNames.{text_of_view_name};

use crate::parse_accounts::{
    parse_account_status_query, parse_customer_query, parse_recent, parse_tax_id_query,
};
use crate::parse_lookups::{
    parse_account_trades, parse_lots, parse_symbol_trades, parse_trades, parse_volume,
};
use crate::query::Query;
use crate::view_name::ViewName;
use brk_money::{Planned, Refusal};
use brk_ref_orders::parse_trade_order;
use std::alloc::{AllocError, Global};

fn parse_submitted(arguments: &[&[u8]]) -> Result<Query, Refusal>
    ensures { ParsesAs abstract_query result (read_no_arguments SubmittedTrades (texts_of_fields arguments.now)) }
{
    let [] = arguments else {
        return Err(Refusal::BadText);
    };
    Ok(Query::Submitted)
}

fn parse_estimate(alloc: Global, arguments: &[&[u8]]) -> Planned<Query, AllocError>
    ensures read { IfOk result (λ read. ParsesAs abstract_query read (read_and_wrap EstimateOf read_order (texts_of_fields arguments.now))) }
{
    match parse_trade_order(alloc, arguments)? {
        Ok(order) => Ok(Ok(Query::Estimate(order))),
        Err(refusal) => Ok(Err(refusal)),
    }
}

/// Parses a query of a view from its arguments: for `Estimate` the ten fields of an order; for
/// `Customer` the id of a customer; for `TaxId` a tax id; for `Recent` and `Status` the id of an
/// account; for `Trades` 1 to 20 trade ids; for `AccountTrades` and `SymbolTrades` an account or a
/// symbol and two stamps; for `Lots` an account and a stamp; for `Volume` a sector and 1 to 20
/// broker names. Stamps are in milliseconds since 1970-01-01 UTC; the first may be later than the
/// second.
///
/// Refuses more than 20 different ids or names with `TooMany` (20), an order whose other fields are
/// well-formed with the first that applies of `BadQty` (8), `BadPrice` (9) and `BadType` (7), and
/// other wrong arguments, such as a repeated trade id, with `BadText` (18).
#[tactic(auto, unfolding(brk_model::specs::Ask::parse_query))]
pub fn parse_for_view(
    alloc: Global,
    view: ViewName,
    arguments: &[&[u8]],
) -> Planned<Query, AllocError>
    ensures read { IfOk result (λ read. ParsesAs abstract_query read (model.parse_query (text_of_view_name view) (texts_of_fields arguments.now))) }
{
    match view {
        ViewName::Submitted => Ok(parse_submitted(arguments)),
        ViewName::Estimate => parse_estimate(alloc, arguments),
        ViewName::Customer => Ok(parse_customer_query(arguments)),
        ViewName::TaxId => parse_tax_id_query(alloc, arguments),
        ViewName::Recent => Ok(parse_recent(arguments)),
        ViewName::Status => Ok(parse_account_status_query(arguments)),
        ViewName::Trades => parse_trades(alloc, arguments),
        ViewName::AccountTrades => Ok(parse_account_trades(arguments)),
        ViewName::SymbolTrades => parse_symbol_trades(alloc, arguments),
        ViewName::Lots => Ok(parse_lots(arguments)),
        ViewName::Volume => parse_volume(alloc, arguments),
    }
}

/// Parses a query from the text of its view's name and its arguments, as `parse_for_view`
/// does. Refuses an unknown name with `BadText` (18), whatever the arguments are. Fails with
/// `Memory` only.
#[tactic(auto, using(crate::proofs::Named::no_query))]
pub fn parse_query(alloc: Global, view: &str, arguments: &[&[u8]]) -> Planned<Query>
    ensures read { IfOk result (λ read. ParsesAs abstract_query read (model.parse_query view.now (texts_of_fields arguments.now))) }
    ensures fault { OnErr result (result ≡ Err Memory) }
{
    match ViewName::from_text(view) {
        Some(view) => Ok(parse_for_view(alloc, view, arguments)?),
        None => Ok(Err(Refusal::BadText)),
    }
}
