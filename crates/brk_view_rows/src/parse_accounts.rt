//! The parsers of the queries about customers and accounts.

ghost use Rattle.std.specs.Prelude.{IfOk};
ghost use Rattle.brk_model.specs.Ask.{read_single_argument};
ghost use Rattle.brk_model.specs.Forms.{read_id, read_tax_id};
ghost use Rattle.brk_model.specs.Parse.{read_and_wrap};
ghost use Rattle.brk_model.specs.Queries.{PositionOf, PositionOfTaxId, RecentOf, StatusOf};
ghost use Rattle.brk_ref.specs.Fields.{ParsesAs, texts_of_fields};
ghost use Rattle.brk_view_rows.specs.Queries.{abstract_query};

use crate::query::Query;
use brk_money::{Planned, Refusal};
use brk_ref::{TaxId, parse_id};
use std::alloc::{AllocError, Global};

pub(crate) fn parse_customer_query(arguments: &[&[u8]]) -> Result<Query, Refusal>
    ensures { ParsesAs abstract_query result (read_single_argument (read_and_wrap PositionOf read_id) (texts_of_fields arguments.now)) }
{
    let [customer] = arguments else {
        return Err(Refusal::BadText);
    };
    let Some(customer) = parse_id(customer) else {
        return Err(Refusal::BadText);
    };
    Ok(Query::Position(customer))
}

pub(crate) fn parse_tax_id_query(alloc: Global, arguments: &[&[u8]]) -> Planned<Query, AllocError>
    ensures read { IfOk result (λ read. ParsesAs abstract_query read
        (read_single_argument (read_and_wrap PositionOfTaxId read_tax_id) (texts_of_fields arguments.now))) }
{
    let [tax_id] = arguments else {
        return Ok(Err(Refusal::BadText));
    };
    let Some(tax_id) = TaxId::parse(alloc, tax_id)? else {
        return Ok(Err(Refusal::BadText));
    };
    Ok(Ok(Query::PositionOfTaxId(tax_id)))
}

pub(crate) fn parse_recent(arguments: &[&[u8]]) -> Result<Query, Refusal>
    ensures { ParsesAs abstract_query result (read_single_argument (read_and_wrap RecentOf read_id) (texts_of_fields arguments.now)) }
{
    let [account] = arguments else {
        return Err(Refusal::BadText);
    };
    let Some(account) = parse_id(account) else {
        return Err(Refusal::BadText);
    };
    Ok(Query::Recent(account))
}

pub(crate) fn parse_account_status_query(arguments: &[&[u8]]) -> Result<Query, Refusal>
    ensures { ParsesAs abstract_query result (read_single_argument (read_and_wrap StatusOf read_id) (texts_of_fields arguments.now)) }
{
    let [account] = arguments else {
        return Err(Refusal::BadText);
    };
    let Some(account) = parse_id(account) else {
        return Err(Refusal::BadText);
    };
    Ok(Query::Status(account))
}
