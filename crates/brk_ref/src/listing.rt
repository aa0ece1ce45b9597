//! A security to list with its first price, and the parser of a row `security`.

ghost use Rattle.std.specs.Prelude.{◌≡◌, ◌∷◌, [], IfOk, OnErr, Err};
ghost use Rattle.brk_model.specs.Parse.{read_listing};
ghost use Rattle.brk_money.specs.declared.fault.Fault.TheVariants.{Memory};
ghost use Rattle.brk_ref.specs.Records.{abstract_listing};
ghost use Rattle.brk_ref.specs.Fields.{ParsesAs, texts_of_fields};

use crate::exchange::Exchange;
use crate::name::Name;
use crate::numbers::parse_price;
use crate::security::Security;
use crate::symbol::Symbol;
use brk_money::{Planned, Price, Refusal};
use std::alloc::{AllocError, Global};

/// A security to list, with its first price per share, in cents.
#[derive(Drop)]
pub struct Listing {
    pub security: Security,
    pub price: Price,
}

fn parse_listing(
    alloc: Global,
    symbol: &[u8],
    name: &[u8],
    exchange: &[u8],
    sector: &[u8],
    price: &[u8],
) -> Planned<Listing, AllocError>
    ensures { IfOk result (λ read. ParsesAs abstract_listing read (read_listing (symbol.now ∷ name.now ∷ exchange.now ∷ sector.now ∷ price.now ∷ []))) }
{
    let Some(symbol) = Symbol::parse(alloc, symbol)? else {
        return Ok(Err(Refusal::BadText));
    };
    let Some(name) = Name::parse(alloc, name)? else {
        return Ok(Err(Refusal::BadText));
    };
    let Some(exchange) = Exchange::parse(alloc, exchange)? else {
        return Ok(Err(Refusal::BadText));
    };
    let Some(sector) = Name::parse(alloc, sector)? else {
        return Ok(Err(Refusal::BadText));
    };
    let Some(price) = parse_price(price) else {
        return Ok(Err(Refusal::BadPrice));
    };
    let security = Security {
        symbol,
        name,
        exchange,
        sector,
    };
    Ok(Ok(Listing { security, price }))
}

/// Parses the fields SYMBOL, NAME, EXCHANGE, SECTOR and PRICE. Refuses with `BadText` (18),
/// otherwise with `BadPrice` (9).
pub fn check_security(alloc: Global, fields: &[&[u8]]) -> Planned<Listing>
    ensures read { IfOk result (λ read. ParsesAs abstract_listing read (read_listing (texts_of_fields fields.now))) }
    ensures fault { OnErr result (result ≡ Err Memory) }
{
    let [symbol, name, exchange, sector, price] = fields else {
        return Ok(Err(Refusal::BadText));
    };
    Ok(parse_listing(alloc, symbol, name, exchange, sector, price)?)
}
