ghost use Rattle.std.specs.Prelude.{◌∷◌, [], IfOk};
ghost use Rattle.brk_model.specs.Parse.{read_ticks};
ghost use Rattle.brk_ref_orders.specs.Records.{abstract_tick_as_list};
ghost use Rattle.brk_ref.specs.Fields.{ParsesAs};

use brk_money::{Planned, Price, Qty, Refusal};
use brk_ref::{Symbol, parse_price, parse_qty};
use std::alloc::{AllocError, Global};

/// A trade on the market, as a feed reports it (Market-Feed).
#[derive(Drop)]
pub struct Tick {
    pub symbol: Symbol,
    pub price: Price,
    pub qty: Qty,
}

pub(crate) fn parse_tick(
    alloc: Global,
    symbol: &[u8],
    price: &[u8],
    qty: &[u8],
) -> Planned<Tick, AllocError>
    ensures read { IfOk result (λ read. ParsesAs abstract_tick_as_list read (read_ticks (symbol.now ∷ price.now ∷ qty.now ∷ []))) }
{
    let Some(symbol) = Symbol::parse(alloc, symbol)? else {
        return Ok(Err(Refusal::BadText));
    };
    let Some(qty) = parse_qty(qty) else {
        return Ok(Err(Refusal::BadQty));
    };
    let Some(price) = parse_price(price) else {
        return Ok(Err(Refusal::BadPrice));
    };
    Ok(Ok(Tick { symbol, price, qty }))
}
