ghost use Rattle.std.specs.Prelude.{◌≡◌, ◌&&◌, ◌∷◌, [], IfOk, OnErr, Err, find, map, nat_le, option_map};
ghost use Rattle.std.specs.List.{list_any};
ghost use Rattle.std.specs.Option.{ok_or};
ghost use Rattle.brk_model.specs.Parse.{read_commission_band, read_quantity_bounds};
ghost use Rattle.brk_model.specs.Tests.{bands_overlap};
ghost use Rattle.brk_money.specs.declared.fault.Fault.TheVariants.{Memory};
ghost use Rattle.brk_money.specs.declared.refusal.Refusal.TheVariants.{BadQty};
ghost use Rattle.brk_ref.specs.Records.{abstract_band};
ghost use Rattle.brk_ref.specs.Fields.{ParsesAs, texts_of_fields};

use crate::exchange::Exchange;
use crate::numbers::{parse_qty, parse_rate};
use crate::tier::Tier;
use crate::trade_type::parse_type;
use brk_money::{Planned, Qty, Rate, Refusal, TradeType};
use std::alloc::{AllocError, Global};

/// The commission rate, in hundredths of a percent, of a tier, a type and an exchange for
/// quantities between two bounds, both included (a row of COMMISSION_RATE).
#[derive(Clone, Drop)]
pub struct Band {
    pub tier: Tier,
    pub kind: TradeType,
    pub exchange: Exchange,
    pub from_qty: Qty,
    pub to_qty: Qty,
    pub rate: Rate,
}

fn parse_qty_range(low: &[u8], high: &[u8]) -> Option<(Qty, Qty)>
    ensures { ok_or result BadQty ≡ read_quantity_bounds low.now high.now }
{
    let Some(low) = parse_qty(low) else {
        return None;
    };
    let Some(high) = parse_qty(high) else {
        return None;
    };
    if low.get() <= high.get() {
        Some((low, high))
    } else {
        None
    }
}

fn parse_band(
    alloc: Global,
    tier: &[u8],
    kind: &[u8],
    exchange: &[u8],
    low: &[u8],
    high: &[u8],
    rate: &[u8],
) -> Planned<Band, AllocError>
    ensures { IfOk result (λ read. ParsesAs abstract_band read (read_commission_band (tier.now ∷ kind.now ∷ exchange.now ∷ low.now ∷ high.now ∷ rate.now
        ∷ []))) }
{
    let Some(tier) = Tier::parse(tier) else {
        return Ok(Err(Refusal::BadText));
    };
    let Some(exchange) = Exchange::parse(alloc, exchange)? else {
        return Ok(Err(Refusal::BadText));
    };
    let Some(rate) = parse_rate(rate) else {
        return Ok(Err(Refusal::BadText));
    };
    let Some((from_qty, to_qty)) = parse_qty_range(low, high) else {
        return Ok(Err(Refusal::BadQty));
    };
    let Some(kind) = parse_type(kind) else {
        return Ok(Err(Refusal::BadType));
    };
    Ok(Ok(Band {
        tier,
        kind,
        exchange,
        from_qty,
        to_qty,
        rate,
    }))
}

/// Parses the fields TIER, TYPE, EXCHANGE, FROM, TO and RATE. Refuses with `BadText` (18),
/// otherwise with `BadQty` (8), also if FROM exceeds TO, otherwise with `BadType` (7).
pub fn check_band(alloc: Global, fields: &[&[u8]]) -> Planned<Band>
    ensures read { IfOk result (λ read. ParsesAs abstract_band read (read_commission_band (texts_of_fields fields.now))) }
    ensures fault { OnErr result (result ≡ Err Memory) }
{
    let [tier, kind, exchange, low, high, rate] = fields else {
        return Ok(Err(Refusal::BadText));
    };
    Ok(parse_band(alloc, tier, kind, exchange, low, high, rate)?)
}

/// Returns true if the quantity is within the bounds of the band, both included.
pub fn band_contains_quantity(band: &Band, qty: Qty) -> bool
    ensures { result ≡ nat_le band.now.from_qty qty && nat_le qty band.now.to_qty }
{
    band.from_qty.get() <= qty.get() && qty.get() <= band.to_qty.get()
}

/// Returns true if tier, type and exchange are equal and the lower bound of each band is at most
/// the upper bound of the other.
pub fn are_overlapping_bands(one: &Band, other: &Band) -> bool
    ensures { result ≡ bands_overlap (abstract_band one.now) (abstract_band other.now) }
{
    one.tier == other.tier
        && one.kind == other.kind
        && one.exchange.as_str() == other.exchange.as_str()
        && one.from_qty.get() <= other.to_qty.get()
        && other.from_qty.get() <= one.to_qty.get()
}

/// Returns the rate of the first band that contains the quantity. Tier, type and exchange are not
/// compared: pass the bands of one combination.
pub fn band_for(bands: &[Band], qty: Qty) -> Option<Rate>
    ensures { result ≡ option_map (λ b. b.rate) (find (λ b. nat_le b.from_qty qty && nat_le qty b.to_qty) (map abstract_band bands.now)) }
{
    let Some(band) = bands.iter().find(|band| band_contains_quantity(band, qty)) else {
        return None;
    };
    Some(band.rate)
}

/// Returns true if one of `bands` overlaps `band`.
pub fn overlaps(bands: &[Band], band: &Band) -> bool
    ensures { result ≡ list_any (bands_overlap (abstract_band band.now)) (map abstract_band bands.now) }
{
    bands.iter().any(|other| are_overlapping_bands(band, other))
}
