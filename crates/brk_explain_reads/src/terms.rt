//! The tax rates and the commission band of a trade, as the tables have them now.

ghost use Rattle.std.specs.Prelude.{◌≡◌, ◌&&◌, Some, find, if◌then◌else◌, map, nat_le, option_map};
ghost use Rattle.brk_ref.specs.Rows.{abstract_trade_row};
ghost use Rattle.brk_model_explain.specs.Trades.{band_for_tier_and_exchange, tax_rates_of_customer};
ghost use Rattle.brk_explain_reads.specs.Found.{AreTaxRatesAndBand};
ghost use Rattle.brk_ref.specs.Records.{abstract_band, abstract_tax_rate};
ghost use Rattle.brk_store_transactions.specs.Holds.{ReadPost};

use brk_explain_rows::OrderDetails;
use brk_money::{CallFault, Id, Qty};
use brk_ref::{Band, Tax, Tier, band_contains_quantity};
use brk_store::Store;
use brk_store_required::{require_customer, require_tax};
use sqlite::Alter;
use std::alloc::Global;

/// The tax rates of the customer of a trade, and the commission band of the trade, if there is one.
#[derive(Drop)]
pub struct TaxRatesAndBand {
    pub rates: Vec<Tax>,
    pub band: Option<Band>,
}

fn customer_rates<S: Alter>(
    alloc: Global,
    store: &mut Store<S>,
    customer: Id,
) -> Result<Vec<Tax>, CallFault>
    ensures { ReadPost S.Store store.old store.new result (λ rates t. map abstract_tax_rate rates.items ≡ tax_rates_of_customer t customer) }
{
    let rows = store.taxes_of_customer(alloc, customer)?;
    let mut rates = Vec::new(alloc);
    for row in &rows {
        let rate = require_tax(store, row.tax)?;
        rates.push(rate)?;
    }
    Ok(rates)
}

fn prefer_band_with_quantity(band: Band, qty: Qty, other: Option<Band>) -> Option<Band>
    ensures { option_map abstract_band result
        ≡ (if nat_le band.from_qty qty && nat_le qty band.to_qty then Some (abstract_band band) else option_map abstract_band other) }
{
    if band_contains_quantity(&band, qty) {
        Some(band)
    } else {
        other
    }
}

// As `band_for`, but returns the whole band. Goes through the bands from the last one on, so the
// first match is the last one found.
fn band_with_quantity(bands: Vec<Band>, qty: Qty) -> Option<Band>
    ensures { option_map abstract_band result ≡ find (λ b. nat_le b.from_qty qty && nat_le qty b.to_qty) (map abstract_band bands.items) }
{
    let mut rest = bands;
    let mut found = None;
    while let Some(band) = rest.pop() {
        found = prefer_band_with_quantity(band, qty, found);
    }
    found
}

// Reads the bands of `tier`, and returns the one that applies to the order, if there is one.
fn band_for_tier<S: Alter>(
    alloc: Global,
    store: &mut Store<S>,
    order: &OrderDetails,
    tier: Tier,
) -> Result<Option<Band>, CallFault>
    ensures { ReadPost S.Store store.old store.new result (λ band t. option_map abstract_band band
        ≡ band_for_tier_and_exchange t (abstract_trade_row order.now.trade) tier order.now.security.exchange) }
{
    let bands = store.commission_bands(alloc, tier, order.trade.kind, &order.security.exchange)?;
    Ok(band_with_quantity(bands, order.trade.qty))
}

pub(crate) fn read_tax_rates_with_band<S: Alter>(
    alloc: Global,
    store: &mut Store<S>,
    order: &OrderDetails,
) -> Result<TaxRatesAndBand, CallFault>
    ensures { ReadPost S.Store store.old store.new result (λ terms t. AreTaxRatesAndBand t order.now terms) }
{
    let id = order.account.account.customer;
    let customer = require_customer(store, id)?;
    let rates = customer_rates(alloc, store, id)?;
    let band = band_for_tier(alloc, store, order, customer.tier)?;
    Ok(TaxRatesAndBand { rates, band })
}
