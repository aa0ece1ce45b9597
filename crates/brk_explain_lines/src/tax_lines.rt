//! The lines of the tax and of the commission of a completed trade. After an error a part of them
//! may be appended.

ghost use Rattle.std.specs.Prelude.{◌≡◌, ◌++◌, OnOk, codes, map, option_map};
ghost use Rattle.brk_model_explain.specs.Texts.{labeled_number};
ghost use Rattle.brk_model_explain.specs.TradeLines as lines;
ghost use Rattle.brk_explain_rows.specs.Details.{abstract_order_details, abstract_result_details};
ghost use Rattle.brk_model.specs.Statement.{text_of_lines};
ghost use Rattle.brk_ref.specs.Records.{abstract_band, abstract_tax_rate};
ghost use Rattle.brk_report_lines.specs.Written.{line_with_line_feed};

use crate::amounts::{current_commission, sum_of_tax_rates, tax_at_current_rates};
use brk_explain_columns::{
    align_number, end_line, put_amount_fact, put_labeled_number, put_number_fact, put_numbered,
    put_spaced_line, put_text, put_text_line, put_value_fact,
};
use brk_explain_rows::{OrderDetails, ResultDetails};
use brk_money::{Amount, CallFault, TaxRate, Wide};
use brk_ref::{Band, Tax};
use brk_report_lines::append_left_aligned;
use std::alloc::{AllocError, Global};

// Writes the rate in hundred-thousandths.
#[tactic(auto, unfolding(brk_model_explain::specs::TradeLines::tax_rate_line))]
fn put_tax_rate(out: &mut Vec<u8>, rate: &Tax) -> Result<(), AllocError>
    ensures { OnOk result (out.new.items ≡ out.old.items ++ line_with_line_feed (lines.tax_rate_line (abstract_tax_rate rate.now))) }
{
    append_left_aligned(out, 6, b"Rate")?;
    align_number(out, 13, rate.id.get())?;
    align_number(out, 11, u64::from(rate.rate.get()))?;
    put_spaced_line(out, rate.name.as_str().as_bytes())
}

fn put_tax_rates(out: &mut Vec<u8>, rates: &[Tax]) -> Result<(), AllocError>
    ensures { OnOk result (out.new.items ≡ out.old.items ++ text_of_lines (map lines.tax_rate_line (map abstract_tax_rate rates.now))) }
{
    for rate in rates {
        put_tax_rate(out, rate)?;
    }
    Ok(())
}

#[tactic(auto, unfolding(brk_model_explain::specs::TradeLines::account_tax_status_lines))]
fn put_tax_status(out: &mut Vec<u8>, order: &OrderDetails) -> Result<(), AllocError>
    ensures { OnOk result (out.new.items ≡ out.old.items ++ text_of_lines (lines.account_tax_status_lines (abstract_order_details order.now))) }
{
    let status = order.account.account.tax_status;
    put_number_fact(out, "Tax status", u64::from(status.number()))
}

fn put_rate_sum(out: &mut Vec<u8>, rates: TaxRate) -> Result<(), AllocError>
    ensures { OnOk result (out.new.items ≡ out.old.items ++ line_with_line_feed (labeled_number (codes "Rates now") rates ++ codes " of 100000")) }
{
    put_labeled_number(out, "Rates now", u64::from(rates.get()))?;
    put_text_line(out, b" of 100000")
}

#[tactic(auto, unfolding(brk_model_explain::specs::TradeLines::current_and_recorded_tax_lines))]
fn put_tax_amounts(
    alloc: Global,
    out: &mut Vec<u8>,
    order: &OrderDetails,
    details: &ResultDetails,
) -> Result<(), CallFault>
    ensures { OnOk result (out.new.items
        ≡ out.old.items ++ text_of_lines (lines.current_and_recorded_tax_lines (abstract_order_details order.now) (abstract_result_details details.now))) }
{
    let rates = sum_of_tax_rates(&details.rates)?;
    let now = tax_at_current_rates(order, details)?;
    put_rate_sum(out, rates)?;
    put_amount_fact(alloc, out, "Tax now", now)?;
    Ok(put_amount_fact(alloc, out, "Tax recorded", Wide::from(order.trade.tax))?)
}

#[tactic(auto, unfolding(brk_model_explain::specs::TradeLines::trade_tax_lines))]
pub(crate) fn put_tax_lines(
    alloc: Global,
    out: &mut Vec<u8>,
    order: &OrderDetails,
    details: &ResultDetails,
) -> Result<(), CallFault>
    ensures { OnOk result (out.new.items
        ≡ out.old.items ++ text_of_lines (lines.trade_tax_lines (abstract_order_details order.now) (abstract_result_details details.now))) }
{
    put_tax_status(out, order)?;
    put_tax_rates(out, &details.rates)?;
    put_tax_amounts(alloc, out, order, details)
}

// Writes a text such as ` of 10000 for 1 to 500`; both bounds are included.
#[tactic(auto, unfolding(brk_model_explain::specs::TradeLines::band_unit_and_bounds_text))]
fn put_band_bounds(out: &mut Vec<u8>, band: &Band) -> Result<(), AllocError>
    ensures { OnOk result (out.new.items ≡ out.old.items ++ lines.band_unit_and_bounds_text (abstract_band band.now)) }
{
    put_numbered(out, " of 10000 for ", u64::from(band.from_qty.get()))?;
    put_numbered(out, " to ", u64::from(band.to_qty.get()))
}

// Writes a text such as `, tier 1, NYSE`.
#[tactic(auto, unfolding(brk_model_explain::specs::TradeLines::band_tier_and_exchange_text))]
fn put_band_market(out: &mut Vec<u8>, band: &Band) -> Result<(), AllocError>
    ensures { OnOk result (out.new.items ≡ out.old.items ++ lines.band_tier_and_exchange_text (abstract_band band.now)) }
{
    put_numbered(out, ", tier ", u64::from(band.tier.get()))?;
    put_text(out, b", ")?;
    put_text(out, band.exchange.as_str().as_bytes())
}

#[tactic(auto, unfolding(brk_model_explain::specs::TradeLines::commission_band_line))]
fn put_band(out: &mut Vec<u8>, band: &Option<Band>) -> Result<(), AllocError>
    ensures { OnOk result (out.new.items ≡ out.old.items ++ line_with_line_feed (lines.commission_band_line (option_map abstract_band band.now))) }
{
    let Some(band) = band else {
        return put_value_fact(out, "Band now", b"none");
    };
    put_labeled_number(out, "Band now", u64::from(band.rate.get()))?;
    put_band_bounds(out, band)?;
    put_band_market(out, band)?;
    end_line(out)
}

#[tactic(auto, unfolding(brk_model_explain::specs::TradeLines::current_commission_line))]
fn put_commission_now(
    alloc: Global,
    out: &mut Vec<u8>,
    commission: Option<Amount>,
) -> Result<(), AllocError>
    ensures { OnOk result (out.new.items ≡ out.old.items ++ line_with_line_feed (lines.current_commission_line commission)) }
{
    match commission {
        Some(amount) => put_amount_fact(alloc, out, "Commission now", Wide::from(amount)),
        None => put_value_fact(out, "Commission now", b"none"),
    }
}

// Writes the band that applies now, and the commission by it.
#[tactic(auto, unfolding(brk_model_explain::specs::TradeLines::band_and_commission_lines))]
pub(crate) fn put_commission(
    alloc: Global,
    out: &mut Vec<u8>,
    order: &OrderDetails,
    details: &ResultDetails,
) -> Result<(), AllocError>
    ensures { OnOk result (out.new.items
        ≡ out.old.items ++ text_of_lines (lines.band_and_commission_lines (abstract_order_details order.now) (abstract_result_details details.now))) }
{
    put_band(out, &details.band)?;
    put_commission_now(alloc, out, current_commission(order, details))
}
