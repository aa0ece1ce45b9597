//! Parsers of canonical texts of numbers and amounts. Each returns `None` for any other bytes, and
//! for a number out of the range of its type. Those of a stamp, a tier and a trade type are in
//! `span`, `tier` and `trade_type`.

ghost use Rattle.std.specs.Prelude.{◌≡◌};
ghost use Rattle.std.specs.Option.{ok_or};
ghost use Rattle.brk_money.specs.Spelling.{number_within_limit, cents_of_text};
ghost use Rattle.brk_money.specs.declared.cents.TheConstants.Cents;
ghost use Rattle.brk_model.specs.Forms.{read_movement_amount, read_charge_amount, read_commission_rate, read_id, read_opening_balance};
ghost use Rattle.brk_model.specs.Forms.{read_price, read_quantity, read_tax_rate_number, read_tax_status, nonnegative_amount};
ghost use Rattle.brk_money.specs.declared.refusal.Refusal.TheVariants.{BadPrice, BadQty, BadText};

use crate::charge_amount::ChargeAmount;
use crate::moved_amount::MovedAmount;
use brk_money::{Cents, Id, Price, Qty, Rate, TaxRate, TaxStatus, parse_cents, parse_whole};

pub fn parse_id(bytes: &[u8]) -> Option<Id>
    ensures { ok_or result BadText ≡ read_id bytes.now }
{
    let Some(number) = parse_whole(bytes, Id::GREATEST) else {
        return None;
    };
    Id::new(number)
}

/// Parses a number from 0 to 2.
pub fn parse_tax_status(bytes: &[u8]) -> Option<TaxStatus>
    ensures { ok_or result BadText ≡ read_tax_status bytes.now }
{
    let Some(number) = parse_whole(bytes, 2) else {
        return None;
    };
    TaxStatus::from_number(number)
}

/// Parses an amount, such as `10000.00` or `-0.50`.
pub fn parse_balance(bytes: &[u8]) -> Option<Cents>
    ensures { ok_or result BadText ≡ read_opening_balance bytes.now }
{
    parse_cents(bytes)
}

pub fn parse_qty(bytes: &[u8]) -> Option<Qty>
    ensures { ok_or result BadQty ≡ read_quantity bytes.now }
{
    let Some(number) = parse_whole(bytes, Qty::GREATEST as u64) else {
        return None;
    };
    Qty::new(number as u32)
}

/// Parses hundredths of a percent.
pub fn parse_rate(bytes: &[u8]) -> Option<Rate>
    ensures { ok_or result BadText ≡ read_commission_rate bytes.now }
{
    let Some(number) = parse_whole(bytes, Rate::GREATEST as u64) else {
        return None;
    };
    Rate::new(number as u32)
}

/// Parses hundred-thousandths.
pub fn parse_tax_rate(bytes: &[u8]) -> Option<TaxRate>
    ensures { ok_or result BadText ≡ read_tax_rate_number bytes.now }
{
    let Some(number) = parse_whole(bytes, TaxRate::GREATEST as u64) else {
        return None;
    };
    TaxRate::new(number as u32)
}

fn parse_unsigned_cents(bytes: &[u8]) -> Option<u64>
    ensures { result ≡ number_within_limit Cents.GREATEST (nonnegative_amount (cents_of_text bytes.now)) }
{
    let Some(cents) = parse_cents(bytes) else {
        return None;
    };
    let cents = cents.get();
    if cents < 0 {
        return None;
    }
    Some(cents as u64)
}

/// Parses an amount, such as `10.00`.
pub fn parse_price(bytes: &[u8]) -> Option<Price>
    ensures { ok_or result BadPrice ≡ read_price bytes.now }
{
    let Some(cents) = parse_unsigned_cents(bytes) else {
        return None;
    };
    if cents > Price::GREATEST as u64 {
        return None;
    }
    Price::new(cents as u32)
}

/// Parses an amount, such as `5.00`.
pub fn parse_charge_amount(bytes: &[u8]) -> Option<ChargeAmount>
    ensures { ok_or result BadText ≡ read_charge_amount bytes.now }
{
    let Some(cents) = parse_unsigned_cents(bytes) else {
        return None;
    };
    if cents > ChargeAmount::GREATEST as u64 {
        return None;
    }
    ChargeAmount::new(cents as u32)
}

/// Parses an amount, such as `250.00`.
pub fn parse_moved_amount(bytes: &[u8]) -> Option<MovedAmount>
    ensures { ok_or result BadText ≡ read_movement_amount bytes.now }
{
    let Some(cents) = parse_unsigned_cents(bytes) else {
        return None;
    };
    MovedAmount::new(cents)
}
