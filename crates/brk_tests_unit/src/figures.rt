//! Figures that need no desk: what texts are as amounts, numbers, days and timestamps, and what is
//! computed of them.

use brk_money::{
    Cents, Day, Fault, Id, Stamp, TradeType, Wide, commission, day_of, half_up, parse_cents,
    parse_day, parse_whole, stamp_after, tax, write_cents, write_day,
};
use brk_ref::{
    parse_balance, parse_price, parse_qty, parse_rate, parse_stamp, parse_tax_rate,
    parse_tax_status, parse_type,
};
use brk_trade::is_triggered_at_price;
use std::alloc::{AllocError, Global};
use std::fmt::Display;

// In these a text is the arguments of a figure, separated by single spaces.

fn parsed_number(name: &str, text: &[u8]) -> Option<i64> {
    match name {
        "cents" => Some(parse_cents(text)?.get()),
        "tax-status" => Some(i64::from(parse_tax_status(text)?.number())),
        _ => None,
    }
}

fn halves_rounded_up(text: &str) -> Option<u128> {
    let (n, d) = text.split_once(' ')?;
    let n = parse_whole(n.as_bytes(), Id::GREATEST)?;
    let d = parse_whole(d.as_bytes(), Id::GREATEST)?;
    if d == 0 {
        return None;
    }
    Some(half_up(u128::from(n), u128::from(d)))
}

fn commission_of_order(text: &str) -> Option<Cents> {
    let (rate, order) = text.split_once(' ')?;
    let (qty, price) = order.split_once(' ')?;
    let rate = parse_rate(rate.as_bytes())?;
    let qty = parse_qty(qty.as_bytes())?;
    Some(commission(rate, qty, parse_price(price.as_bytes())?))
}

fn tax_on_gain(text: &str) -> Option<Cents> {
    let (gain, rates) = text.split_once(' ')?;
    let gain = parse_balance(gain.as_bytes())?;
    Some(tax(gain, parse_tax_rate(rates.as_bytes())?))
}

// The last timestamp is `-` if there is none.
fn next_stamp(text: &str) -> Option<Stamp> {
    let (last, now) = text.split_once(' ')?;
    stamp_after(parse_stamp(last.as_bytes()), parse_stamp(now.as_bytes())?)
}

fn later_day(text: &str) -> Option<Day> {
    let (day, days) = text.split_once(' ')?;
    let days = parse_whole(days.as_bytes(), 65_535)? as u16;
    parse_day(day.as_bytes())?.days_later(days)
}

fn is_triggered(text: &str) -> Option<bool> {
    let (kind, prices) = text.split_once(' ')?;
    let (bid, price) = prices.split_once(' ')?;
    let kind = parse_type(kind.as_bytes())?;
    let bid = parse_price(bid.as_bytes())?;
    Some(is_triggered_at_price(kind, bid, parse_price(price.as_bytes())?))
}

fn millis_after(text: &str) -> Option<i64> {
    Some(next_stamp(text)?.get())
}

fn day_of_millis(text: &str) -> Option<Day> {
    Some(day_of(parse_stamp(text.as_bytes())?))
}

fn shown<T: Display + Drop>(alloc: Global, value: Option<T>) -> Result<String, AllocError> {
    match value {
        Some(value) => value.to_string(alloc),
        None => String::from_str(alloc, "none"),
    }
}

fn shown_bytes(alloc: Global, bytes: &[u8]) -> Result<String, AllocError> {
    String::from_str(alloc, str::from_utf8(bytes).unwrap_or("no text"))
}

fn shown_cents(alloc: Global, cents: Option<Cents>) -> Result<String, Fault> {
    let mut text = Vec::new(alloc);
    match cents {
        Some(cents) => write_cents(&mut text, Wide::from(cents))?,
        None => text.extend_from_slice(b"none")?,
    }
    Ok(shown_bytes(alloc, &text)?)
}

// Shows the text of the day, and its number of days since 1970-01-01.
fn shown_day(alloc: Global, day: Option<Day>) -> Result<String, Fault> {
    let mut text = Vec::new(alloc);
    match day {
        Some(day) => write_day(&mut text, day)?,
        None => text.extend_from_slice(b"none")?,
    }
    let mut shown = shown_bytes(alloc, &text)?;
    if let Some(day) = day {
        write!(shown, " {}", day.get())?;
    }
    Ok(shown)
}

fn shown_type(alloc: Global, kind: Option<TradeType>) -> Result<String, AllocError> {
    let Some(kind) = kind else {
        return String::from_str(alloc, "none");
    };
    let side = if kind.is_sell() { "sell" } else { "buy" };
    let start = if kind.is_market() {
        "submitted"
    } else {
        "pending"
    };
    format!(in alloc; "{} {side} {start}", kind.name())
}

fn shown_number(alloc: Global, name: &str, text: &str) -> Result<String, AllocError> {
    match name {
        "half-up" => shown(alloc, halves_rounded_up(text)),
        "stamp-after" => shown(alloc, millis_after(text)),
        "trigger" => shown(alloc, is_triggered(text)),
        "type" => shown_type(alloc, parse_type(text.as_bytes())),
        "whole" => shown(alloc, parse_whole(text.as_bytes(), Id::GREATEST)),
        _ => shown(alloc, parsed_number(name, text.as_bytes())),
    }
}

/// Returns the figure `name` of a text as it is shown: `none` if there is no figure of the text, or
/// of this name.
pub fn shown_figure(alloc: Global, name: &str, text: &str) -> Result<String, Fault> {
    match name {
        "commission" => shown_cents(alloc, commission_of_order(text)),
        "tax" => shown_cents(alloc, tax_on_gain(text)),
        "day" => shown_day(alloc, parse_day(text.as_bytes())),
        "day-of" => shown_day(alloc, day_of_millis(text)),
        "days-later" => shown_day(alloc, later_day(text)),
        _ => Ok(shown_number(alloc, name, text)?),
    }
}
