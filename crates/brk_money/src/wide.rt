//! The type `Wide`, and the writers of the canonical texts of amounts and prices.

ghost use Rattle.std.specs.Prelude.{◌≡◌, ◌++◌, ℤ, pos, OnOk, OnErr, Err, Some};
ghost use Rattle.brk_money.specs.Spelling.{cents_text};
ghost use Rattle.brk_money.specs.declared.fault.Fault.TheVariants.{Memory};

use crate::cents::Cents;
use crate::fault::Fault;
use crate::price::Price;
use itoa::Buffer;
use std::alloc::AllocError;
use std::fmt;
use std::marker::Model;

/// An amount in cents that may exceed the limits of a balance, as an asset total may.
#[derive(Clone, Copy, Debug, PartialEq, Eq)]
pub struct Wide(i128);

impl Model for Wide {
    ghost Value = { ℤ };

    ghost view = { λ a. a.0 };

    ghost inverse = { λ z. record { 0 = z } };
}

impl Wide {
    pub fn new(cents: i128) -> Wide
        ensures { result ≡ cents }
    {
        Wide(cents)
    }

    pub fn get(self) -> i128
        ensures { result ≡ self }
    {
        self.0
    }
}

impl From<Cents> for Wide {
    ghost from_gives = { λ cents wide. wide ≡ cents };

    fn from(cents: Cents) -> Wide {
        Wide(i128::from(cents.get()))
    }
}

impl From<Price> for Wide {
    ghost from_gives = { λ price wide. wide ≡ pos price };

    fn from(price: Price) -> Wide {
        Wide(i128::from(price.get()))
    }
}

/// Writes the canonical text of an amount, such as `-12.05`.
impl fmt::Display for Wide {
    ghost output = { λ amount. Some (cents_text amount) };

    fn fmt<W: fmt::Write>(&self, f: &mut fmt::Formatter<W>) -> fmt::Result {
        let amount = self.get();
        let cents = amount.unsigned_abs();
        let sign = if amount < 0 { "-" } else { "" };
        write!(
            f,
            "{sign}{}.{}{}",
            cents / 100,
            cents % 100 / 10,
            cents % 10
        )
    }
}

/// Writes the canonical text of an amount, such as `-12.05`.
impl fmt::Display for Cents {
    ghost output = { λ cents. Some (cents_text cents) };

    fn fmt<W: fmt::Write>(&self, f: &mut fmt::Formatter<W>) -> fmt::Result {
        fmt::Display::fmt(&Wide::from(*self), f)
    }
}

/// Writes the canonical text of a price, such as `12.05`.
impl fmt::Display for Price {
    ghost output = { λ price. Some (cents_text (pos price)) };

    fn fmt<W: fmt::Write>(&self, f: &mut fmt::Formatter<W>) -> fmt::Result {
        fmt::Display::fmt(&Wide::from(*self), f)
    }
}

// Appends the three texts, or none of them if it fails.
fn append_texts(
    out: &mut Vec<u8>,
    first: &[u8],
    second: &[u8],
    third: &[u8],
) -> Result<(), AllocError>
    ensures ok { OnOk result (out.new.items ≡ out.old.items ++ (first.now ++ (second.now ++ third.now))) }
    ensures err { OnErr result (out.new.items ≡ out.old.items) }
{
    let start = out.len();
    if out.extend_from_slice(first).is_ok()
        && out.extend_from_slice(second).is_ok()
        && out.extend_from_slice(third).is_ok()
    {
        return Ok(());
    }
    out.truncate(start);
    Err(AllocError)
}

/// Appends the canonical text of an amount, such as `-12.05`.
pub fn append_cents(out: &mut Vec<u8>, amount: Wide) -> Result<(), AllocError>
    ensures ok { OnOk result (out.new.items ≡ out.old.items ++ cents_text amount) }
    ensures err { OnErr result (out.new.items ≡ out.old.items) }
{
    let cents = amount.0.unsigned_abs();
    let part = (cents % 100) as u8;
    let tail = [b'.', b'0' + part / 10, b'0' + part % 10];
    let mut buffer = Buffer::new();
    let whole = buffer.format(cents / 100).as_bytes();
    if amount.0 < 0 {
        append_texts(out, b"-", whole, &tail)
    } else {
        append_texts(out, b"", whole, &tail)
    }
}

/// `append_cents` for a caller that returns a `Fault`.
pub fn write_cents(out: &mut Vec<u8>, amount: Wide) -> Result<(), Fault>
    ensures ok { OnOk result (out.new.items ≡ out.old.items ++ cents_text amount) }
    ensures err { OnErr result (out.new.items ≡ out.old.items) }
    ensures fault { OnErr result (result ≡ Err Memory) }
{
    Ok(append_cents(out, amount)?)
}
