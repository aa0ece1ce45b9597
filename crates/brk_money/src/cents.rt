//! The type `Cents` and the parser of its text, which `wide` writes.

ghost use Rattle.std.specs.Prelude.{◌≡◌, ◌≢◌, ◌≤◌, ◌+◌, ◌<◌, ◌^◌, ◌≤ℤ◌, ℕ, ℤ, pos, neg_ℤ, SomeIff, IfSome, IfNone, Some};
ghost use Rattle.brk_money.specs.declared.cents.TheConstants.Cents;
ghost use Rattle.brk_money.specs.Spelling.{cents_text, unsigned_cents_text, IsWithinAmountLimit};

use crate::whole::parse_whole;
use std::marker::Model;

/// An amount in whole cents: -10^17 to 10^17, both included.
#[derive(Clone, Copy, Debug, PartialEq, Eq)]
pub struct Cents(i64);

impl Model for Cents {
    ghost Value = { ℤ };

    ghost view = { λ a. a.0 };

    ghost inverse = { λ z. record { 0 = z } };

    ghost invariant = { λ a. (neg_ℤ (pos Cents.GREATEST) ≤ℤ a.0) × (a.0 ≤ℤ pos Cents.GREATEST) };
}

impl Cents {
    /// The greatest absolute value, in cents.
    pub const GREATEST: u64 = 100_000_000_000_000_000;

    pub fn new(cents: i64) -> Option<Cents>
        ensures { SomeIff result
            ((neg_ℤ (pos Cents.GREATEST) ≤ℤ cents) × (cents ≤ℤ pos Cents.GREATEST)) cents }
    {
        if cents.unsigned_abs() <= Cents::GREATEST {
            Some(Cents(cents))
        } else {
            None
        }
    }

    pub fn get(self) -> i64
        ensures value { result ≡ self }
        ensures low { neg_ℤ (pos Cents.GREATEST) ≤ℤ self }
        ensures high { self ≤ℤ pos Cents.GREATEST }
    {
        self.0
    }
}

// Parses an amount without a sign, such as `12.05`, and returns it in cents.
#[tactic(auto, using(crate::proofs::Plain::plain_split, crate::proofs::Plain::plain_joined))]
fn parse_unsigned(bytes: &[u8]) -> Option<u64>
    ensures found { IfSome result (λ n. (n ≤ Cents.GREATEST) × (bytes.now ≡ unsigned_cents_text n)) }
    ensures none { IfNone result ((n : ℕ) → n ≤ Cents.GREATEST → bytes.now ≢ unsigned_cents_text n) }
{
    if bytes.len() < 3 {
        return None;
    }
    let (whole, rest) = bytes.split_at(bytes.len() - 3);
    let tens = rest[1];
    let ones = rest[2];
    if rest[0] != b'.' || tens < b'0' || tens > b'9' || ones < b'0' || ones > b'9' {
        return None;
    }
    let Some(units) = parse_whole(whole, Cents::GREATEST / 100) else {
        return None;
    };
    let n = units * 100 + (tens - b'0') as u64 * 10 + (ones - b'0') as u64;
    if n > Cents::GREATEST {
        return None;
    }
    Some(n)
}

/// Parses the canonical text of an amount, such as `-12.05`. Returns `None` for any other bytes,
/// such as `-0.00`, `010.00` and `10.0`, and for an absolute value above `Cents::GREATEST`.
#[tactic(auto, using(crate::proofs::Plain::plain_split))]
pub fn parse_cents(bytes: &[u8]) -> Option<Cents>
    ensures found { IfSome result (λ cents. IsWithinAmountLimit cents × (bytes.now ≡ cents_text cents)) }
    ensures none { IfNone result ((z : ℤ) → IsWithinAmountLimit z → bytes.now ≢ cents_text z) }
{
    match bytes {
        [b'-', rest @ ..] => {
            let Some(n) = parse_unsigned(rest) else {
                return None;
            };
            if n == 0 {
                return None;
            }
            Some(Cents(-(n as i64)))
        }
        _ => {
            let Some(n) = parse_unsigned(bytes) else {
                return None;
            };
            Some(Cents(n as i64))
        }
    }
}

/// Proof-only: different amounts within `Cents::GREATEST` have different canonical texts.
pub fn amounts_have_distinct_texts()
    ensures { (y z : ℤ) → IsWithinAmountLimit y → IsWithinAmountLimit z → cents_text y ≡ cents_text z → y ≡ z }
{}
