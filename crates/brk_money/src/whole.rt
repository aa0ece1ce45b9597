//! The parser of whole numbers in decimal digits.

ghost use Rattle.std.specs.Prelude.{◌≡◌, ◌≢◌, ◌+◌, ◌-◌, ◌*◌, ◌^◌, ◌<◌, ◌≤◌, ℕ, true, IfSome, IfNone};
ghost use Rattle.std.specs.Fmt.{decimal};
ghost use Rattle.std.specs.Str.{all_ascii_digits};
ghost use Rattle.brk_money.specs.declared.cents.TheConstants.Cents;
ghost use Rattle.brk_money.specs.Spelling.{number_with_more_digits};

// Leading zeros are allowed, and an empty slice is 0.
#[tactic(auto, using(crate::proofs::Digits::read_on_le))]
fn parse_numeral(bytes: &[u8], limit: u64) -> Option<u64>
    requires { limit ≤ Cents.GREATEST }
    ensures found { IfSome result (λ n. (all_ascii_digits bytes.now ≡ true) × (number_with_more_digits 0 bytes.now ≡ n) × (n ≤ limit)) }
    ensures none { IfNone result (all_ascii_digits bytes.now ≡ true → limit < number_with_more_digits 0 bytes.now) }
{
    let mut value: u64 = 0;
    for b in bytes {
        if *b < b'0' || *b > b'9' {
            return None;
        }
        value = value * 10 + (*b - b'0') as u64;
        if value > limit {
            return None;
        }
    }
    Some(value)
}

/// Parses decimal digits, without a leading zero unless the number is 0. Returns `None` for any
/// other bytes, and for a number above `limit`.
#[tactic(auto, using(crate::proofs::Digits::whole_found, crate::proofs::Digits::whole_only))]
pub fn parse_whole(bytes: &[u8], limit: u64) -> Option<u64>
    requires { limit ≤ Cents.GREATEST }
    ensures found { IfSome result (λ n. (n ≤ limit) × (bytes.now ≡ decimal n)) }
    ensures none { IfNone result ((n : ℕ) → n ≤ limit → bytes.now ≢ decimal n) }
{
    if bytes.is_empty() {
        return None;
    }
    if bytes[0] == b'0' && bytes.len() > 1 {
        return None;
    }
    let Some(n) = parse_numeral(bytes, limit) else {
        return None;
    };
    Some(n)
}
