//! A span of stamps, and the parser of a stamp.

ghost use Rattle.std.specs.Prelude.{◌≡◌};
ghost use Rattle.std.specs.Option.{ok_or};
ghost use Rattle.brk_model.specs.Forms.{read_stamp};
ghost use Rattle.brk_money.specs.declared.refusal.Refusal.TheVariants.{BadText};

use brk_money::{Stamp, parse_whole};

/// The stamps from `first` to `last`, both included; none if `first` is later than `last`.
#[derive(Clone, Copy)]
pub struct Span {
    pub first: Stamp,
    pub last: Stamp,
}

/// Parses milliseconds since 1970-01-01 UTC in decimal digits, up to the last of 9999-12-31.
/// Returns `None` for any other bytes.
pub fn parse_stamp(bytes: &[u8]) -> Option<Stamp>
    ensures { ok_or result BadText ≡ read_stamp bytes.now }
{
    let Some(millis) = parse_whole(bytes, Stamp::GREATEST as u64) else {
        return None;
    };
    Stamp::new(millis as i64)
}
