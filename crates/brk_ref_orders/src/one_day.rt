//! The parser of the first day of one-day settlement.

ghost use Rattle.std.specs.Prelude.{◌≡◌};
ghost use Rattle.std.specs.Option.{ok_or};
ghost use Rattle.brk_model.specs.Forms.{read_day};
ghost use Rattle.brk_model.specs.Parse.{read_one_day_settlement_start};
ghost use Rattle.brk_money.specs.declared.refusal.Refusal.TheVariants.{BadText};
ghost use Rattle.brk_ref.specs.Fields.{ParsesAs, texts_of_fields};

use brk_money::{Day, Refusal, parse_day};

// `parse_day`; its clause also states the limit of the day.
fn parse_day_with_limit(bytes: &[u8]) -> Option<Day>
    ensures { ok_or result BadText ≡ read_day bytes.now }
{
    let Some(day) = parse_day(bytes) else {
        return None;
    };
    // The contract of `get` states the limit of the day. The value is not used.
    let _limit = day.get();
    Some(day)
}

/// Parses the field DAY, such as `2024-03-01`. Refuses with `BadText` (18).
pub fn parse_one_day(fields: &[&[u8]]) -> Result<Day, Refusal>
    ensures { ParsesAs (λ day. day) result (read_one_day_settlement_start (texts_of_fields fields.now)) }
{
    let [day] = fields else {
        return Err(Refusal::BadText);
    };
    let Some(day) = parse_day_with_limit(day) else {
        return Err(Refusal::BadText);
    };
    Ok(day)
}
