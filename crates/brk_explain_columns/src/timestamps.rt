//! The texts of stamps as date and time. The functions fail with `Memory` only, and may then have
//! appended a part.

ghost use Rattle.std.specs.Prelude.{◌≡◌, ◌++◌, ◌<◌, OnOk};
ghost use Rattle.brk_model_explain.specs.Texts.{time_of_day_text, timestamp_text};
ghost use Rattle.brk_money.specs.Moments.{milliseconds_per_day};
ghost use Rattle.brk_money.specs.Spelling.{padded_decimal};

use brk_money::{Stamp, append_day, day_of};
use std::alloc::AllocError;

#[tactic(auto, using(crate::proofs::Padded::two))]
fn put_two_digits(out: &mut Vec<u8>, n: u8) -> Result<(), AllocError>
    requires { n < 100 }
    ensures { OnOk result (out.new.items ≡ out.old.items ++ padded_decimal 2 n) }
{
    let digits = [b'0' + n / 10, b'0' + n % 10];
    out.extend_from_slice(&digits)?;
    Ok(())
}

#[tactic(auto, using(crate::proofs::Padded::three))]
fn put_three_digits(out: &mut Vec<u8>, n: u16) -> Result<(), AllocError>
    requires { n < 1000 }
    ensures { OnOk result (out.new.items ≡ out.old.items ++ padded_decimal 3 n) }
{
    let digits = [
        b'0' + (n / 100) as u8,
        b'0' + (n / 10 % 10) as u8,
        b'0' + (n % 10) as u8,
    ];
    out.extend_from_slice(&digits)?;
    Ok(())
}

// Writes a text such as `09:05:00.021`.
#[tactic(auto, unfolding(brk_model_explain::specs::Texts::time_of_day_text))]
fn put_time_of_day(out: &mut Vec<u8>, millis: u32) -> Result<(), AllocError>
    requires { millis < milliseconds_per_day }
    ensures { OnOk result (out.new.items ≡ out.old.items ++ time_of_day_text millis) }
{
    put_two_digits(out, (millis / 3_600_000) as u8)?;
    out.push(b':')?;
    put_two_digits(out, (millis / 60_000 % 60) as u8)?;
    out.push(b':')?;
    put_two_digits(out, (millis / 1000 % 60) as u8)?;
    out.push(b'.')?;
    put_three_digits(out, (millis % 1000) as u16)
}

/// Appends a date and time in UTC, such as `2024-03-01 09:05:00.021`.
#[tactic(auto, unfolding(brk_model_explain::specs::Texts::timestamp_text))]
pub fn put_timestamp(out: &mut Vec<u8>, stamp: Stamp) -> Result<(), AllocError>
    ensures { OnOk result (out.new.items ≡ out.old.items ++ timestamp_text stamp) }
{
    append_day(out, day_of(stamp))?;
    out.push(b' ')?;
    put_time_of_day(out, (stamp.get() as u64 % 86_400_000) as u32)
}
