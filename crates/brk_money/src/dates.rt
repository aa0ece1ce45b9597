//! The canonical texts of days, parsed and written.

ghost use Rattle.std.specs.Prelude.{◌≡◌, ◌≢◌, ◌++◌, ◌≤◌, ℕ, pos, IfSome, IfNone, OnOk, OnErr, Err};
ghost use Rattle.jiff.specs.Words.{epoch_day};
ghost use Rattle.brk_money.specs.Moments.{greatest_day};
ghost use Rattle.brk_money.specs.Spelling.{day_text};
ghost use Rattle.brk_money.specs.declared.fault.Fault.TheVariants.{Memory};

use crate::day::Day;
use crate::fault::Fault;
use jiff::ToSpan;
use jiff::civil::{Date, date};
use jiff::fmt::temporal::{self, DateTimePrinter};
use std::alloc::AllocError;

fn date_of_day(day: Day) -> Date
    ensures { epoch_day result ≡ pos day }
{
    date(1970, 1, 1)
        .checked_add(i64::from(day.get()).days())
        .unwrap()
}

/// Parses the canonical text of a day, such as `2024-03-01`, from 1970-01-01 to 9999-12-31. Returns
/// `None` for any other bytes.
#[tactic(auto, using(crate::proofs::DayTexts::text_of, crate::proofs::DayTexts::number_of_text))]
pub fn parse_day(bytes: &[u8]) -> Option<Day>
    ensures found { IfSome result (λ day. bytes.now ≡ day_text day) }
    ensures none { IfNone result ((n : ℕ) → n ≤ greatest_day → bytes.now ≢ day_text n) }
{
    let Ok(date) = temporal::parse_date(bytes) else {
        return None;
    };
    let day = Day::new(date.to_unix_epoch_day())?;
    // jiff also reads other texts of a date, such as `20240301` and `2024-03-01T12:00`.
    if DateTimePrinter::new().date_text(date).as_str().as_bytes() != bytes {
        return None;
    }
    Some(day)
}

/// Appends the canonical text of a day, such as `2024-03-01`.
#[tactic(auto, using(crate::proofs::DayTexts::text_of))]
pub fn append_day(out: &mut Vec<u8>, day: Day) -> Result<(), AllocError>
    ensures ok { OnOk result (out.new.items ≡ out.old.items ++ day_text day) }
    ensures err { OnErr result (out.new.items ≡ out.old.items) }
{
    let text = DateTimePrinter::new().date_text(date_of_day(day).to_plain());
    match out.extend_from_slice(text.as_str().as_bytes()) {
        Ok(()) => Ok(()),
        Err(_) => Err(AllocError),
    }
}

/// `append_day` for a caller that returns a `Fault`.
pub fn write_day(out: &mut Vec<u8>, day: Day) -> Result<(), Fault>
    ensures ok { OnOk result (out.new.items ≡ out.old.items ++ day_text day) }
    ensures err { OnErr result (out.new.items ≡ out.old.items) }
    ensures fault { OnErr result (result ≡ Err Memory) }
{
    Ok(append_day(out, day)?)
}

/// Proof-only: different days up to 9999-12-31 have different canonical texts.
pub fn days_have_distinct_texts()
    ensures { (m n : ℕ) → m ≤ greatest_day → n ≤ greatest_day → day_text m ≡ day_text n → m ≡ n }
{}
