//! Checks of what the tested functions return.

ghost use Rattle.std.specs.Prelude.{◌≡◌, IfOk, Some};

use std::alloc::Global;
use std::fmt::{Debug, Display};
use std::test::Fail;

/// Checks that `holds` is true. Fails with the text of `why` if not.
pub fn expect<D: Display + Drop>(holds: bool, why: D) -> Result<(), Fail> {
    if holds { Ok(()) } else { Err(Fail::new(why)) }
}

/// Checks that the value `told` is `wanted`.
pub fn expect_equal<T: PartialEq + Debug + Copy>(told: T, wanted: T) -> Result<(), Fail> {
    expect(
        told == wanted,
        format_args!("{told:?} instead of {wanted:?}"),
    )
}

/// Checks that the text `told` is `wanted`.
pub fn expect_text(told: &str, wanted: &str) -> Result<(), Fail> {
    expect(told == wanted, format_args!("{told} instead of {wanted}"))
}

/// Checks that the value is printed as the text `wanted`.
pub fn expect_printed<T: Display>(alloc: Global, value: &T, wanted: &str) -> Result<(), Fail> {
    let printed = value.to_string(alloc)?;
    expect_text(printed.as_str(), wanted)
}

/// Returns the value. Fails with the text `what` if there is none.
pub fn expect_some<T>(value: Option<T>, what: &str) -> Result<T, Fail>
    ensures { IfOk result (λ found. value ≡ Some found) }
{
    match value {
        Some(found) => Ok(found),
        None => Err(Fail::new(what)),
    }
}
