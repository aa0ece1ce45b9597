use crate::expect::expect_some;
use brk_ref::{Form, Text};
use std::alloc::Global;
use std::test::Fail;

/// Returns `text` as a text of the format `F`.
pub fn parse_text<F: Form>(alloc: Global, text: &str) -> Result<Text<F>, Fail> {
    expect_some(
        Text::parse(alloc, text.as_bytes())?,
        "a text of another format",
    )
}
