//! Tests of the amounts of a statement.

use brk_money::Wide;
use brk_report_lines::amount_line;
use brk_tests_unit::expect::expect;
use brk_tests_unit::{Results, run_test};
use std::alloc::Global;
use std::test::Fail;

// Words and amounts in cents, each with the line of both.
const AMOUNTS: [(&str, i128, &str); 6] = [
    ("Opening", 0, "Opening                      0.00\n"),
    ("Closing", -1, "Closing                     -0.01\n"),
    (
        "Holdings",
        123_456_789_012_345_678_901,
        "Holdings   1234567890123456789.01\n",
    ),
    (
        "Holdings",
        -12_345_678_901_234_567_890,
        "Holdings   -123456789012345678.90\n",
    ),
    (
        "Holdings",
        1_234_567_890_123_456_789_012,
        "Holdings   12345678901234567890.12\n",
    ),
    (
        "Holdings",
        -1_234_567_890_123_456_789_012_345,
        "Holdings   -12345678901234567890123.45\n",
    ),
];

// Checks that `amount_line` returns the wanted line of each word and amount of `AMOUNTS`, in which
// an amount wider than its column is printed whole.
fn wide_amounts_are_printed_whole(alloc: Global) -> Result<(), Fail> {
    for (word, cents, wanted) in AMOUNTS {
        let line = amount_line(alloc, word, Wide::new(cents))?;
        expect(
            line.as_slice() == wanted.as_bytes(),
            format_args!("{cents} cents"),
        )?;
    }
    Ok(())
}

pub fn run_tests(rt: &HostRuntime, results: &mut Results) {
    let alloc = rt.alloc();
    run_test!(rt, results, wide_amounts_are_printed_whole(alloc));
}
