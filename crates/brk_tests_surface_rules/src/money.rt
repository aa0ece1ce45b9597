use brk_money::{Condition, Fault};
use brk_tests_unit::expect::{expect_equal, expect_text};
use brk_tests_unit::{Results, run_test};
use std::test::Fail;

// The faults, each with its number.
const FAULTS: [(Fault, u8); 3] = [
    (Fault::Memory, 90),
    (Fault::Store, 91),
    (Fault::Damaged(Condition::Summary), 92),
];

// Checks the numbers of faults, and the word of the one condition that no transcript shows.
fn faults_have_their_numbers() -> Result<(), Fail> {
    for (fault, number) in &FAULTS {
        expect_equal(fault.number(), *number)?;
    }
    expect_text(Condition::NotEmpty.output_word(), "notempty")
}

pub fn run_tests(rt: &HostRuntime, results: &mut Results) {
    run_test!(rt, results, faults_have_their_numbers());
}
