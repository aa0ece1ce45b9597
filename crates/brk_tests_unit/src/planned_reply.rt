use crate::expect::{expect_printed, expect_text};
use brk_desk_commands::line_text;
use brk_money::Planned;
use brk_trade::{Plan, Reply};
use std::alloc::Global;
use std::test::Fail;

/// Checks that the fields of a reply, separated by commas, are the text `wanted`.
pub fn expect_reply(alloc: Global, reply: &Reply, wanted: &str) -> Result<(), Fail> {
    let told = line_text(alloc, reply)?;
    expect_text(told.as_str(), wanted)
}

/// Checks that the reply of a plan (`expect_reply`), or `no,` and the text of its refusal, or the
/// name of its fault, is the text `wanted`.
pub fn expect_planned_reply(
    alloc: Global,
    planned: Planned<Plan>,
    wanted: &str,
) -> Result<(), Fail> {
    match planned {
        Ok(Ok(plan)) => expect_reply(alloc, &plan.reply, wanted),
        Ok(Err(refusal)) => expect_printed(alloc, &format_args!("no,{refusal}"), wanted),
        Err(fault) => expect_printed(alloc, &format_args!("{fault:?}"), wanted),
    }
}
