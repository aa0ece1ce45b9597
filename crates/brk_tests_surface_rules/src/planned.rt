use brk_money::Planned;
use std::fmt::Debug;
use std::test::Fail;

/// Returns what is planned or parsed. Fails with the refusal, and with the error of the call.
pub(crate) fn expect_planned<T, E: Debug + Drop>(planned: Planned<T, E>) -> Result<T, Fail> {
    Ok(planned??)
}
