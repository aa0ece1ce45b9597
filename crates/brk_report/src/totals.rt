//! Running totals of amounts in cents.

ghost use Rattle.std.specs.Prelude.{◌≡◌, ◌+ℤ◌, Err, IfOk, OnErr, pos};
ghost use Rattle.brk_money.specs.declared.fault.CallFault.TheVariants as call;
ghost use Rattle.brk_io.specs.declared.report_fault.LinesFault.TheVariants.{Desk};

use brk_money::{Amount, CallFault, Cents, Wide};
use brk_report_lines::LinesFault;

/// Returns the sum, in cents. Fails with `Desk(Store)` if it exceeds the range of 128 bits.
pub fn plus_amount(total: Wide, amount: Cents) -> Result<Wide, LinesFault>
    ensures sum { IfOk result (λ sum. sum ≡ total +ℤ amount) }
    ensures fault { OnErr result (result ≡ Err (Desk call.Store)) }
{
    match total.get().checked_add(i128::from(amount.get())) {
        Some(sum) => Ok(Wide::new(sum)),
        None => Err(LinesFault::Desk(CallFault::Store)),
    }
}

/// Returns the sum, in cents. Fails with `Desk(Store)` if it exceeds the range of 128 bits.
pub fn plus_commission(total: Wide, commission: Amount) -> Result<Wide, LinesFault>
    ensures sum { IfOk result (λ sum. sum ≡ total +ℤ pos commission) }
    ensures fault { OnErr result (result ≡ Err (Desk call.Store)) }
{
    match total.get().checked_add(i128::from(commission.get())) {
        Some(sum) => Ok(Wide::new(sum)),
        None => Err(LinesFault::Desk(CallFault::Store)),
    }
}
