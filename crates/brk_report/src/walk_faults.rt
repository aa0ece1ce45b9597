//! The faults of walks that write lines.

ghost use Rattle.std.specs.Prelude.{◌≡◌};
ghost use Rattle.brk_report.specs.WalkFaults.{fault_of_walk_error};

use brk_desk::WalkError;
use brk_report_lines::LinesFault;

/// Returns the fault of the desk for `Failed`, and the visitor's own fault for `Cause`.
pub fn fault_from_walk_error(stop: WalkError<LinesFault>) -> LinesFault
    ensures { result ≡ fault_of_walk_error stop }
{
    match stop {
        WalkError::Failed(fault) => LinesFault::Desk(fault),
        WalkError::Cause(fault) => fault,
    }
}
