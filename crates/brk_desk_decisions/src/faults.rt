//! The fault of a plan over the lots of a store.

ghost use Rattle.std.specs.Prelude.{◌≡◌};
ghost use Rattle.brk_model.specs.Run.{IsCallFault};
ghost use Rattle.brk_money.specs.Kinds.{fault_of_call};

use brk_money::{CallFault, Fault};

pub(crate) fn call_fault(fault: Fault) -> CallFault
    requires { IsCallFault fault }
    ensures { fault_of_call result ≡ fault }
{
    match fault {
        Fault::Memory => CallFault::Memory,
        Fault::Store => CallFault::Store,
        Fault::Damaged(_) => unreachable!(),
    }
}
