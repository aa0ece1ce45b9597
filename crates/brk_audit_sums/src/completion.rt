//! The test that a status is `Completed`.

ghost use Rattle.std.specs.Prelude.{◌≡◌};
ghost use Rattle.brk_money.specs.Kinds.{is_same_trade_status};
ghost use Rattle.brk_money.specs.declared.status.Status.TheVariants.{Completed};

use brk_money::Status;

pub fn is_completed(status: Status) -> bool
    ensures { result ≡ is_same_trade_status status Completed }
{
    status == Status::Completed
}
