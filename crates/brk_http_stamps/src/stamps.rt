//! The stamp that is kept after a command, and the test of a last stamp that is found later.

ghost use Rattle.std.specs.Prelude.{◌≡◌, ◌↔◌, IsTrue};
ghost use Rattle.brk_http_stamps.specs.Stamps.{IsNotBefore, stamp_after_outcome};
ghost use Rattle.brk_model_theorems.specs.Laws.{stamp_of_reply};
ghost use Rattle.brk_ref.specs.Answers.{abstract_command_outcome};
ghost use Rattle.brk_trade_plans.specs.Replies.{abstract_reply};

use brk_desk::Answer;
use brk_money::{Fault, Stamp};
use brk_trade::Reply;

// The reply to a command is never an estimate, which has no stamp.
fn stamp_of_reply(reply: &Reply) -> Stamp
    ensures { result ≡ stamp_of_reply (abstract_reply reply.now) }
{
    match reply {
        Reply::Booked(stamp) => *stamp,
        Reply::Ordered(ordered) => ordered.stamp,
        Reply::Ticked(stamp, _) => *stamp,
        Reply::Canceled(stamp) => *stamp,
        Reply::Completed(completed) => completed.stamp,
        Reply::Changed(stamp, _) => *stamp,
        Reply::Moved { stamp, .. } => *stamp,
        Reply::Estimated(_) => Stamp::nearest(0),
    }
}

/// Returns the stamp to keep after a command: that of its reply if it was accepted, otherwise
/// `kept`, the one that was kept before, also after a fault.
pub fn stamp_after_command(kept: Option<Stamp>, answered: &Result<Answer, Fault>) -> Option<Stamp>
    ensures { result ≡ stamp_after_outcome kept (abstract_command_outcome abstract_reply answered.now) }
{
    match answered {
        Ok(Answer::Done(reply)) => Some(stamp_of_reply(reply)),
        Ok(Answer::Again(_)) => kept,
        Ok(Answer::Refused(_)) => kept,
        Err(_) => kept,
    }
}

/// Returns true if `found`, the last stamp of a desk that was opened again, is not before `kept`, the
/// stamp of the last reply before. A desk of a true file always has such a one.
pub fn is_not_before(found: Option<Stamp>, kept: Option<Stamp>) -> bool
    ensures { IsTrue result ↔ IsNotBefore found kept }
{
    match (found, kept) {
        (_, None) => true,
        (None, Some(_)) => false,
        (Some(found), Some(kept)) => kept.get() <= found.get(),
    }
}
