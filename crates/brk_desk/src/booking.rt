//! Execution of a command: the decision on it and, if it is accepted, the commit of its row changes
//! with its key. First, `prove_formats` applies the proofs of `formats` to the command and its key.

ghost use Rattle.std.specs.Prelude.{IfSome};
ghost use Rattle.std.specs.Option.{option_copied};
ghost use Rattle.brk_desk_commands.specs.Commands.{abstract_command};
ghost use Rattle.brk_desk.specs.Keys.{optional_model_key};
ghost use Rattle.brk_desk.specs.Booked.{CommandPost};
ghost use Rattle.brk_audit_theorems.specs.InForm.{MeetsAuditFormats, IsWellFormedKey};

use crate::deciding::decide;
use crate::formats::{prove_command, prove_key};
use crate::keeping::{answer_retry, plan_with_stored_reply, read_kept};
use brk_desk_commands::Command;
use brk_money::{Fault, Stamp};
use brk_ref::Key;
use brk_store::Store;
use brk_trade::Reply;
use sqlite::Alter;
use std::alloc::Global;

/// The answer to a command: `Done` with its reply, `Again` with the stored reply, or `Refused`.
pub type Answer = brk_ref::Answer<Reply>;

// Does nothing at run time.
fn prove_formats(command: &Command, key: Option<&Key>)
    ensures command { MeetsAuditFormats (abstract_command command.now) }
    ensures key { IfSome (optional_model_key (option_copied key.entry)) IsWellFormedKey }
{
    prove_command(command);
    if let Some(key) = key {
        prove_key(key);
    }
}

// A stored reply answers before any decision is made. For the results and faults see `Desk::call`.
pub(crate) fn book_command<S: Alter>(
    alloc: Global,
    store: &mut Store<S>,
    now: Stamp,
    command: &Command,
    key: Option<&Key>,
) -> Result<Answer, Fault>
    ensures called { CommandPost S.Store store.old store.new now (abstract_command command.now) (optional_model_key (option_copied key.entry)) result }
{
    prove_formats(command, key);
    if let Some(kept) = read_kept(store, key)? {
        return Ok(answer_retry(alloc, command, kept)?);
    }
    match decide(alloc, store, now, command)? {
        Ok(plan) => {
            let plan = plan_with_stored_reply(alloc, plan, command, key)?;
            store.apply(&plan.changes)?;
            Ok(Answer::Done(plan.reply))
        }
        Err(refusal) => Ok(Answer::Refused(refusal)),
    }
}
