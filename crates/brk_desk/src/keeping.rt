//! Stored requests and replies: the rows of KEPT, which accepted commands add under their keys and
//! which answer retries.

ghost use Rattle.std.specs.Prelude.{◌≡◌, IfOk};
ghost use Rattle.std.specs.Option.{option_copied};
ghost use Rattle.brk_desk_commands.specs.Commands.{abstract_command};
ghost use Rattle.brk_desk.specs.CommandAnswers.{model_answer};
ghost use Rattle.brk_desk.specs.Keys.{optional_model_key};
ghost use Rattle.brk_desk.specs.Keys.{ReadStoredReplyPost, tables_with_stored_command};
ghost use Rattle.brk_model.specs.Base.{Base};
ghost use Rattle.brk_model.specs.Keyed.{answer_and_base_of_retry};
ghost use Rattle.brk_model.specs.Tables.{Tables};
ghost use Rattle.brk_trade_rows.specs.Changes.{tables_after_changes};
ghost use Rattle.brk_trade_plans.specs.Replies.{abstract_reply};
ghost use Rattle.brk_ref.specs.Records.{abstract_kept_row};

use crate::booking::Answer;
use brk_desk_commands::{Command, line_of_reply, row_of_command};
use brk_money::{Refusal, StoreFailed};
use brk_ref::{Kept, Key};
use brk_store::Store;
use brk_trade::{Change, Plan};
use sqlite::Alter;
use std::alloc::{AllocError, Global};

// Reads nothing without a key.
pub(crate) fn read_kept<S: Alter>(
    store: &mut Store<S>,
    key: Option<&Key>,
) -> Result<Option<Kept>, StoreFailed>
    ensures { ReadStoredReplyPost S.Store store.old store.new (optional_model_key (option_copied key.entry)) result }
{
    match key {
        Some(key) => store.stored_reply_by_key(key),
        None => Ok(None),
    }
}

// Returns the stored reply if the stored request equals that of `command`; otherwise refuses with
// `KeyReused` (19).
pub(crate) fn answer_retry(
    alloc: Global,
    command: &Command,
    kept: Kept,
) -> Result<Answer, AllocError>
    ensures { IfOk result (λ answer. (base : Base)
        → answer_and_base_of_retry base (abstract_command command.now) (abstract_kept_row kept) ≡ (model_answer answer, base)) }
{
    let row = row_of_command(alloc, command)?;
    if kept.row_text == row {
        Ok(Answer::Again(kept.line))
    } else {
        Ok(Answer::Refused(Refusal::KeyReused))
    }
}

// Adds to the plan, as its last change, the row that stores the request and the reply under `key`.
// Without a key the plan is unchanged.
pub(crate) fn plan_with_stored_reply(
    alloc: Global,
    plan: Plan,
    command: &Command,
    key: Option<&Key>,
) -> Result<Plan, AllocError>
    ensures reply { IfOk result (λ kept. kept.reply ≡ plan.reply) }
    ensures rows { IfOk result (λ kept. (t : Tables) → tables_after_changes kept.changes.items t
        ≡ tables_with_stored_command (optional_model_key (option_copied key.entry)) (abstract_command command.now)
        (abstract_reply plan.reply) (tables_after_changes plan.changes.items t)) }
{
    let Some(key) = key else {
        return Ok(plan);
    };
    let key = key.clone()?;
    let row_text = row_of_command(alloc, command)?;
    let line = line_of_reply(alloc, &plan.reply)?;
    let mut plan = plan;
    plan.changes.push(Change::AddStoredReply(Kept {
        key,
        row_text,
        line,
    }))?;
    Ok(plan)
}
