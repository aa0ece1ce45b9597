//! A call of a run, which is a command or a query, and its outcome.

ghost use Rattle.std.specs.Prelude.{◌≡◌};
ghost use Rattle.brk_desk.specs.Answers.{outcome_of_command, outcome_of_query};

use crate::Answer;
use brk_desk_commands::Command;
use brk_money::{Fault, Planned, Refusal};
use brk_ref::Key;
use brk_view_rows::{Query, View};

/// A call of a run of a desk: a command or a query.
#[derive(Drop)]
pub enum Call {
    /// A command, with its key if it has one. `Desk::call` describes its effect.
    Do(Command, Option<Key>),
    /// A query, which changes nothing.
    Ask(Query),
}

/// The outcome of a call of a run.
#[derive(Drop)]
pub enum Outcome {
    /// The answer of the command: `Done`, `Again` or `Refused`.
    Did(Answer),
    /// The view of the query.
    Saw(View),
    /// The refusal of the query.
    NoView(Refusal),
    /// The call failed with this fault. Under the disk assumption: an open store is unchanged, and
    /// a crash exposes only its last commit. If a command failed and the fault closed the store, a
    /// crash may expose the command as committed.
    Failed(Fault),
}

impl Outcome {
    pub(crate) fn from_command_result(answered: Result<Answer, Fault>) -> Outcome
        ensures { result ≡ outcome_of_command answered }
    {
        match answered {
            Ok(answer) => Outcome::Did(answer),
            Err(fault) => Outcome::Failed(fault),
        }
    }

    pub(crate) fn from_query_result(seen: Planned<View>) -> Outcome
        ensures { result ≡ outcome_of_query seen }
    {
        match seen {
            Ok(Ok(view)) => Outcome::Saw(view),
            Ok(Err(refusal)) => Outcome::NoView(refusal),
            Err(fault) => Outcome::Failed(fault),
        }
    }
}
