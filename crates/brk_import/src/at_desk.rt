//! A desk over a store, as the batch engine uses it.

ghost use Rattle.brk_model.specs.Base.{Base};
ghost use Rattle.brk_model.specs.Batch.{step_of_row};
ghost use Rattle.brk_model.specs.Commands as model;
ghost use Rattle.brk_model.specs.Parse.{parse_by_first_field, row_parsers};
ghost use Rattle.brk_desk_commands.specs.Commands.{abstract_command};
ghost use Rattle.brk_trade_plans.specs.Replies.{abstract_reply};
ghost use Rattle.brk_store_transactions.specs.Audited.{Represents};
ghost use Rattle.brk_import.specs.CrashTables.{CrashExposesOnlyOneOf};
ghost use Rattle.brk_import.specs.Rows.{RowCallHasOutcome};
ghost use Rattle.sqlite.specs.Held.{state};
ghost use Rattle.sqlite.specs.State.{HasCleanDisk};

use brk_desk::{Answer, Command, Desk, parse_row};
use brk_desk_commands::line_of_reply;
use brk_import_engine::Rows;
use brk_money::{Fault, Planned, Stamp};
use brk_ref::Key;
use brk_trade::Reply;
use sqlite::Alter;
use std::alloc::{AllocError, Global};
use std::marker::PhantomData;

/// The operations of a desk over a store that the batch engine uses.
pub struct DeskRows<S> {
    _store: PhantomData<S>,
}

impl<S: Alter> Rows for DeskRows<S> {
    type Desk = Desk<S>;

    type Command = Command;

    type Reply = Reply;

    ghost Base = { Base };

    ghost Asked = { model.Command };

    ghost meets_disk_assumption = { λ desk. HasCleanDisk (state S.Store desk) };

    ghost represents = { λ desk. Represents S.Store desk };

    ghost crash_exposes_only = { CrashExposesOnlyOneOf S.Store };

    ghost acts = { λ old now row outcome new. RowCallHasOutcome S.Store old now row outcome new };

    ghost asked = { abstract_command };

    ghost told = { abstract_reply };

    ghost form = { parse_by_first_field row_parsers };

    ghost step = { step_of_row };

    fn parse(alloc: Global, row: &[&[u8]]) -> Planned<Command> {
        parse_row(alloc, row)
    }

    fn call(
        desk: &mut Desk<S>,
        alloc: Global,
        now: Stamp,
        command: &Command,
        key: &Key,
    ) -> Result<Answer, Fault> {
        desk.call(alloc, now, command, Some(key))
    }

    fn reply_line(alloc: Global, reply: &Reply) -> Result<String, AllocError> {
        line_of_reply(alloc, reply)
    }
}
