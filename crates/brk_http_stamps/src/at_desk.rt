//! A desk that keeps the stamp of its last reply, as the HTTP engine uses it.

ghost use Rattle.brk_desk_commands.specs.Commands.{abstract_command};
ghost use Rattle.brk_http_stamps.specs.Stamped.{StampedCallHasOutcome};
ghost use Rattle.brk_model_http.specs.Asked.{model_parsers};
ghost use Rattle.brk_trade_plans.specs.Replies.{abstract_reply};
ghost use Rattle.brk_view_rows.specs.Queries.{abstract_query};
ghost use Rattle.brk_view_rows.specs.ViewNames.{text_of_view_name};
ghost use Rattle.brk_view_rows.specs.Views.{records_of_view};

use crate::stamped_desk::StampedDesk;
use crate::stamps::stamp_after_command;
use brk_desk::{Answer, Command, Query, View};
use brk_http::DeskService;
use brk_http_engine::Service;
use brk_money::{Fault, Planned, Stamp};
use brk_ref::Key;
use brk_trade::Reply;
use brk_view_rows::ViewName;
use sqlite::Alter;
use std::alloc::{AllocError, Global};
use std::marker::PhantomData;

/// The operations of a desk as `DeskService` has them, which also keep the stamp of the last reply.
pub struct StampedService<S> {
    _store: PhantomData<S>,
}

impl<S: Alter> Service for StampedService<S> {
    type Desk = StampedDesk<S>;

    type Command = Command;

    type Reply = Reply;

    type Query = Query;

    type ViewName = ViewName;

    type View = View;

    ghost forms = { model_parsers };

    ghost view_text = { text_of_view_name };

    ghost acts = { λ old now call outcome new. StampedCallHasOutcome S.Store old now call outcome new };

    ghost command_of = { abstract_command };

    ghost query_of = { abstract_query };

    ghost told = { abstract_reply };

    ghost shown = { records_of_view };

    fn parse_row(alloc: Global, row: &[&[u8]]) -> Planned<Command> {
        DeskService::<S>::parse_row(alloc, row)
    }

    fn view_name_from_text(name: &str) -> Option<ViewName> {
        DeskService::<S>::view_name_from_text(name)
    }

    fn parse_query(alloc: Global, view: ViewName, arguments: &[&[u8]]) -> Planned<Query> {
        DeskService::<S>::parse_query(alloc, view, arguments)
    }

    fn call(
        desk: &mut StampedDesk<S>,
        alloc: Global,
        now: Stamp,
        command: &Command,
        key: Option<&Key>,
    ) -> Result<Answer, Fault> {
        let answered = DeskService::<S>::call(&mut desk.desk, alloc, now, command, key);
        desk.stamp = stamp_after_command(desk.stamp, &answered);
        answered
    }

    fn ask(desk: &mut StampedDesk<S>, alloc: Global, query: &Query) -> Planned<View> {
        DeskService::<S>::ask(&mut desk.desk, alloc, query)
    }

    fn reply_fields(alloc: Global, reply: &Reply) -> Result<Vec<String>, AllocError> {
        DeskService::<S>::reply_fields(alloc, reply)
    }

    fn view_records(alloc: Global, view: &View) -> Result<Vec<Vec<String>>, AllocError> {
        DeskService::<S>::view_records(alloc, view)
    }
}
