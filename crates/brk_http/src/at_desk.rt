//! A desk over a store, as the HTTP engine uses it.

ghost use Rattle.brk_desk_commands.specs.Commands.{abstract_command};
ghost use Rattle.brk_http.specs.CallOutcomes.{DeskCallHasOutcome};
ghost use Rattle.brk_model_http.specs.Asked.{model_parsers};
ghost use Rattle.brk_trade_plans.specs.Replies.{abstract_reply};
ghost use Rattle.brk_view_rows.specs.Queries.{abstract_query};
ghost use Rattle.brk_view_rows.specs.ViewNames.{text_of_view_name};
ghost use Rattle.brk_view_rows.specs.Views.{records_of_view};

use brk_desk::{Answer, Command, Desk, Query, View, parse_row, view_fields};
use brk_desk_commands::line_of_reply;
use brk_http_engine::{Service, comma_fields};
use brk_money::{Fault, Planned, Stamp};
use brk_ref::Key;
use brk_trade::Reply;
use brk_view_rows::{ViewName, parse_for_view};
use sqlite::Alter;
use std::alloc::{AllocError, Global};
use std::marker::PhantomData;

/// The operations of a desk over a store that the HTTP engine uses.
pub struct DeskService<S> {
    _store: PhantomData<S>,
}

impl<S: Alter> Service for DeskService<S> {
    type Desk = Desk<S>;

    type Command = Command;

    type Reply = Reply;

    type Query = Query;

    type ViewName = ViewName;

    type View = View;

    ghost forms = { model_parsers };

    ghost view_text = { text_of_view_name };

    ghost acts = { λ old now call outcome new. DeskCallHasOutcome S.Store old now call outcome new };

    ghost command_of = { abstract_command };

    ghost query_of = { abstract_query };

    ghost told = { abstract_reply };

    ghost shown = { records_of_view };

    fn parse_row(alloc: Global, row: &[&[u8]]) -> Planned<Command> {
        parse_row(alloc, row)
    }

    fn view_name_from_text(name: &str) -> Option<ViewName> {
        ViewName::from_text(name)
    }

    fn parse_query(alloc: Global, view: ViewName, arguments: &[&[u8]]) -> Planned<Query> {
        Ok(parse_for_view(alloc, view, arguments)?)
    }

    fn call(
        desk: &mut Desk<S>,
        alloc: Global,
        now: Stamp,
        command: &Command,
        key: Option<&Key>,
    ) -> Result<Answer, Fault> {
        desk.call(alloc, now, command, key)
    }

    fn ask(desk: &mut Desk<S>, alloc: Global, query: &Query) -> Planned<View> {
        desk.ask(alloc, query)
    }

    fn reply_fields(alloc: Global, reply: &Reply) -> Result<Vec<String>, AllocError> {
        let line = line_of_reply(alloc, reply)?;
        comma_fields(alloc, line.as_str())
    }

    fn view_records(alloc: Global, view: &View) -> Result<Vec<Vec<String>>, AllocError> {
        match view_fields(alloc, view) {
            Ok(records) => Ok(records),
            Err(_) => Err(AllocError),
        }
    }
}
