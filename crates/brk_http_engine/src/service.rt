//! The desk of the HTTP engine as a trait: it parses, executes and formats rows and queries.

ghost use Rattle.std.specs.Prelude.{◌≡◌, ℕ, Bool, Err, IfOk, MatchOption, IsTrue, OnErr, bytes_eq};
ghost use Rattle.std.specs.List.{list_any};
ghost use Rattle.std.specs.Option.{option_copied};
ghost use Rattle.brk_money.specs.Spelling.{Text};
ghost use Rattle.brk_money.specs.declared.fault.Fault.TheVariants.{Memory};
ghost use Rattle.brk_model.specs.Commands as model;
ghost use Rattle.brk_model.specs.Queries as queries;
ghost use Rattle.brk_model.specs.Rows.{reply_fields};
ghost use Rattle.brk_model.specs.Run.{Ask, Call, Do, Outcome};
ghost use Rattle.brk_ref.specs.Answers.{abstract_command_outcome};
ghost use Rattle.brk_ref.specs.Fields.{ParsesAs, texts_of_fields};
ghost use Rattle.brk_model_http.specs.Asked.{RequestParsers};
ghost use Rattle.brk_http_engine.specs.Codes.{key_in_model, bytes_of_texts, query_outcome_in_model, bytes_of_records};

use brk_money::{Fault, Planned, Stamp};
use brk_ref::{Answer, Key};
use std::alloc::{AllocError, Global};

/// The operations of a desk that serves HTTP requests.
pub trait Service {
    /// The desk that executes the calls.
    type Desk;

    /// A command: a well-formed row.
    type Command: Drop;

    /// The reply to a row that was accepted.
    type Reply: Drop;

    /// A well-formed query.
    type Query: Drop;

    /// The name of a view.
    type ViewName: Drop;

    /// The view that a query returns.
    type View: Drop;

    /// The parsers of rows and queries, and the names of the views.
    ghost forms: { RequestParsers };

    /// Holds if a call at this timestamp may turn the first desk into the second, with this
    /// outcome. The timestamp of a query is 0.
    ghost acts: { Self.Desk → ℕ → Call → Outcome → Self.Desk → Type 0 };

    /// The text of the name of a view.
    ghost view_text: { Self.ViewName → Text };

    /// The model's command that a command represents.
    ghost command_of: { Self.Command → model.Command };

    /// The model's query that a query represents.
    ghost query_of: { Self.Query → queries.Query };

    /// The model's reply that a reply represents.
    ghost told: { Self.Reply → model.Reply };

    /// The model's view, a list of records of texts, that a view represents.
    ghost shown: { Self.View → queries.View };

    /// Parses the fields of a row: a command, or the refusal of a malformed row.
    fn parse_row(alloc: Global, row: &[&[u8]]) -> Planned<Self::Command>
        ensures read { IfOk result (λ read. ParsesAs command_of read (forms.row (texts_of_fields row.now))) }
        ensures fault { OnErr result (result ≡ Err Memory) };

    /// Returns the name of the view with the text `name`, or `None` if there is no such view.
    fn view_name_from_text(name: &str) -> Option<Self::ViewName>
        ensures { MatchOption result
            (list_any (λ v. bytes_eq v name.now) forms.views ≡ Bool.false)
            (λ view. (view_text view ≡ name.now) × (list_any (λ v. bytes_eq v name.now) forms.views ≡ Bool.true)) };

    /// Parses the arguments of a view: a query, or the refusal of a malformed query.
    fn parse_query(alloc: Global, view: Self::ViewName, arguments: &[&[u8]]) -> Planned<Self::Query>
        ensures read { IfOk result (λ read. ParsesAs query_of read (forms.query (view_text view) (texts_of_fields arguments.now))) }
        ensures fault { OnErr result (result ≡ Err Memory) };

    /// Executes a command at the clock reading `now`, under its key or without one.
    fn call(
        desk: &mut Self::Desk,
        alloc: Global,
        now: Stamp,
        command: &Self::Command,
        key: Option<&Key>,
    ) -> Result<Answer<Self::Reply>, Fault>
        ensures { acts desk.old now (Do (command_of command.now) (key_in_model (option_copied key.entry))) (abstract_command_outcome told result) desk.new };

    /// Executes a query.
    fn ask(desk: &mut Self::Desk, alloc: Global, query: &Self::Query) -> Planned<Self::View>
        ensures { acts desk.old 0 (Ask (query_of query.now)) (query_outcome_in_model shown result) desk.new };

    /// Returns the fields of a reply, in order.
    fn reply_fields(alloc: Global, reply: &Self::Reply) -> Result<Vec<String>, AllocError>
        ensures { IfOk result (λ fields. bytes_of_texts fields ≡ reply_fields (told reply.now)) };

    /// Returns the records of a view, in order, each a list of texts.
    fn view_records(alloc: Global, view: &Self::View) -> Result<Vec<Vec<String>>, AllocError>
        ensures { IfOk result (λ records. bytes_of_records records ≡ shown view.now) };
}
