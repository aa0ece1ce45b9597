//! The execution of the call that a request makes, and the response to it.

ghost use Rattle.std.specs.Prelude.{◌≡◌, ℕ, List};
ghost use Rattle.brk_model.specs.Run.{Ask, Do, Outcome};
ghost use Rattle.brk_model_http.specs.Replies.{FromOutcome};
ghost use Rattle.brk_io.specs.Moments.{ClockReturnsMomentsInSequence};
ghost use Rattle.brk_model_http.specs.Stream.{IsResponseToDemand};
ghost use Rattle.brk_http_engine.specs.Codes.{demand_in_model, key_in_model, response_in_model};

use crate::asking::RequestedCall;
use crate::service::Service;
use brk_io::Clock;
use brk_model_http::RequestProblem;
use brk_money::{Fault, Refusal, Stamp};
use brk_ref::{Answer, Key};
use std::alloc::Global;

/// The response to a request, which its reply reports.
#[derive(Debug, Drop)]
pub enum ServiceResponse<R, V> {
    /// The request makes no call, because it has this problem.
    Wrong(RequestProblem),
    /// A row was refused with this refusal.
    NoRow(Refusal),
    /// A query was refused with this refusal.
    NoView(Refusal),
    /// A row was accepted and committed, with this reply.
    Done(R),
    /// A row was accepted before, with this stored reply.
    Again(String),
    /// A query returned this view.
    Saw(V),
    /// The desk failed with this fault.
    Failed(Fault),
}

fn execute_command<D: Service>(
    alloc: Global,
    desk: &mut D::Desk,
    now: Stamp,
    command: &D::Command,
    key: &Option<Key>,
) -> ServiceResponse<D::Reply, D::View>
    ensures { (outcome : Outcome) × (response_in_model D.told D.shown result ≡ FromOutcome outcome)
        × D.acts desk.old now (Do (D.command_of command.now) (key_in_model key.now)) outcome desk.new }
{
    match D::call(desk, alloc, now, command, key.as_ref()) {
        Ok(Answer::Done(reply)) => ServiceResponse::Done(reply),
        Ok(Answer::Again(line)) => ServiceResponse::Again(line),
        Ok(Answer::Refused(refusal)) => ServiceResponse::NoRow(refusal),
        Err(fault) => ServiceResponse::Failed(fault),
    }
}

// A query reads no clock; its timestamp in the model is 0.
fn execute_query<D: Service>(
    alloc: Global,
    desk: &mut D::Desk,
    query: &D::Query,
) -> ServiceResponse<D::Reply, D::View>
    ensures { (outcome : Outcome) × (response_in_model D.told D.shown result ≡ FromOutcome outcome)
        × D.acts desk.old 0 (Ask (D.query_of query.now)) outcome desk.new }
{
    match D::ask(desk, alloc, query) {
        Ok(Ok(view)) => ServiceResponse::Saw(view),
        Ok(Err(refusal)) => ServiceResponse::NoView(refusal),
        Err(fault) => ServiceResponse::Failed(fault),
    }
}

/// Executes the call of a request, if it makes one, and returns the response. Reads the clock once
/// for a well-formed row, and not for any other request.
pub fn execute_requested_call<C: Clock, D: Service>(
    alloc: Global,
    clock: &mut C,
    desk: &mut D::Desk,
    asking: RequestedCall<D::Command, D::Query>,
) -> ServiceResponse<D::Reply, D::View>
    ensures { (taken : List ℕ) × ClockReturnsMomentsInSequence C.gives clock.old taken clock.new
        × IsResponseToDemand D.acts (demand_in_model D.command_of D.query_of asking) desk.old taken (response_in_model D.told D.shown result) desk.new }
{
    match asking {
        RequestedCall::Wrong(problem) => ServiceResponse::Wrong(problem),
        RequestedCall::BadRow(refusal) => ServiceResponse::NoRow(refusal),
        RequestedCall::BadQuery(refusal) => ServiceResponse::NoView(refusal),
        RequestedCall::Row(command, key) => {
            let now = clock.now();
            execute_command::<D>(alloc, desk, now, &command, &key)
        }
        RequestedCall::View(query) => execute_query::<D>(alloc, desk, &query),
    }
}
