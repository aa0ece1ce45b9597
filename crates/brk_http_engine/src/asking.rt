//! The call that a request asks for, from its route and its body.

ghost use Rattle.std.specs.Prelude.{◌≡◌, Bool, Err, IfOk, OnErr, map, string_bytes};
ghost use Rattle.std.specs.List.{list_all};
ghost use Rattle.brk_http_engine.specs.Rows.{is_nonempty, all_router_rows};
ghost use Rattle.brk_model_http.specs.Asked.{demand_of_texts, demand_of_request};
ghost use Rattle.brk_money.specs.declared.fault.Fault.TheVariants.{Memory};
ghost use Rattle.brk_http_engine.specs.Codes.{demand_in_model, route_in_model};

use crate::bodies::texts_of_body;
use crate::router::RouteKind;
use crate::routes::{Route, route_of_target};
use crate::service::Service;
use brk_model_http::RequestProblem;
use brk_money::{Fault, Refusal};
use brk_ref::{Key, borrow_texts};
use http::Method;
use matchit::Router;
use std::alloc::Global;

/// The call that a request makes, or the reason why it makes none.
#[derive(Drop)]
pub enum RequestedCall<X, Q> {
    /// No call: the request has this problem.
    Wrong(RequestProblem),
    /// No call: its row is malformed.
    BadRow(Refusal),
    /// No call: its query is malformed.
    BadQuery(Refusal),
    /// A command, with or without a key.
    Row(X, Option<Key>),
    /// A query.
    View(Q),
}

// Parses the texts of a body as the fields of a row, or as the arguments of a view.
fn call_of_texts<D: Service>(
    alloc: Global,
    route: Route<D::ViewName>,
    texts: &[String],
) -> Result<RequestedCall<D::Command, D::Query>, Fault>
    ensures call { IfOk result (λ asking. demand_in_model D.command_of D.query_of asking
        ≡ demand_of_texts D.forms (route_in_model D.view_text route) (map string_bytes texts.now)) }
    ensures fault { OnErr result (result ≡ Err Memory) }
{
    let fields = borrow_texts(alloc, texts)?;
    match route {
        Route::ToRow(key) => match D::parse_row(alloc, &fields)? {
            Ok(command) => Ok(RequestedCall::Row(command, key)),
            Err(refusal) => Ok(RequestedCall::BadRow(refusal)),
        },
        Route::ToView(view) => match D::parse_query(alloc, view, &fields)? {
            Ok(query) => Ok(RequestedCall::View(query)),
            Err(refusal) => Ok(RequestedCall::BadQuery(refusal)),
        },
    }
}

/// Returns the call that a request makes, or the first reason why it makes none, in this order: its
/// target has no route (`NotFound`), its method is not POST (`NotAllowed`), its body is not a JSON
/// list of strings in UTF-8 (`BadRequest`), or its row or query is malformed (`BadRow`,
/// `BadQuery`).
#[tactic(auto, unfolding(brk_model_http::specs::Asked::demand_of_request), using(crate::proofs::AskLemmas::demand_checks))]
pub fn requested_call<D: Service>(
    alloc: Global,
    router: &Router<RouteKind>,
    method: &[u8],
    target: &[u8],
    body: &[u8],
) -> Result<RequestedCall<D::Command, D::Query>, Fault>
    requires routes { router.now ≡ all_router_rows }
    requires named { list_all is_nonempty D.forms.views ≡ Bool.true }
    ensures call { (closes : Bool) → IfOk result (λ asking. demand_in_model D.command_of D.query_of asking
        ≡ demand_of_request D.forms (record { method = method.now; target = target.now; closes = closes; body = body.now })) }
    ensures fault { OnErr result (result ≡ Err Memory) }
{
    let Some(route) = route_of_target::<D>(alloc, router, target)? else {
        return Ok(RequestedCall::Wrong(RequestProblem::NotFound));
    };
    if method != Method::POST.as_str().as_bytes() {
        return Ok(RequestedCall::Wrong(RequestProblem::NotAllowed));
    }
    let Some(texts) = texts_of_body(alloc, body)? else {
        return Ok(RequestedCall::Wrong(RequestProblem::BadRequest));
    };
    call_of_texts::<D>(alloc, route, &texts)
}
