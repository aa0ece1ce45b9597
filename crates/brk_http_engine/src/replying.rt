//! The reply to a response: its status, its head and its body.

ghost use Rattle.std.specs.Prelude.{◌≡◌, ◌++◌, [], IfOk, OnOk, string_bytes, unwrap_or};
ghost use Rattle.http.specs.StatusCode.{reason_phrase};
ghost use Rattle.brk_model_http.specs.Replies.{FromOutcome, is_method_not_allowed, response_body, fault_word, http_head_line, is_fault_response};
ghost use Rattle.brk_model_http.specs.Replies.{http_status_of_problem, text_of_problem, reply_text, reply_bytes, http_status_of_response, head_line_if};
ghost use Rattle.brk_model.specs.Commands as model;
ghost use Rattle.brk_model.specs.Queries as queries;
ghost use Rattle.brk_model.specs.Run as run;
ghost use Rattle.brk_http_engine.specs.Lines.{first_head_lines, status_text};
ghost use Rattle.brk_http_engine.specs.Codes.{response_in_model};

use crate::acting::ServiceResponse;
use crate::bodies::{MemberName, json_error, json_view, texts_object};
use crate::pieces::comma_fields;
use crate::service::Service;
use brk_model_http::RequestProblem;
use brk_money::{Fault, Refusal};
use http::StatusCode;
use std::alloc::{AllocError, Global};

fn problem_status(problem: RequestProblem) -> StatusCode
    ensures { status_text result ≡ http_status_of_problem problem }
{
    match problem {
        RequestProblem::TooLarge => StatusCode::PAYLOAD_TOO_LARGE,
        RequestProblem::BadRequest => StatusCode::BAD_REQUEST,
        RequestProblem::NotImplemented => StatusCode::NOT_IMPLEMENTED,
        RequestProblem::NotFound => StatusCode::NOT_FOUND,
        RequestProblem::NotAllowed => StatusCode::METHOD_NOT_ALLOWED,
    }
}

fn text_of_problem(problem: RequestProblem) -> &'static str
    ensures { result.now ≡ text_of_problem problem }
{
    match problem {
        RequestProblem::TooLarge => "too large",
        RequestProblem::BadRequest => "bad request",
        RequestProblem::NotImplemented => "not implemented",
        RequestProblem::NotFound => "not found",
        RequestProblem::NotAllowed => "method not allowed",
    }
}

fn fault_word(fault: Fault) -> &'static str
    ensures { result.now ≡ fault_word fault }
{
    match fault {
        Fault::Memory => "memory",
        Fault::Store | Fault::Damaged(_) => "store",
    }
}

fn response_status<R, V>(response: &ServiceResponse<R, V>) -> StatusCode
    ensures { (reply : R → model.Reply) (shown : V → queries.View) → status_text result ≡ http_status_of_response (response_in_model reply shown response.now) }
{
    match response {
        ServiceResponse::Wrong(problem) => problem_status(*problem),
        ServiceResponse::NoRow(_) => StatusCode::CONFLICT,
        ServiceResponse::NoView(_) => StatusCode::CONFLICT,
        ServiceResponse::Done(_) => StatusCode::OK,
        ServiceResponse::Again(_) => StatusCode::OK,
        ServiceResponse::Saw(_) => StatusCode::OK,
        ServiceResponse::Failed(_) => StatusCode::SERVICE_UNAVAILABLE,
    }
}

fn is_method_not_allowed<R, V>(response: &ServiceResponse<R, V>) -> bool
    ensures { (reply : R → model.Reply) (shown : V → queries.View) → result ≡ is_method_not_allowed (response_in_model reply shown response.now) }
{
    match response {
        ServiceResponse::Wrong(RequestProblem::NotAllowed) => true,
        _ => false,
    }
}

pub fn is_fault_response<R, V>(response: &ServiceResponse<R, V>) -> bool
    ensures { (reply : R → model.Reply) (shown : V → queries.View) → result ≡ is_fault_response (response_in_model reply shown response.now) }
{
    match response {
        ServiceResponse::Failed(_) => true,
        _ => false,
    }
}

// `{"no":["NUMBER",..]}`: the number of the refusal and, for `WrongStatus`, the code of the status,
// for `Range` the word of the limit.
#[tactic(auto, using(crate::proofs::PieceLemmas::refusal_parts))]
fn refusal_body(alloc: Global, refusal: Refusal) -> Result<String, AllocError>
    ensures { IfOk result (λ s. string_bytes s ≡ response_body (FromOutcome (run.NoView refusal))) }
{
    let line = format!(in alloc; "{refusal}")?;
    let fields = comma_fields(alloc, line.as_str())?;
    texts_object(alloc, MemberName::No, &fields)
}

fn response_body<D: Service>(
    alloc: Global,
    response: &ServiceResponse<D::Reply, D::View>,
) -> Result<String, AllocError>
    ensures { IfOk result (λ s. string_bytes s ≡ response_body (response_in_model D.told D.shown response.now)) }
{
    match response {
        ServiceResponse::Wrong(problem) => json_error(alloc, text_of_problem(*problem)),
        ServiceResponse::NoRow(refusal) | ServiceResponse::NoView(refusal) => refusal_body(
            alloc, *refusal,
        ),
        ServiceResponse::Done(reply) => {
            let fields = D::reply_fields(alloc, reply)?;
            texts_object(alloc, MemberName::Ok, &fields)
        }
        ServiceResponse::Again(line) => {
            let fields = comma_fields(alloc, line.as_str())?;
            texts_object(alloc, MemberName::Again, &fields)
        }
        ServiceResponse::Saw(view) => {
            let records = D::view_records(alloc, view)?;
            json_view(alloc, &records)
        }
        ServiceResponse::Failed(fault) => json_error(alloc, fault_word(*fault)),
    }
}

fn append_line(head: &mut String, line: &str) -> Result<(), AllocError>
    ensures { OnOk result (string_bytes head.new ≡ string_bytes head.old ++ http_head_line line.now) }
{
    write!(head, "{line}\r\n")
}

fn append_optional_line(head: &mut String, is_wanted: bool, line: &str) -> Result<(), AllocError>
    ensures { OnOk result (string_bytes head.new ≡ string_bytes head.old ++ head_line_if is_wanted line.now) }
{
    if is_wanted {
        append_line(head, line)
    } else {
        Ok(())
    }
}

fn status_phrase(code: StatusCode) -> &'static str
    ensures { result.now ≡ unwrap_or (reason_phrase code) [] }
{
    match code.canonical_reason() {
        Some(phrase) => phrase,
        None => "",
    }
}

// The status line, the content type and the content length, in bytes.
fn first_head_lines(alloc: Global, code: StatusCode, len: usize) -> Result<String, AllocError>
    ensures { IfOk result (λ s. string_bytes s ≡ first_head_lines (status_text code) len) }
{
    format!(in alloc;
        "HTTP/1.1 {} {}\r\nContent-Type: application/json\r\nContent-Length: {len}\r\n",
        code.as_str(),
        status_phrase(code),
    )
}

#[tactic(auto, unfolding(crate::specs::Lines::first_head_lines, brk_model_http::specs::Replies::reply_bytes))]
fn assemble_reply(
    alloc: Global,
    code: StatusCode,
    asks_post: bool,
    closes: bool,
    body: &str,
) -> Result<String, AllocError>
    ensures { IfOk result (λ s. string_bytes s ≡ reply_bytes (status_text code) asks_post closes body.now) }
{
    let mut text = first_head_lines(alloc, code, body.len())?;
    append_optional_line(&mut text, asks_post, "Allow: POST")?;
    append_optional_line(&mut text, closes, "Connection: close")?;
    write!(text, "\r\n{body}")?;
    Ok(text)
}

/// Returns the bytes of the reply to a response: its head and its JSON body. The head has an
/// `Allow: POST` line after `NotAllowed`, and a `Connection: close` line if `closes` is true.
pub fn reply_text<D: Service>(
    alloc: Global,
    response: &ServiceResponse<D::Reply, D::View>,
    closes: bool,
) -> Result<String, AllocError>
    ensures { IfOk result (λ s. string_bytes s ≡ reply_text (response_in_model D.told D.shown response.now) closes) }
{
    let body = response_body::<D>(alloc, response)?;
    assemble_reply(
        alloc,
        response_status(response),
        is_method_not_allowed(response),
        closes,
        body.as_str(),
    )
}
