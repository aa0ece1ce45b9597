//! Parses the head of a request.
ghost use Rattle.std.specs.Prelude.{◌≡◌, ◌||◌, ◌≤◌, ℕ, List, length, IfSome, IfNone, IfOk};
ghost use Rattle.httparse.specs.Grammar.{RequestHead};
ghost use Rattle.httparse.specs.Spans.{span_bytes, IsWithin};
ghost use Rattle.brk_model_http.specs.Fields.{most_body_bytes};
ghost use Rattle.brk_model_http.specs.Found.{IsRequestHead};
ghost use Rattle.brk_http_reader.specs.Heads.{FactsDescribeHead};

use crate::fields::field_facts;
use brk_model_http::RequestProblem;
use httparse::Status;
use httparse::spans::{EMPTY_HEADER_SPAN, Span, parse_request};

/// The greatest number of fields of a head.
const MAXIMUM_HEAD_FIELDS: usize = 100;

/// The parts of a request's head: the positions of method and target, the close flag, and the body
/// length.
#[derive(Clone, Copy, Debug)]
pub struct HeadFacts {
    pub method: Span,
    pub target: Span,
    /// True if the request asks to close the stream, or is of version 1.0.
    pub closes: bool,
    /// Length of the body in bytes, or the problem with the fields that give it.
    pub len: Result<usize, RequestProblem>,
}

// A function of its own, since the proof of `parse_head` cites its clause.
fn is_either_true(a: bool, b: bool) -> bool
    ensures { result ≡ (a || b) }
{
    a || b
}

/// Parses the head with which `front` begins; returns `None` if `front` begins with no head of at
/// most 100 fields. The clause `none` says only that `front` is then not exactly such a head.
pub fn parse_head(front: &[u8]) -> Option<HeadFacts>
    ensures within { IfSome result (λ facts. IsWithin (length front.now) facts.method × IsWithin (length front.now) facts.target) }
    ensures small { IfSome result (λ facts. IfOk facts.len (λ n. n ≤ most_body_bytes)) }
    ensures head { IfSome result (λ facts. (h : RequestHead) × (rest : List ℕ) × FactsDescribeHead front.now facts h rest) }
    ensures none { IfNone result ((h : RequestHead) → ¬ (IsRequestHead front.now h)) }
{
    let mut headers = [EMPTY_HEADER_SPAN; MAXIMUM_HEAD_FIELDS];
    match parse_request(front, &mut headers) {
        Ok(Status::Complete(found)) => {
            let fields = field_facts(front, &headers[..found.headers]);
            Some(HeadFacts {
                method: found.method,
                target: found.path,
                closes: is_either_true(found.version == 0, fields.closes),
                len: fields.len,
            })
        }
        _ => None,
    }
}
