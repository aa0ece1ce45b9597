//! The next request of a stream. After a fault, no clause states what the buffer and the reader
//! contain.
ghost use Rattle.std.specs.Prelude.{◌≡◌, ◌++◌, List, ℕ, length, IfOk, OnOk, IfSome};
ghost use Rattle.brk_model_http.specs.Found.{RequestReading, ReadsFirstRequest};
ghost use Rattle.brk_http_reader.specs.Moves.{ReadsIntoBuffer};
ghost use Rattle.brk_http_reader.specs.FirstRequests.{MatchesNextRequest, IsRequestWithin};

use crate::head::parse_head;
use crate::input::{InputFault, read_head, read_to_length};
use brk_model_http::{HeadEnd, RequestProblem};
use httparse::spans::Span;
use std::io::Read;

/// The positions of a request's parts in the buffer. The body is its last part.
#[derive(Clone, Copy, Debug)]
pub struct RequestPositions {
    pub method: Span,
    pub target: Span,
    /// True if the request asks to close the stream, or is of version 1.0.
    pub closes: bool,
    pub body: Span,
}

/// The result of reading the next request of a stream.
#[derive(Clone, Copy, Debug)]
pub enum NextRequest {
    /// No byte is left.
    Ended,
    /// The next request cannot be read, because of this problem.
    Broken(RequestProblem),
    /// A whole request, at these positions.
    Whole(RequestPositions),
}

/// Reads the next request into the buffer, up to the end of its body or beyond it, and returns the
/// positions of its parts.
///
/// Returns `Broken` with the first problem: `TooLarge` if the first 16,384 bytes do not contain the
/// end of the head; `BadRequest` if the head is cut, malformed or has more than 100 fields; the
/// problem with the body length (`field_facts`); `BadRequest` if the body is cut.
pub fn read_request<R: Read>(
    reader: &mut R,
    buffer: &mut Vec<u8>,
) -> Result<NextRequest, InputFault>
    ensures moves { OnOk result (ReadsIntoBuffer (R.remaining reader.old) (R.remaining reader.new) buffer.old.items buffer.new.items) }
    ensures within { IfOk result (λ front. IsRequestWithin front (length buffer.new.items)) }
    ensures found { IfOk result (λ front. IfSome (R.remaining reader.old) (λ xs. (found : RequestReading) × ReadsFirstRequest (buffer.old.items ++ xs) found
        × MatchesNextRequest front buffer.new.items (R.remaining reader.new) found)) }
{
    let end = match read_head(reader, buffer)? {
        HeadEnd::Nothing => return Ok(NextRequest::Ended),
        HeadEnd::TooLong => return Ok(NextRequest::Broken(RequestProblem::TooLarge)),
        HeadEnd::Cut => return Ok(NextRequest::Broken(RequestProblem::BadRequest)),
        HeadEnd::At(end) => end,
    };
    let Some(facts) = parse_head(&buffer[..end]) else {
        return Ok(NextRequest::Broken(RequestProblem::BadRequest));
    };
    let len = match facts.len {
        Ok(len) => len,
        Err(problem) => return Ok(NextRequest::Broken(problem)),
    };
    let stop = end + len;
    let there = read_to_length(reader, buffer, stop)?;
    if !there {
        return Ok(NextRequest::Broken(RequestProblem::BadRequest));
    }
    Ok(NextRequest::Whole(RequestPositions {
        method: facts.method,
        target: facts.target,
        closes: facts.closes,
        body: Span {
            start: end,
            end: stop,
        },
    }))
}
