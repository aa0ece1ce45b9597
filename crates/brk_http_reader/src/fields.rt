//! The body length and the close flag in the fields of a head.
ghost use Rattle.std.specs.Prelude.{◌≡◌, ◌≤◌, ℕ, All, List, true, map, length, IfOk};
ghost use Rattle.std.specs.List.{list_all};
ghost use Rattle.std.specs.Char.{is_ascii_digit};
ghost use Rattle.std.specs.Str.Parse.{digits_value};
ghost use Rattle.httparse.specs.Spans.{header_bytes, IsHeaderWithin};
ghost use Rattle.brk_model_http.specs.Fields as spec;
ghost use Rattle.brk_http_reader.specs.FieldFactUpdates.{facts_with_field};

use brk_model_http::RequestProblem;
use httparse::spans::HeaderSpan;

/// The greatest length of a request's body, in bytes.
const MAXIMUM_BODY_BYTES: usize = 65_536;

/// The body length and the close flag of the fields of a head.
#[derive(Clone, Copy, Debug)]
pub struct FieldFacts {
    /// Length of the body in bytes, or the problem with the fields that give it.
    pub len: Result<usize, RequestProblem>,
    /// True if a `Connection` field has exactly the value `close`, in upper or lower case.
    pub closes: bool,
}

fn is_equal_ignoring_case(a: &[u8], b: &[u8]) -> bool
    ensures { result ≡ spec.is_equal_ignoring_case a.now b.now }
{
    a.eq_ignore_ascii_case(b)
}

// True also for an empty value.
fn is_all_digits(value: &[u8]) -> bool
    ensures { result ≡ list_all is_ascii_digit value.now }
{
    value.iter().all(|b| b.is_ascii_digit())
}

// False for an empty value.
fn has_only_digits(value: &[u8]) -> bool
    ensures { result ≡ spec.has_only_digits value.now }
{
    value.len() > 0 && is_all_digits(value)
}

fn value_of_digits(value: &[u8]) -> usize
    requires few { length value.now ≤ 9 }
    requires digits { list_all is_ascii_digit value.now ≡ true }
    ensures { result ≡ digits_value 10 value.now }
{
    let mut number = 0usize;
    for byte in value {
        number = number * 10 + usize::from(*byte - b'0');
    }
    number
}

// Parses the value of a `Content-Length` field. A value of more than nine digits is `TooLarge`,
// even if it has leading zeros.
fn body_length_of_value(value: &[u8]) -> Result<usize, RequestProblem>
    ensures value { result ≡ spec.body_length_of_value value.now }
    ensures small { IfOk result (λ n. n ≤ spec.most_body_bytes) }
{
    if !has_only_digits(value) {
        return Err(RequestProblem::BadRequest);
    }
    if value.len() > 9 {
        return Err(RequestProblem::TooLarge);
    }
    let len = value_of_digits(value);
    if len > MAXIMUM_BODY_BYTES {
        Err(RequestProblem::TooLarge)
    } else {
        Ok(len)
    }
}

/// The facts of the fields that were read so far.
#[derive(Clone, Copy, Debug)]
struct FieldFactsSoFar {
    /// True if there is a `Transfer-Encoding` field.
    chunked: bool,
    /// True if a `Connection` field has exactly the value `close`, in upper or lower case.
    closes: bool,
    /// True if there is a `Content-Length` field.
    any_length: bool,
    /// The length of the body in bytes, 0 without a `Content-Length` field, or the problem with it.
    len: Result<usize, RequestProblem>,
}

// A second `Content-Length` field is `BadRequest`, even if it equals the first.
fn with_field(seen: FieldFactsSoFar, name: &[u8], value: &[u8]) -> FieldFactsSoFar
    ensures value { result ≡ facts_with_field seen (name.now, value.now) }
    ensures small { IfOk seen.len (λ n. n ≤ spec.most_body_bytes) → IfOk result.len (λ n. n ≤ spec.most_body_bytes) }
{
    let is_length = is_equal_ignoring_case(name, b"content-length");
    let is_close = is_equal_ignoring_case(name, b"connection")
        && is_equal_ignoring_case(value, b"close");
    let len = match is_length {
        false => seen.len,
        true => match seen.any_length {
            true => Err(RequestProblem::BadRequest),
            false => body_length_of_value(value),
        },
    };
    FieldFactsSoFar {
        chunked: seen.chunked || is_equal_ignoring_case(name, b"transfer-encoding"),
        closes: seen.closes || is_close,
        any_length: seen.any_length || is_length,
        len,
    }
}

/// Returns the body length and the close flag of a head with the fields `headers` in `front`. The
/// length is at most 65,536 bytes, and 0 without a `Content-Length` field.
///
/// The problem is `NotImplemented` if there is a `Transfer-Encoding` field; otherwise `BadRequest`
/// if `Content-Length` is repeated or not one or more digits, and `TooLarge` if it has more than
/// nine digits or exceeds the limit.
pub fn field_facts(front: &[u8], headers: &[HeaderSpan]) -> FieldFacts
    requires { All (IsHeaderWithin (length front.now)) headers.now }
    ensures len { result.len ≡ spec.body_length_of_fields (map (header_bytes front.now) headers.now) }
    ensures small { IfOk result.len (λ n. n ≤ spec.most_body_bytes) }
    ensures closes { result.closes ≡ spec.has_connection_close (map (header_bytes front.now) headers.now) }
{
    let mut seen = FieldFactsSoFar {
        chunked: false,
        closes: false,
        any_length: false,
        len: Ok(0),
    };
    for header in headers {
        seen = with_field(seen, header.name.of(front), header.value.of(front));
    }
    FieldFacts {
        len: if seen.chunked {
            Err(RequestProblem::NotImplemented)
        } else {
            seen.len
        },
        closes: seen.closes,
    }
}
