//! Requests over HTTP, as texts.

use std::alloc::{AllocError, Global};

/// Returns the text of a POST request with this target and this body.
pub fn format_post_request(alloc: Global, target: &str, body: &str) -> Result<String, AllocError> {
    let len = body.len();
    format!(in alloc; "POST {target} HTTP/1.1\r\nHost: desk\r\nContent-Length: {len}\r\n\r\n{body}")
}
