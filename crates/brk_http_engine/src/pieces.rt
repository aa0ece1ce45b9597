//! Texts split at a character, and copied.

ghost use Rattle.std.specs.Prelude.{◌≡◌, ◌<◌, IfOk};
ghost use Rattle.brk_ref.specs.Fields.{texts_of_fields as slices};
ghost use Rattle.brk_model_http.specs.Routes as spec;
ghost use Rattle.brk_http_engine.specs.Codes.{bytes_of_texts};

use std::alloc::{AllocError, Global};

/// Returns the parts of `text` before, between and after the occurrences of the ASCII character
/// `cut`. A part may be empty; without an occurrence the text, even if it is empty, is the only
/// part.
#[tactic(auto, unfolding(brk_model_http::specs::Routes::split_at_byte))]
pub fn split_at_byte(alloc: Global, cut: char, text: &str) -> Result<Vec<&str>, AllocError>
    requires ascii { cut < 128 }
    ensures { IfOk result (λ parts. slices parts.items ≡ spec.split_at_byte cut text.now) }
{
    text.split(cut).collect(alloc)
}

/// Returns owned copies of the texts, in order.
pub fn copy_texts(alloc: Global, parts: &[&str]) -> Result<Vec<String>, AllocError>
    ensures { IfOk result (λ all. bytes_of_texts all ≡ slices parts.now) }
{
    let mut all = Vec::new(alloc);
    for part in parts {
        all.push(String::from_str(alloc, part)?)?;
    }
    Ok(all)
}

/// Returns copies of the parts of a line, cut at each comma; a quote has no meaning. A line without
/// a comma is one field.
pub fn comma_fields(alloc: Global, line: &str) -> Result<Vec<String>, AllocError>
    ensures { IfOk result (λ fields. bytes_of_texts fields ≡ spec.split_at_byte 44 line.now) }
{
    let parts = split_at_byte(alloc, ',', line)?;
    copy_texts(alloc, &parts)
}
