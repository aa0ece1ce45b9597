//! Texts, borrowed as their bytes.

ghost use Rattle.std.specs.Prelude.{◌≡◌, IfOk, map, string_bytes};
ghost use Rattle.brk_ref.specs.Fields.{texts_of_fields};

use std::alloc::{AllocError, Global};

/// Returns the texts in sequence, each as its bytes. Copies no text.
pub fn borrow_texts(alloc: Global, texts: &[String]) -> Result<Vec<&[u8]>, AllocError>
    ensures { IfOk result (λ all. texts_of_fields all.items ≡ map string_bytes texts.now) }
{
    let mut all = Vec::new(alloc);
    for text in texts {
        all.push(text.as_str().as_bytes())?;
    }
    Ok(all)
}
