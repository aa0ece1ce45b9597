//! Texts of a format, such as names and symbols, and the trait of their formats.

ghost use Rattle.std.specs.Prelude.{◌≡◌, ℕ, List, Bool, true, IfOk, string_bytes};
ghost use Rattle.std.specs.Option.{ok_or};
ghost use Rattle.std.specs.Str.{IsUtf8};
ghost use Rattle.brk_model.specs.Forms.{read_valid_text};
ghost use Rattle.brk_money.specs.declared.refusal.Refusal.TheVariants.{BadText};

use std::alloc::{AllocError, Global};
use std::marker::{Model, PhantomData};

/// A format of text, such as that of a symbol or of a name.
pub trait Form {
    /// True for the bytes of the texts that have the format.
    ghost form: { List ℕ → Bool };

    fn has_form(text: &str) -> bool
        ensures { result ≡ form text.now };

    /// Bytes that have the format are UTF-8.
    ghost is_utf8: { (bytes : List ℕ) → form bytes ≡ true → IsUtf8 bytes };
}

/// A text of the format `F`. Contracts see its bytes.
#[derive(Drop)]
pub struct Text<F: Form> {
    text: String,
    form: PhantomData<F>,
}

impl<F: Form> Model for Text<F> {
    ghost Value = { List ℕ };

    ghost view = { λ text. string_bytes text.text };

    ghost invariant = { λ text. F.form (string_bytes text.text) ≡ true };
}

impl<F: Form> Text<F> {
    /// Returns `None` if `text` does not have the format.
    pub fn new(text: String) -> Option<Text<F>>
        ensures { ok_or result BadText ≡ read_valid_text F.form (string_bytes text) }
    {
        if F::has_form(text.as_str()) {
            Some(Text {
                text,
                form: PhantomData,
            })
        } else {
            None
        }
    }

    /// Copies the bytes, or returns `None` if they do not have the format.
    pub fn parse(alloc: Global, bytes: &[u8]) -> Result<Option<Text<F>>, AllocError>
        ensures read { IfOk result (λ text. ok_or text BadText ≡ read_valid_text F.form bytes.now) }
    {
        let Ok(text) = str::from_utf8(bytes) else {
            return Ok(None);
        };
        if !F::has_form(text) {
            return Ok(None);
        }
        let text = String::from_str(alloc, text)?;
        Ok(Some(Text {
            text,
            form: PhantomData,
        }))
    }

    pub fn as_str(&self) -> &str
        ensures { result.now ≡ self.now }
    {
        self.text.as_str()
    }

    /// Proof-only: does nothing at run time.
    pub fn prove_form(&self)
        ensures { F.form self.now ≡ true }
    {
        let _ = &self.text;
    }
}

impl<F: Form> Clone for Text<F> {
    ghost is_clone = { λ one other. other ≡ one };

    fn clone(&self) -> Result<Text<F>, AllocError> {
        let text = self.text.clone()?;
        Ok(Text {
            text,
            form: PhantomData,
        })
    }
}
