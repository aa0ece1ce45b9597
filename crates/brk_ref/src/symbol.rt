ghost use Rattle.std.specs.Prelude.{◌≡◌, ◌==◌, ◌||◌};
ghost use Rattle.std.specs.List.{list_all};
ghost use Rattle.std.specs.Char.{is_ascii_digit, is_ascii_uppercase};
ghost use Rattle.brk_model.specs.Forms.{is_symbol};
ghost use Rattle.brk_ref.specs.Utf8.{symbol_is_utf8};

use crate::text::{Form, Text};

/// The symbol of a security (S_SYMB): 1 to 15 ASCII capital letters, digits, points and hyphens.
pub type Symbol = Text<SymbolForm>;

fn has_symbol_bytes(text: &[u8]) -> bool
    ensures { result ≡ list_all (λ c. is_ascii_uppercase c || is_ascii_digit c || (c == 46) || (c == 45)) text.now }
{
    text.iter().all(|c| c.is_ascii_uppercase() || c.is_ascii_digit() || *c == b'.' || *c == b'-')
}

/// The format of a symbol (`Symbol`).
#[derive(Drop)]
pub struct SymbolForm;

impl Form for SymbolForm {
    ghost form = { is_symbol };

    #[tactic(auto, using(crate::proofs::Texts::too_short, crate::proofs::Texts::too_long, crate::proofs::Texts::word_is))]
    fn has_form(text: &str) -> bool {
        let text = text.as_bytes();
        if text.is_empty() {
            return false;
        }
        if text.len() > 15 {
            return false;
        }
        has_symbol_bytes(text)
    }

    ghost is_utf8 = { symbol_is_utf8 };
}
