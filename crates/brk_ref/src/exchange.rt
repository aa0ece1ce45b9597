ghost use Rattle.std.specs.Prelude.{◌≡◌};
ghost use Rattle.std.specs.List.{list_all};
ghost use Rattle.std.specs.Char.{is_ascii_uppercase};
ghost use Rattle.brk_model.specs.Forms.{is_exchange};
ghost use Rattle.brk_ref.specs.Utf8.{exchange_is_utf8};

use crate::text::{Form, Text};

/// An exchange (S_EX_ID): 1 to 6 ASCII capital letters.
pub type Exchange = Text<ExchangeForm>;

fn has_only_capitals(text: &[u8]) -> bool
    ensures { result ≡ list_all (λ c. is_ascii_uppercase c) text.now }
{
    text.iter().all(|c| c.is_ascii_uppercase())
}

/// The format of an exchange (`Exchange`).
#[derive(Drop)]
pub struct ExchangeForm;

impl Form for ExchangeForm {
    ghost form = { is_exchange };

    #[tactic(auto, using(crate::proofs::Texts::too_short, crate::proofs::Texts::too_long, crate::proofs::Texts::word_is))]
    fn has_form(text: &str) -> bool {
        let text = text.as_bytes();
        if text.is_empty() {
            return false;
        }
        if text.len() > 6 {
            return false;
        }
        has_only_capitals(text)
    }

    ghost is_utf8 = { exchange_is_utf8 };
}
