ghost use Rattle.std.specs.Prelude.{◌≡◌, ◌==◌, ◌||◌};
ghost use Rattle.std.specs.List.{list_all};
ghost use Rattle.std.specs.Char.{is_ascii_alphanumeric};
ghost use Rattle.brk_model.specs.Forms.{is_tax_id};
ghost use Rattle.brk_ref.specs.Utf8.{tax_id_is_utf8};

use crate::text::{Form, Text};

/// A tax id (C_TAX_ID): 1 to 20 ASCII letters, digits and hyphens.
pub type TaxId = Text<TaxIdForm>;

fn has_tax_id_bytes(text: &[u8]) -> bool
    ensures { result ≡ list_all (λ c. is_ascii_alphanumeric c || (c == 45)) text.now }
{
    text.iter().all(|c| c.is_ascii_alphanumeric() || *c == b'-')
}

/// The format of a tax id (`TaxId`).
#[derive(Drop)]
pub struct TaxIdForm;

impl Form for TaxIdForm {
    ghost form = { is_tax_id };

    #[tactic(auto, using(crate::proofs::Texts::too_short, crate::proofs::Texts::too_long, crate::proofs::Texts::word_is))]
    fn has_form(text: &str) -> bool {
        let text = text.as_bytes();
        if text.is_empty() {
            return false;
        }
        if text.len() > 20 {
            return false;
        }
        has_tax_id_bytes(text)
    }

    ghost is_utf8 = { tax_id_is_utf8 };
}
