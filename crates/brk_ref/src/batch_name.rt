ghost use Rattle.std.specs.Prelude.{◌≡◌, ◌==◌, ◌||◌};
ghost use Rattle.std.specs.List.{list_all};
ghost use Rattle.std.specs.Char.{is_ascii_alphanumeric};
ghost use Rattle.brk_model.specs.Forms.{is_batch_name};
ghost use Rattle.brk_ref.specs.Utf8.{batch_name_is_utf8};

use crate::text::{Form, Text};

/// The name of a batch (K_BATCH): 1 to 40 ASCII letters, digits, points, hyphens and underscores.
pub type BatchName = Text<BatchNameForm>;

// Returns true if each byte may occur in the name of a batch.
fn has_batch_bytes(text: &[u8]) -> bool
    ensures { result ≡ list_all (λ c. is_ascii_alphanumeric c || (c == 46) || (c == 45) || (c == 95)) text.now }
{
    text.iter().all(|c| c.is_ascii_alphanumeric() || *c == b'.' || *c == b'-' || *c == b'_')
}

/// The format of the name of a batch (`BatchName`).
#[derive(Drop)]
pub struct BatchNameForm;

impl Form for BatchNameForm {
    ghost form = { is_batch_name };

    #[tactic(auto, using(crate::proofs::Texts::too_short, crate::proofs::Texts::too_long, crate::proofs::Texts::word_is))]
    fn has_form(text: &str) -> bool {
        let text = text.as_bytes();
        if text.is_empty() {
            return false;
        }
        if text.len() > 40 {
            return false;
        }
        has_batch_bytes(text)
    }

    ghost is_utf8 = { batch_name_is_utf8 };
}
