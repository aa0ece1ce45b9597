ghost use Rattle.std.specs.Prelude.{◌≡◌, not, chars};
ghost use Rattle.std.specs.List.{list_all};
ghost use Rattle.std.specs.Char.{is_control};
ghost use Rattle.brk_model.specs.Forms.{is_name};
ghost use Rattle.brk_ref.specs.Utf8.{name_is_utf8};

use crate::text::{Form, Text};

/// A name or a sector: text of 1 to 60 bytes of UTF-8 without control characters.
pub type Name = Text<NameForm>;

fn has_no_controls(text: &str) -> bool
    ensures { result ≡ list_all (λ c. not (is_control c)) (chars text.now) }
{
    text.chars().all(|c| !c.is_control())
}

/// The format of a name (`Name`).
#[derive(Drop)]
pub struct NameForm;

impl Form for NameForm {
    ghost form = { is_name };

    fn has_form(text: &str) -> bool {
        if text.is_empty() {
            return false;
        }
        if text.len() > 60 {
            return false;
        }
        has_no_controls(text)
    }

    ghost is_utf8 = { name_is_utf8 };
}
