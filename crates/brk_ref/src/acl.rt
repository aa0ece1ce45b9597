ghost use Rattle.std.specs.Prelude.{◌≡◌, ◌==◌, ◌||◌};
ghost use Rattle.std.specs.List.{list_all};
ghost use Rattle.brk_model.specs.Forms.{is_acl};
ghost use Rattle.brk_ref.specs.Utf8.{acl_is_utf8};

use crate::text::{Form, Text};

/// The rights of a permission (AP_ACL): four characters, each 0 or 1, which are stored unchanged.
pub type Acl = Text<AclForm>;

fn is_binary(text: &[u8]) -> bool
    ensures { result ≡ list_all (λ c. (c == 48) || (c == 49)) text.now }
{
    text.iter().all(|c| *c == b'0' || *c == b'1')
}

/// The format of the rights of a permission (`Acl`).
#[derive(Drop)]
pub struct AclForm;

impl Form for AclForm {
    ghost form = { is_acl };

    fn has_form(text: &str) -> bool {
        let text = text.as_bytes();
        if text.len() != 4 {
            return false;
        }
        is_binary(text)
    }

    ghost is_utf8 = { acl_is_utf8 };
}
