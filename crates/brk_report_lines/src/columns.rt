//! Texts padded with spaces to columns of at most 22 bytes. A longer text is appended whole.

ghost use Rattle.std.specs.Prelude.{◌≡◌, ◌++◌, ◌≤◌, OnOk, replicate};
ghost use Rattle.brk_model.specs.Statement.{left_aligned_text, right_aligned_text};

use std::alloc::AllocError;

fn append_spaces(out: &mut Vec<u8>, count: usize) -> Result<(), AllocError>
    requires { count ≤ 22 }
    ensures { OnOk result (out.new.items ≡ out.old.items ++ replicate count 32) }
{
    let spaces = [b' '; 22];
    out.extend_from_slice(&spaces[..count])?;
    Ok(())
}

/// Appends `text`, padded with spaces on the right to `places` bytes, at most 22.
pub fn append_left_aligned(out: &mut Vec<u8>, places: usize, text: &[u8]) -> Result<(), AllocError>
    requires { places ≤ 22 }
    ensures { OnOk result (out.new.items ≡ out.old.items ++ left_aligned_text places text.now) }
{
    out.extend_from_slice(text)?;
    append_spaces(out, places.saturating_sub(text.len()))
}

/// Appends `text`, padded with spaces on the left to `places` bytes, at most 22.
pub fn append_right_aligned(out: &mut Vec<u8>, places: usize, text: &[u8]) -> Result<(), AllocError>
    requires { places ≤ 22 }
    ensures { OnOk result (out.new.items ≡ out.old.items ++ right_aligned_text places text.now) }
{
    append_spaces(out, places.saturating_sub(text.len()))?;
    out.extend_from_slice(text)?;
    Ok(())
}
