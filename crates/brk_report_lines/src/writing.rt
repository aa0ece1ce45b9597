ghost use Rattle.std.specs.Prelude.{◌≡◌, List, [], ◌∷◌, IfOk};
ghost use Rattle.brk_money.specs.Spelling.{Text};
ghost use Rattle.brk_model.specs.Statement.{text_of_lines};
ghost use Rattle.brk_report_lines.specs.Written.{WritesLines, line_with_line_feed};

use brk_io::{LinesFault, write_all_bytes};
use brk_money::CallFault;
use std::io::Write;

/// Writes `line`, which must end with its line feed. Fails with `Desk` if `line` is an error, or
/// with `Write` after a prefix of it.
pub fn write_line<W: Write, E: Into<CallFault>>(
    writer: &mut W,
    line: Result<Vec<u8>, E>,
) -> Result<(), LinesFault>
    ensures written { (text : Text) → IfOk line (λ l. l.items ≡ line_with_line_feed text)
        → WritesLines (text ∷ []) (W.contents writer.old) (W.contents writer.new) result }
{
    let line = match line {
        Ok(line) => line,
        Err(fault) => return Err(LinesFault::Desk(fault.into())),
    };
    match write_all_bytes(writer, line.as_slice()) {
        Ok(()) => (),
        Err(_) => return Err(LinesFault::Write),
    }
    Ok(())
}

/// Writes one or more lines, each with its line feed; fails as `write_line` does.
pub fn write_lines<W: Write, E: Into<CallFault>>(
    writer: &mut W,
    text: Result<Vec<u8>, E>,
) -> Result<(), LinesFault>
    ensures written { (line : Text) (lines : List Text) → IfOk text (λ t. t.items ≡ text_of_lines (line ∷ lines))
        → WritesLines (line ∷ lines) (W.contents writer.old) (W.contents writer.new) result }
{
    let text = match text {
        Ok(text) => text,
        Err(fault) => return Err(LinesFault::Desk(fault.into())),
    };
    match write_all_bytes(writer, text.as_slice()) {
        Ok(()) => (),
        Err(_) => return Err(LinesFault::Write),
    }
    Ok(())
}
