//! The `ok` of an audit that passed. The audit itself is the opening of the desk.

ghost use Rattle.brk_cli_jobs.specs.Jobs.{WritesAuditOk};

use brk_cli_exit::Ending;
use brk_io::write_all_bytes;
use std::io::Write;

pub(crate) fn write_audit_ok<W: Write>(output: &mut W) -> Ending
    ensures { WritesAuditOk (W.contents output.old) (W.contents output.new) result }
{
    match write_all_bytes(output, b"ok\n") {
        Ok(()) => Ending::Done,
        Err(_) => Ending::Output,
    }
}
