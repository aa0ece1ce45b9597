ghost use Rattle.std.specs.Prelude.{◌≡◌};
ghost use Rattle.brk_io.specs.Faults.{report_fault_of_lines_fault};

use brk_money::{CallFault, Fault, Refusal};

/// The cause of a failure to write lines.
#[derive(Debug, Drop)]
pub enum LinesFault {
    /// The desk failed, or memory ran out. Only whole lines are written, and not the last one of
    /// the whole text.
    Desk(CallFault),
    /// The writer failed, or accepted no byte.
    Write,
}

/// The cause of a failure to write a report: a statement, an explanation or the view of a query.
#[derive(Debug, Drop)]
pub enum ReportFault {
    /// The report is refused, and nothing is written.
    Refused(Refusal),
    /// The desk failed, or memory ran out. Only whole lines are written, and not the last one of
    /// the whole text.
    Desk(Fault),
    /// The writer failed, or accepted no byte.
    Write,
}

impl From<LinesFault> for ReportFault {
    ghost from_gives = { λ fault report. report ≡ report_fault_of_lines_fault fault };

    fn from(fault: LinesFault) -> ReportFault {
        match fault {
            LinesFault::Desk(fault) => ReportFault::Desk(fault.into()),
            LinesFault::Write => ReportFault::Write,
        }
    }
}
