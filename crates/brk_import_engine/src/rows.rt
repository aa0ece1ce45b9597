//! The desk of a batch as a trait: it parses rows, executes them under their keys, and formats
//! replies.

ghost use Rattle.std.specs.Prelude.{◌≡◌, Bool, Err, IfErr, IfOk, OnErr, string_bytes};
ghost use Rattle.brk_money.specs.declared.fault.Fault.TheVariants.{Memory};
ghost use Rattle.brk_model.specs.Answers.{Fields, RowStep};
ghost use Rattle.brk_model.specs.Commands.{Reply};
ghost use Rattle.brk_model.specs.Forms.{ReadResult};
ghost use Rattle.brk_model.specs.Rows.{line_text};
ghost use Rattle.brk_model.specs.Run.{IsCallFault};
ghost use Rattle.brk_ref.specs.Answers.{abstract_answer, abstract_command_outcome};
ghost use Rattle.brk_ref.specs.Fields.{ParsesAs, texts_of_fields};
ghost use Rattle.brk_ref.specs.Records.{abstract_key};
ghost use Rattle.brk_import_engine.specs.Answers.{CallRefinesStep, PreservesRepresentedBases, IsFailedCallCrashSafe, RepresentsDurably};
ghost use Rattle.brk_import_engine.specs.Script.{RowCallRelation};

use brk_money::{Fault, Planned, Stamp};
use brk_ref::{Answer, Key};
use std::alloc::{AllocError, Global};

/// The operations of a desk that executes the rows of a batch.
pub trait Rows {
    /// The desk that executes the rows.
    type Desk;

    /// A command: a well-formed row.
    type Command: Drop;

    /// The reply to a row that was accepted.
    type Reply: Drop;

    /// The type of the bases that the desk represents.
    ghost Base: { Type 0 };

    /// The type of the model's commands.
    ghost Asked: { Type 0 };

    /// Holds if the desk satisfies the disk assumption: every read so far returned what was
    /// written.
    ghost meets_disk_assumption: { Self.Desk → Type 0 };

    /// Holds if the desk represents this base.
    ghost represents: { Self.Desk → Base → Type 0 };

    /// Holds if a crash exposes one of these two bases and no other.
    ghost crash_exposes_only: { Self.Desk → Base → Base → Type 0 };

    /// Holds if a call at this timestamp, with a command under its key, may turn the first desk
    /// into the second, with this outcome.
    ghost acts: { RowCallRelation Self.Desk Asked };

    /// The model's command that a command represents.
    ghost asked: { Self.Command → Asked };

    /// The model's reply that a reply represents.
    ghost told: { Self.Reply → Reply };

    /// The model's command of the fields of a row, or the refusal of a malformed row.
    ghost form: { Fields → ReadResult Asked };

    /// The model's answer to a command under a key at a timestamp, and the base after it.
    ghost step: { RowStep Base Asked };

    /// Parses the fields of a row: a command, or the refusal of a malformed row.
    fn parse(alloc: Global, row: &[&[u8]]) -> Planned<Self::Command>
        ensures read { IfOk result (λ read. ParsesAs asked read (form (texts_of_fields row.now))) }
        ensures fault { OnErr result (result ≡ Err Memory) };

    /// Executes a command under its key at the clock reading `now`.
    fn call(
        desk: &mut Self::Desk,
        alloc: Global,
        now: Stamp,
        command: &Self::Command,
        key: &Key,
    ) -> Result<Answer<Self::Reply>, Fault>
        ensures called { acts desk.old now (asked command.now, abstract_key key.now) (abstract_command_outcome told result) desk.new }
        // If the disk assumption holds after the call, it held before.
        ensures earlier { meets_disk_assumption desk.new → meets_disk_assumption desk.old }
        // At `Ok` the call refines `step`. If a crash before the call exposed only the represented
        // base, a crash after it exposes only the base after the step.
        ensures ok { IfOk result (λ answer. (sure : Bool) →
            CallRefinesStep meets_disk_assumption (RepresentsDurably represents crash_exposes_only sure) step desk.old desk.new now
            (asked command.now) (abstract_key key.now) (abstract_answer told answer)) }
        ensures err { OnErr result (PreservesRepresentedBases meets_disk_assumption represents desk.old desk.new) }
        // After a failed call, a crash exposes only the base before or the base after the command.
        ensures stop { OnErr result (IsFailedCallCrashSafe meets_disk_assumption represents crash_exposes_only step desk.old desk.new now
            (asked command.now) (abstract_key key.now)) }
        ensures fault { IfErr result IsCallFault };

    /// Returns the fields of a reply, joined by commas.
    fn reply_line(alloc: Global, reply: &Self::Reply) -> Result<String, AllocError>
        ensures { IfOk result (λ line. string_bytes line ≡ line_text (told reply.now)) };
}
