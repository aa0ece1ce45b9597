//! Theorem: a batch that was interrupted can be retried. It is under the disk assumption and for a
//! reader with specified content.

ghost use Rattle.std.specs.Prelude.{◌≡◌, ℕ, List, None, Ok, Result, Some};
ghost use Rattle.brk_desk.specs.Reopening.{IsNewConnectionAfterCrash, RepresentsDurableBase};
ghost use Rattle.brk_import_engine.specs.Batch.{BatchRefinesModel, IsBatchCrashSafe};
ghost use Rattle.brk_import.specs.CrashTables.{CrashExposesOnlyOneOf};
ghost use Rattle.brk_import.specs.Retries.{RunAndRetryEqualOneRun, RetryCompletesBatch};
ghost use Rattle.brk_io.specs.declared.batch_fault.BatchFault as faults;
ghost use Rattle.brk_import_engine.specs.declared.counts.Counts as counted;
ghost use Rattle.brk_model.specs.Base.{Base};
ghost use Rattle.brk_model.specs.Batch.{step_of_row};
ghost use Rattle.brk_model.specs.Input.{input_text};
ghost use Rattle.brk_model.specs.Parse.{parse_by_first_field, row_parsers};
ghost use Rattle.brk_money.specs.declared.fault.Fault as money;
ghost use Rattle.brk_io.specs.Span.{ClockAndWriterChange};
ghost use Rattle.brk_store_transactions.specs.Audited.{AdoptPost, AuditAnswerSatisfies, Represents};
ghost use Rattle.sqlite.specs.Held.{Held, state};
ghost use Rattle.sqlite.specs.State.{HasCleanDisk};

use brk_io::Clock;
use sqlite::Alter;

/// Proves that a crash state of a batch is adopted without damage, and that the batch and a
/// completed retry are equivalent to one run.
pub fn an_interrupted_batch_can_be_retried<S: Alter, C: Clock>()
    // The one run has first the rows that the first run accepted, then the rows of the retry that
    // were not stored by then (`RunAndRetryEqualOneRun`). If the first run refused none of the rows
    // that it answered, it is one uninterrupted run of the batch (`RetryCompletesBatch`). Both also
    // cover a row that was committed but not answered.
    ensures { (input : List ℕ) (base : Base) (first left conn store last : Held S) (one two : ClockAndWriterChange C)
        (ended : Result counted.Counts faults.BatchFault)
        (taken : Result (Unit {0}) money.Fault) (counts : counted.Counts) → RepresentsDurableBase S.Store first base
        → IsBatchCrashSafe (λ desk. HasCleanDisk (state S.Store desk)) (λ desk. Represents S.Store desk)
        (CrashExposesOnlyOneOf S.Store) (parse_by_first_field row_parsers) step_of_row
        C.gives (Some (input_text input)) first left one ended
        → HasCleanDisk (state S.Store left) → IsNewConnectionAfterCrash S.Store left conn → AdoptPost S.Store conn store taken
        → HasCleanDisk (state S.Store store)
        → AuditAnswerSatisfies taken (λ failing. failing ≡ None)
        × (BatchRefinesModel (λ desk. HasCleanDisk (state S.Store desk)) (λ desk. Represents S.Store desk) (parse_by_first_field row_parsers) step_of_row
        C.gives (Some (input_text input)) store last two (Ok counts) → HasCleanDisk (state S.Store last)
        → (after : Base) × Represents S.Store last after
        × RetryCompletesBatch (parse_by_first_field row_parsers) C.gives (Some (input_text input)) base after one two
        × RunAndRetryEqualOneRun (parse_by_first_field row_parsers) C.gives (Some (input_text input)) base after one two) }
{}
