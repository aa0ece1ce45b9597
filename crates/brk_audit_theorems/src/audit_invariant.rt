//! Theorems: the audit invariant and the books invariant make the tables of a base pass the audit
//! of schema 3, and commands preserve the audit invariant. A command is in the audit's formats if
//! its fields are (`MeetsAuditFormats`), a call if its command and its key are
//! (`CallMeetsAuditFormats`).

ghost use Rattle.std.specs.Prelude.{◌≡◌, ◌≤◌, ◌↔◌, ℕ, IfOk, IfSome, IsTrue, List, Ok, Option, length};
ghost use Rattle.brk_money.specs.Spelling.{Text};
ghost use Rattle.std.specs.List.{AllByRecursion};
ghost use Rattle.brk_model.specs.Answers.{RowsAreAnswered, Fields};
ghost use Rattle.brk_model.specs.Batch.{step_of_row};
ghost use Rattle.brk_model.specs.Formed.{IsWellFormedCommand};
ghost use Rattle.brk_model.specs.Forms.{is_batch_name};
ghost use Rattle.brk_model.specs.Limits.{greatest_id};
ghost use Rattle.brk_model.specs.Parse.{parse_row};
ghost use Rattle.brk_model.specs.Adopted.{base_of_tables};
ghost use Rattle.brk_model.specs.Base.{Base, empty_base};
ghost use Rattle.brk_model.specs.Commands.{Answer, Command, Reply};
ghost use Rattle.brk_model.specs.Form.{satisfies_form_condition};
ghost use Rattle.brk_model.specs.Keyed.{keyed_step};
ghost use Rattle.brk_model.specs.Records.{Key};
ghost use Rattle.brk_model.specs.Run.{Call, Outcome, Run};
ghost use Rattle.brk_model.specs.Schemas.{third_schema};
ghost use Rattle.brk_model.specs.Sheets.{sheets};
ghost use Rattle.brk_model.specs.Step.{step};
ghost use Rattle.brk_model.specs.Tables.{Tables};
ghost use Rattle.brk_trade_books.specs.Books.{BooksInvariant};
ghost use Rattle.brk_audit_theorems.specs.Passing.{PassesAudit};
ghost use Rattle.brk_audit_theorems.specs.Histories.{HasValidHistories};
ghost use Rattle.brk_audit_theorems.specs.InForm.{MeetsAuditFormats, IsWellFormedKey};
ghost use Rattle.brk_audit_theorems.specs.Runs.{CallMeetsAuditFormats, IsWellFormedCall};
ghost use Rattle.brk_audit_theorems.specs.Sound.{AuditInvariant};

/// Under the books invariant, the audit invariant means valid histories and tables in `Form`, and
/// these tables pass the audit.
pub fn audit_invariant_makes_tables_pass_audit()
    ensures form { (base : Base) → BooksInvariant base → AuditInvariant base → IsTrue (satisfies_form_condition third_schema (sheets base)) }
    ensures histories { (base : Base) → AuditInvariant base → HasValidHistories base }
    ensures passes { (base : Base) → BooksInvariant base → AuditInvariant base → PassesAudit third_schema (sheets base) }
    ensures exact { (base : Base) → BooksInvariant base
        → AuditInvariant base ↔ (HasValidHistories base × IsTrue (satisfies_form_condition third_schema (sheets base))) }
{}

/// The base of rows that pass the audit satisfies the audit invariant.
pub fn passing_rows_satisfy_audit_invariant()
    ensures { (rows : Tables) → PassesAudit third_schema rows → AuditInvariant (base_of_tables rows) }
{}

/// The empty base satisfies the audit invariant.
pub fn empty_base_satisfies_audit_invariant()
    ensures { AuditInvariant empty_base }
{}

/// Under the books invariant, commands in the audit's formats preserve the audit invariant, and so
/// do their calls with a well-formed key or none.
pub fn commands_preserve_audit_invariant()
    ensures step { (base : Base) (now : ℕ) (command : Command) (reply : Reply) (after : Base)
        → AuditInvariant base → BooksInvariant base → MeetsAuditFormats command → step base now command ≡ Ok (reply, after) → AuditInvariant after }
    ensures keyed { (base : Base) (now : ℕ) (command : Command) (key : Option Key)
        → AuditInvariant base → BooksInvariant base → MeetsAuditFormats command → IfSome key IsWellFormedKey
        → AuditInvariant (keyed_step base now command key).1 }
{}

/// Tables after a run of calls in the audit's formats, from the empty base or passing rows, pass
/// the audit.
pub fn tables_after_runs_pass_the_audit()
    ensures preserved { (base : Base) (calls : List (ℕ × Call)) (outcomes : List Outcome) (after : Base)
        → BooksInvariant base → AuditInvariant base → AllByRecursion CallMeetsAuditFormats calls → Run base calls outcomes after → AuditInvariant after }
    ensures first { (calls : List (ℕ × Call)) (outcomes : List Outcome) (after : Base)
        → AllByRecursion CallMeetsAuditFormats calls → Run empty_base calls outcomes after → PassesAudit third_schema (sheets after) }
    ensures adopted { (rows : Tables) (calls : List (ℕ × Call)) (outcomes : List Outcome) (after : Base)
        → PassesAudit third_schema rows → AllByRecursion CallMeetsAuditFormats calls → Run (base_of_tables rows) calls outcomes after
        → PassesAudit third_schema (sheets after) }
    ensures formed { (calls : List (ℕ × Call)) (outcomes : List Outcome) (after : Base)
        → AllByRecursion IsWellFormedCall calls → Run empty_base calls outcomes after → PassesAudit third_schema (sheets after) }
{}

/// A command parsed from a row meets the audit's formats, and so does any well-formed command.
pub fn parsed_rows_meet_audit_formats()
    ensures read { (fields : List Text) → IfOk (parse_row fields) MeetsAuditFormats }
    ensures formed { (command : Command) → IsWellFormedCommand command → MeetsAuditFormats command }
{}

/// A batch with a well-formed name and at most `Id::GREATEST` rows preserves both invariants.
pub fn batches_preserve_books_and_audit_invariants()
    ensures { (base : Base) (name : Text) (moments : List ℕ) (rows : List Fields) (answers : List Answer) (after : Base)
        → IsTrue (is_batch_name name) → length rows ≤ greatest_id → RowsAreAnswered parse_row step_of_row name base moments rows answers after
        → BooksInvariant base × AuditInvariant base → BooksInvariant after × AuditInvariant after }
{}
