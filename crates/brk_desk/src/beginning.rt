//! Theorems: the base that a store represents after its creation, after its adoption, and after a
//! crash.

ghost use Rattle.brk_model.specs.Form.{has_utf8_texts};
ghost use Rattle.std.specs.Prelude.{ℕ, IsTrue, List};
ghost use Rattle.std.specs.List.{AllByRecursion};
ghost use Rattle.sqlite.specs.Held.{Held};
ghost use Rattle.sqlite_trees.specs.Tree.{Trees};
ghost use Rattle.brk_audit_theorems.specs.Passing.{PassesAudit};
ghost use Rattle.brk_store_transactions.specs.Audited.{Represents};
ghost use Rattle.brk_desk.specs.CrashBases.{CrashMayExposeBase};
ghost use Rattle.brk_model.specs.Adopted.{base_of_tables};
ghost use Rattle.brk_model.specs.Base.{Base, empty_base};
ghost use Rattle.brk_model.specs.Upgraded.{tables_upgraded_from_schema};
ghost use Rattle.brk_model.specs.Run.{Call, Outcome};
ghost use Rattle.brk_model.specs.Schemas.{third_schema};
ghost use Rattle.brk_model.specs.Sheets.{sheets};
ghost use Rattle.brk_model.specs.Tables.{Tables, tables_without_rows};
ghost use Rattle.brk_audit_theorems.specs.Runs.{CallMeetsAuditFormats};
ghost use Rattle.brk_audit_theorems.specs.Sound.{AuditInvariant};
ghost use Rattle.brk_store_transactions.specs.Holds.{IsDiskContentOfRows, HoldsRows, IsConnectionToDiskContent};
ghost use Rattle.brk_trade_books.specs.Books.{BooksInvariant};
ghost use Rattle.brk_trade_rows.specs.Schemas.{abstract_schema};
ghost use Rattle.brk_trade_rows.specs.declared.schema.Schema.{Schema};

use sqlite::Alter;

/// Proves that a store that holds tables without rows, for example a newly created one, represents
/// the empty base.
pub fn empty_stores_represent_the_empty_base<S: Alter>()
    ensures { (store : Held S) → HoldsRows S.Store store tables_without_rows → Represents S.Store store empty_base }
{}

/// Proves that a store represents the base of its rows, if these pass their audit and are UTF-8,
/// also after an upgrade from any schema (`upgraded`).
pub fn store_represents_base_of_audited_rows<S: Alter>()
    ensures rows { (store : Held S) (rows : Tables) → HoldsRows S.Store store rows → IsTrue (has_utf8_texts rows) → PassesAudit third_schema rows
        → Represents S.Store store (base_of_tables rows) }
    ensures upgraded { (store : Held S) (schema : Schema) (rows : Tables) → HoldsRows S.Store store (tables_upgraded_from_schema (abstract_schema schema) rows)
        → IsTrue (has_utf8_texts rows)
        → PassesAudit (abstract_schema schema) rows → Represents S.Store store (base_of_tables rows) }
{}

/// Proves that a reopened store represents the base that a crash exposed, if the invariants held
/// before the run and its texts and calls are well-formed.
pub fn reopened_store_represents_exposed_base<S: Alter>()
    ensures { (base : Base) (calls : List (ℕ × Call)) (outcomes : List Outcome) (after : Base) (trees : Trees) (conn : Held S) → BooksInvariant base
        → AuditInvariant base
        → AllByRecursion CallMeetsAuditFormats calls → CrashMayExposeBase base calls outcomes after → IsTrue (has_utf8_texts (sheets after))
        → IsDiskContentOfRows (sheets after) trees → IsConnectionToDiskContent S.Store trees conn → Represents S.Store conn after }
{}
