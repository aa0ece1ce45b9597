//! Theorems about the result of an audit, and about an adopted store. The premise of an adoption is
//! `ConnectionTablesWithDeskNamesAreDeskTables`.

ghost use Rattle.brk_model.specs.Form.{has_utf8_texts};
ghost use Rattle.std.specs.Prelude.{◌≡◌, IsTrue, None, Ok, Option, Result};
ghost use Rattle.sqlite.specs.Effect.{Database};
ghost use Rattle.sqlite.specs.Held.{Held, state};
ghost use Rattle.sqlite.specs.State.{HasCleanDisk};
ghost use Rattle.brk_money.specs.declared.fault.Condition.{Condition};
ghost use Rattle.brk_money.specs.declared.fault.Fault.{Fault};
ghost use Rattle.brk_model.specs.Adopted.{base_of_tables};
ghost use Rattle.brk_model.specs.Audit.{IsAuditResult};
ghost use Rattle.brk_model.specs.Base.{Base};
ghost use Rattle.brk_model.specs.Schemas.{third_schema};
ghost use Rattle.brk_model.specs.Tables.{Tables};
ghost use Rattle.brk_trade_rows.specs.declared.schema.Schema.{Schema};
ghost use Rattle.brk_trade_rows.specs.Schemas.{abstract_schema};
ghost use Rattle.brk_audit_theorems.specs.Passing.{PassesAudit};
ghost use Rattle.brk_store_transactions.specs.Audited.{StoresRowsWithAuditResult, IsDatabaseAuditResult, IsDatabaseAuditResultBySchema, ConnectionHasThirdSchema};
ghost use Rattle.brk_store_transactions.specs.Audited.{Represents, AdoptPost, AuditPost, ConnectionTablesWithDeskNamesAreDeskTables, AuditAnswerSatisfies};
ghost use Rattle.brk_store_transactions.specs.Holds.{HoldsRows};

use sqlite::Alter;

/// An audit of a database has at most one result, by the schema that the database has and by a
/// given one.
pub fn audit_results_are_unique()
    ensures of_database { (db : Database) (a b : Option Condition) → IsDatabaseAuditResult db a → IsDatabaseAuditResult db b → a ≡ b }
    ensures by_schema { (schema : Schema) (db : Database) (a b : Option Condition) → IsDatabaseAuditResultBySchema (abstract_schema schema) db a
        → IsDatabaseAuditResultBySchema (abstract_schema schema) db b → a ≡ b }
{}

/// A store that holds the tables of schema 3 satisfies the premise of an adoption and has schema 3.
pub fn stores_that_hold_tables_have_desk_definitions<S: Alter>()
    ensures defined { (held : Held S) (t : Tables) → HoldsRows S.Store held t → ConnectionTablesWithDeskNamesAreDeskTables S.Store held }
    ensures has_third_schema { (held : Held S) (t : Tables) → HoldsRows S.Store held t → ConnectionHasThirdSchema S.Store held }
{}

/// Under the disk assumption, an audit of a store with UTF-8 texts returns the result for its rows,
/// never `Damaged` if it represents a base.
pub fn audits_return_result_for_stored_rows<S: Alter>()
    ensures rows { (old new : Held S) (result : Result (Unit {0}) Fault) (t : Tables)
        → AuditPost S.Store old new result → HoldsRows S.Store old t → IsTrue (has_utf8_texts t) → HasCleanDisk (state S.Store new)
        → AuditAnswerSatisfies result (IsAuditResult third_schema t) }
    ensures books { (old new : Held S) (result : Result (Unit {0}) Fault) (base : Base)
        → AuditPost S.Store old new result → Represents S.Store old base → HasCleanDisk (state S.Store new)
        → AuditAnswerSatisfies result (λ answer. answer ≡ None) }
{}

/// An adoption of a database with the tables of schema 3 is an audit: it writes nothing.
pub fn adoption_of_third_schema_is_audit<S: Alter>()
    ensures { (old new : Held S) (result : Result (Unit {0}) Fault) (t : Tables)
        → AdoptPost S.Store old new result → HoldsRows S.Store old t → AuditPost S.Store old new result }
{}

/// A store whose rows pass the audit represents their base; one adopted under the premise
/// represents a base, that of its old rows if open.
pub fn adopted_stores_represent_a_base<S: Alter>()
    ensures rows { (store : Held S) (t : Tables) → HoldsRows S.Store store t → PassesAudit third_schema t → IsTrue (has_utf8_texts t)
        → Represents S.Store store (base_of_tables t) }
    ensures adopted { (old new : Held S) → AdoptPost S.Store old new (Ok tt) → ConnectionTablesWithDeskNamesAreDeskTables S.Store old
        → (base : Base) × Represents S.Store new base }
    ensures base_of_old_rows { (old new : Held S) → AdoptPost S.Store old new (Ok tt) → ConnectionTablesWithDeskNamesAreDeskTables S.Store old
        → HasCleanDisk (state S.Store new) → IsTrue (state S.Store new).is_open
        → (schema : Schema) × (rows : Tables) × StoresRowsWithAuditResult (abstract_schema schema) rows (state S.Store old).now None
        × Represents S.Store new (base_of_tables rows) }
{}
