//! Theorem: the adoption of a crash state of a store that represented a base does not fail with
//! `Damaged`. All clauses are under the disk assumption and on a crash after a call has returned.

ghost use Rattle.std.specs.Prelude.{◌≡◌, ◌⊎◌, ℕ, List, None, Ok, Option, Result, map};
ghost use Rattle.sqlite.specs.Held.{Held, state};
ghost use Rattle.sqlite.specs.State.{HasCleanDisk};
ghost use Rattle.sqlite_trees.specs.Tree.{Trees};
ghost use Rattle.brk_money.specs.declared.fault.Fault as faults;
ghost use Rattle.brk_desk.specs.Answers.{model_outcome};
ghost use Rattle.brk_desk.specs.Commands.{model_call};
ghost use Rattle.brk_desk.specs.Booked.{CommandPost, base_after_keyed_command};
ghost use Rattle.brk_desk.specs.CallPosts.{RunPost};
ghost use Rattle.brk_desk.specs.Reopening.{RepresentsAuditedRowsDurably, IsNewConnectionToDiskContent, AdoptsBaseWithoutDamage};
ghost use Rattle.brk_desk.specs.Reopening.{IsNewConnectionAfterCrash, FindsBaseWithoutDamage, RepresentsDurableBase};
ghost use Rattle.brk_desk.specs.CrashBases.{CrashMayExposeBase};
ghost use Rattle.brk_desk.specs.CommandAnswers.{CommandAnswer};
ghost use Rattle.brk_desk.specs.declared.call.Call as desk_call;
ghost use Rattle.brk_desk.specs.declared.call.Outcome as desk_outcome;
ghost use Rattle.brk_model.specs.Adopted.{base_of_tables};
ghost use Rattle.brk_model.specs.Base.{Base, empty_base};
ghost use Rattle.brk_model.specs.Commands.{Command};
ghost use Rattle.brk_model.specs.Records.{Key};
ghost use Rattle.brk_model.specs.Tables.{Tables};
ghost use Rattle.brk_trade_rows.specs.Schemas.{abstract_schema};
ghost use Rattle.brk_trade_rows.specs.declared.schema.Schema.{Schema};
ghost use Rattle.brk_store_transactions.specs.Audited.{StoresRowsWithAuditResult, AdoptPost, ConnectionTablesWithDeskNamesAreDeskTables};
ghost use Rattle.brk_store_transactions.specs.Holds.{CreatePost};

use sqlite::Alter;

/// Proves that the adoption of a crash state reports no damage, if a crash before could expose only
/// a base's tables or rows that pass their audit.
pub fn recovery_never_reports_damage<S: Alter>()
    // After the creation of the tables, the store represents the empty base, and a crash exposes
    // only its tables.
    ensures created { (conn store : Held S) → CreatePost S.Store conn store (Ok tt) → HasCleanDisk (state S.Store store)
        → RepresentsDurableBase S.Store store empty_base }
    // After the adoption of a newly opened database that satisfies
    // `ConnectionTablesWithDeskNamesAreDeskTables`, the store represents the base that its rows
    // determine, and a crash exposes only the tables of this base.
    ensures adopted { (trees : Trees) (conn store : Held S) → IsNewConnectionToDiskContent S.Store trees conn
        → ConnectionTablesWithDeskNamesAreDeskTables S.Store conn → AdoptPost S.Store conn store (Ok tt)
        → HasCleanDisk (state S.Store store) → RepresentsAuditedRowsDurably S.Store conn store }
    // After a crash that follows an adoption, failed or not, of a newly opened database whose rows
    // pass the audit of their schema, perhaps an older one, a later adoption does not fail with
    // `Damaged`. If it succeeds, the store represents the base that these rows determine.
    ensures crash_after_adoption { (trees : Trees) (before at_crash reopened adopted : Held S)
        (first_result result : Result (Unit {0}) faults.Fault) (schema : Schema) (rows : Tables)
        → IsNewConnectionToDiskContent S.Store trees before → StoresRowsWithAuditResult (abstract_schema schema) rows (state S.Store before).now None
        → AdoptPost S.Store before at_crash first_result → HasCleanDisk (state S.Store at_crash)
        → IsNewConnectionAfterCrash S.Store at_crash reopened → AdoptPost S.Store reopened adopted result → HasCleanDisk (state S.Store adopted)
        → AdoptsBaseWithoutDamage S.Store adopted result (base_of_tables rows) }
    // After a crash after `Store::create`, failed or not, the adopted store represents the empty
    // base. Nothing is specified for a state that a crash before the creation could expose.
    ensures crash_after_creation { (before at_crash reopened adopted : Held S) (created result : Result (Unit {0}) faults.Fault) (trees : Trees)
        → CreatePost S.Store before at_crash created
        → HasCleanDisk (state S.Store at_crash) → (state S.Store at_crash).may_leave trees → IsNewConnectionToDiskContent S.Store trees reopened
        → AdoptPost S.Store reopened adopted result
        → HasCleanDisk (state S.Store adopted)
        → (state S.Store before).may_leave trees ⊎ FindsBaseWithoutDamage S.Store adopted result (λ base. base ≡ empty_base) }
    // Suppose that a store represents a base and that a crash exposes only the tables of this base
    // (`RepresentsDurableBase`), as after a creation or an adoption. After a crash that follows a
    // command on this store, the adopted store represents the base before the command or the base
    // after it. The clause does not say which; after `Done` a crash exposes only the latter's rows
    // (`durable` of `CommandPost`). A crash of the adopted store exposes only the tables of the
    // base that it represents, so this clause and the next one apply again after each further
    // crash.
    ensures crash_after_call { (before at_crash reopened adopted : Held S) (base : Base) (result : Result (Unit {0}) faults.Fault)
        (now : ℕ) (command : Command) (key : Option Key)
        (answer : Result CommandAnswer faults.Fault) → RepresentsDurableBase S.Store before base → CommandPost S.Store before at_crash now command key answer
        → HasCleanDisk (state S.Store at_crash)
        → IsNewConnectionAfterCrash S.Store at_crash reopened → AdoptPost S.Store reopened adopted result → HasCleanDisk (state S.Store adopted)
        → FindsBaseWithoutDamage S.Store adopted result (λ found. (found ≡ base) ⊎ (found ≡ base_after_keyed_command base now command key)) }
    // For a store as in `crash_after_call`, after a crash that follows a run, the adopted store
    // represents the base with every acknowledged command, or with one command more
    // (`CrashMayExposeBase`).
    ensures crash_after_run { (before at_crash reopened adopted : Held S) (base : Base) (result : Result (Unit {0}) faults.Fault) (calls : List (ℕ
        × desk_call.Call)) (outcomes : List desk_outcome.Outcome)
        → RepresentsDurableBase S.Store before base → RunPost S.Store before at_crash calls outcomes → HasCleanDisk (state S.Store at_crash)
        → IsNewConnectionAfterCrash S.Store at_crash reopened
        → AdoptPost S.Store reopened adopted result → HasCleanDisk (state S.Store adopted)
        → FindsBaseWithoutDamage S.Store adopted result (CrashMayExposeBase base (map model_call calls) (map model_outcome outcomes)) }
{}
