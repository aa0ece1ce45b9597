//! The audit of a database by its own schema and, if that is older, its upgrade to schema 3.

ghost use Rattle.std.specs.Prelude.{◌≡◌, ◌≢◌, Err, IfErr, IfOk, MatchResult, Ok, false};
ghost use Rattle.sqlite.specs.Held.{state};
ghost use Rattle.sqlite.specs.State.{HasCleanDisk};
ghost use Rattle.brk_money.specs.declared.fault.Condition.TheVariants.{NotEmpty};
ghost use Rattle.brk_money.specs.declared.fault.Fault.TheVariants as fault;
ghost use Rattle.brk_store_transactions.specs.Audited.{AdoptPost, ConnectionHasThirdSchema, ConnectionTablesWithDeskNamesAreDeskTables};

use crate::beginning::begin_transaction;
use crate::examining::{AuditResult, audit_by_database_schema};
use crate::openness::require_open;
use brk_money::Fault;
use brk_tables::upgrade_tables;
use sqlite::{Alter, Connection};
use std::alloc::Global;

/// Audits the database by the conditions of its own schema. If its rows pass and the schema is
/// older than 3, upgrades the tables in the same transaction and commits it. Returns whether it
/// upgraded them.
///
/// Fails with `Damaged` and the first condition that fails, or with `Memory` or `Store`; a database
/// that is still open is then unchanged. After `Ok` the database is open. A crash after an upgrade
/// exposes the upgraded tables. The result is specified only if the database satisfies
/// `ConnectionTablesWithDeskNamesAreDeskTables`.
pub fn audit_and_upgrade_database<S: Alter>(
    conn: &mut Connection<S>,
    alloc: Global,
) -> Result<bool, Fault>
    requires { conn.old.in_transaction ≡ false }
    ensures mode { conn.new.in_transaction ≡ false }
    ensures adopted { MatchResult result (λ _. AdoptPost S.Store conn.old conn.new (Ok tt)) (λ fault. AdoptPost S.Store conn.old conn.new (Err fault)) }
    ensures not_upgraded { IfOk result (λ is_upgraded. is_upgraded ≡ false → HasCleanDisk (state S.Store conn.new)
        → ConnectionTablesWithDeskNamesAreDeskTables S.Store conn.old → ConnectionHasThirdSchema S.Store conn.old) }
    ensures condition { IfErr result (λ f. f ≢ fault.Damaged NotEmpty) }
{
    {
        let mut tx = begin_transaction(conn);
        let schema = match audit_by_database_schema(&mut tx, alloc)? {
            AuditResult::Fails(condition) => return Err(Fault::Damaged(condition)),
            AuditResult::Passes(schema) => schema,
        };
        if !schema.has_settle_rule_table() {
            upgrade_tables(&mut tx, alloc, schema)?;
            return match tx.commit() {
                Ok(()) => Ok(true),
                Err(_) => Err(Fault::Store),
            };
        }
    }
    // A database of schema 3 needs no upgrade.
    require_open(conn)?;
    Ok(false)
}
