//! The audit of a database by the conditions of its own schema.

ghost use Rattle.std.specs.Prelude.{◌≡◌, ◌≢◌, IfOk, IsTrue};
ghost use Rattle.brk_money.specs.declared.fault.Condition.TheVariants.{NotEmpty};
ghost use Rattle.brk_tables_sql.specs.Model.{IsConnectionStep};
ghost use Rattle.brk_store_transactions.specs.Audited.{IsSchemaOfDatabase};
ghost use Rattle.brk_store_transactions.specs.AuditResult.{IsTrueAuditResult};
ghost use Rattle.brk_store_transactions.specs.declared.examining.AuditResult.TheVariants as audit_result;
ghost use Rattle.brk_tables_scan.specs.Schemas.{TablesWithDeskNamesAreDeskTables};

use crate::auditing::audit_rows_of_schema;
use brk_money::{CallFault, Condition, StoreFailed};
use brk_tables_scan::database_has_schema;
use brk_trade_rows::Schema;
use sqlite::{Alter, Transaction};
use std::alloc::Global;

/// The result of an audit of a database by the conditions of the schema that it has.
#[derive(Clone, Copy)]
pub enum AuditResult {
    /// The database has this schema, and its rows pass the audit by the conditions of the schema.
    Passes(Schema),
    /// The first condition that the database fails.
    Fails(Condition),
}

fn schema_of_database<S: Alter>(tx: &mut Transaction<'_, S>) -> Result<Option<Schema>, StoreFailed>
    ensures same_reference { tx.new.conn.ghost_name ≡ tx.old.conn.ghost_name }
    ensures step { IsConnectionStep S.Store tx.old tx.new result (λ found a b. IsTrue a.is_open × (b.now ≡ a.now)
        × (TablesWithDeskNamesAreDeskTables a.now → IsSchemaOfDatabase found a.now)) }
{
    if database_has_schema(tx, Schema::Third)? {
        return Ok(Some(Schema::Third));
    }
    if database_has_schema(tx, Schema::Second)? {
        return Ok(Some(Schema::Second));
    }
    if database_has_schema(tx, Schema::First)? {
        return Ok(Some(Schema::First));
    }
    Ok(None)
}

/// Audits the rows by the conditions of the schema that the database has. Returns `Fails` with
/// `Schema` if it has none of the three.
pub(crate) fn audit_by_database_schema<S: Alter>(
    tx: &mut Transaction<'_, S>,
    alloc: Global,
) -> Result<AuditResult, CallFault>
    ensures same_reference { tx.new.conn.ghost_name ≡ tx.old.conn.ghost_name }
    ensures step { IsConnectionStep S.Store tx.old tx.new result (λ examined a b. IsTrue a.is_open × (b.now ≡ a.now)
        × (TablesWithDeskNamesAreDeskTables a.now → IsTrueAuditResult examined a.now)) }
    ensures condition { IfOk result (λ examined. examined ≢ audit_result.Fails NotEmpty) }
{
    let Some(schema) = schema_of_database(tx)? else {
        return Ok(AuditResult::Fails(Condition::Schema));
    };
    match audit_rows_of_schema(tx, alloc, schema)? {
        None => Ok(AuditResult::Passes(schema)),
        Some(condition) => Ok(AuditResult::Fails(condition)),
    }
}
