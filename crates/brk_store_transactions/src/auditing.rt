//! The audit of rows by the conditions of a schema, and of a database by those of schema 3;
//! `examining` audits a database by the schema that it has.

ghost use Rattle.std.specs.Prelude.{◌≡◌, ◌≢◌, IfErr, IfOk, IsTrue, Some, false};
ghost use Rattle.brk_money.specs.declared.fault.Condition.TheVariants.{NotEmpty};
ghost use Rattle.brk_money.specs.declared.fault.Fault.TheVariants as fault;
ghost use Rattle.brk_model.specs.Schemas.{third_schema};
ghost use Rattle.brk_trade_rows.specs.Schemas.{abstract_schema};
ghost use Rattle.brk_tables_sql.specs.Model.{IsConnectionStep};
ghost use Rattle.brk_store_transactions.specs.Audited.{IsDatabaseAuditResultBySchema, AuditPost};
ghost use Rattle.brk_tables_scan.specs.Schemas.{DatabaseHasSchema, TablesWithSchemaNamesAreDeskTables};

use crate::beginning::begin_transaction;
use brk_audit::audit_rows;
use brk_money::{CallFault, Condition, Fault};
use brk_tables_scan::{database_has_schema, read_sheets};
use brk_trade_rows::Schema;
use sqlite::{Alter, Connection, Transaction};
use std::alloc::Global;

/// Returns the first condition of `schema` that the rows fail, or `None`; rows that cannot be typed
/// fail `Form`. Specified only if the database has the schema.
pub(crate) fn audit_rows_of_schema<S: Alter>(
    tx: &mut Transaction<'_, S>,
    alloc: Global,
    schema: Schema,
) -> Result<Option<Condition>, CallFault>
    ensures same_reference { tx.new.conn.ghost_name ≡ tx.old.conn.ghost_name }
    ensures step { IsConnectionStep S.Store tx.old tx.new result (λ answer a b. IsTrue a.is_open × (b.now ≡ a.now)
        × (TablesWithSchemaNamesAreDeskTables (abstract_schema schema) a.now → DatabaseHasSchema (abstract_schema schema) a.now
        → IsDatabaseAuditResultBySchema (abstract_schema schema) a.now answer)) }
    ensures condition { IfOk result (λ answer. answer ≢ Some NotEmpty) }
{
    match read_sheets(tx, alloc, schema)? {
        None => Ok(Some(Condition::Form)),
        Some(sheets) => match audit_rows(alloc, &sheets) {
            Ok(answer) => Ok(answer),
            Err(_) => Err(CallFault::Memory),
        },
    }
}

fn audit_by_third_schema<S: Alter>(
    tx: &mut Transaction<'_, S>,
    alloc: Global,
) -> Result<Option<Condition>, CallFault>
    ensures same_reference { tx.new.conn.ghost_name ≡ tx.old.conn.ghost_name }
    ensures step { IsConnectionStep S.Store tx.old tx.new result (λ answer a b. IsTrue a.is_open × (b.now ≡ a.now)
        × (TablesWithSchemaNamesAreDeskTables third_schema a.now → IsDatabaseAuditResultBySchema third_schema a.now answer)) }
    ensures condition { IfOk result (λ answer. answer ≢ Some NotEmpty) }
{
    if !database_has_schema(tx, Schema::Third)? {
        return Ok(Some(Condition::Schema));
    }
    audit_rows_of_schema(tx, alloc, Schema::Third)
}

/// Audits the database by the conditions of schema 3 in a transaction, which ends without a commit.
///
/// Fails with `Damaged` and the first condition that fails, or with `Memory` or `Store`. The result
/// is specified only if the database satisfies `ConnectionTablesWithThirdSchemaNamesAreDeskTables`.
pub fn audit_database<S: Alter>(conn: &mut Connection<S>, alloc: Global) -> Result<(), Fault>
    requires { conn.old.in_transaction ≡ false }
    ensures mode { conn.new.in_transaction ≡ false }
    ensures audited { AuditPost S.Store conn.old conn.new result }
    ensures condition { IfErr result (λ f. f ≢ fault.Damaged NotEmpty) }
{
    let mut tx = begin_transaction(conn);
    match audit_by_third_schema(&mut tx, alloc)? {
        None => Ok(()),
        Some(condition) => Err(Fault::Damaged(condition)),
    }
}
