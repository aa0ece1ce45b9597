//! The tables of a program as lists of records, in a database that may contain other tables.
//!
//! Each function that takes a transaction is called while the transaction is open. No clause states
//! the effect of the call on the database, or the value that it returns, outside a transaction or
//! if the disk assumption (every read so far returned what was written) fails.
#![tactic(auto)]

mod columns;

ghost use Rattle.std.specs.Prelude.{◌≡◌, IsTrue};
ghost use Rattle.brk_tables_sql.specs.Model.{IsConnectionStep};
ghost use Rattle.brk_tables_sql.specs.Desk.{IsCompilationOutcome};

pub use columns::statement_has_columns;
use sqlite::{Alter, Error, Transaction};
use sqlite_resolve::error::CompileError;

/// Returns true if the statement compiles, and false if a table that it names does not exist. Any
/// other error of the compilation is returned. The statement is not executed.
pub fn statement_compiles<S: Alter>(tx: &mut Transaction<'_, S>, text: &str) -> Result<bool, Error>
    ensures same_reference { tx.new.conn.ghost_name ≡ tx.old.conn.ghost_name }
    ensures step { IsConnectionStep S.Store tx.old tx.new result (λ has old new. IsTrue old.is_open × (new.now ≡ old.now)
        × IsCompilationOutcome text.now has old.now.schema) }
{
    match tx.prepare(text) {
        Ok(_) => Ok(true),
        Err(Error::SqlInputError(CompileError::NoSuchTable)) => Ok(false),
        Err(e) => Err(e),
    }
}
