//! The column names of a statement's result.

ghost use Rattle.std.specs.Prelude.{◌≡◌, ◌↔◌, ℕ, List, IsTrue, map};
ghost use Rattle.std.specs.Borrow.{Bor};
ghost use Rattle.brk_tables_sql.specs.Desk.{IsResultColumnCheckOutcome};
ghost use Rattle.brk_tables_sql.specs.Model.{IsConnectionStep};

use sqlite::{Alter, Error, Transaction};
use sqlite_value::value::Bytes;

fn columns_have_names(columns: &[Bytes], names: &[&str]) -> bool
    ensures { IsTrue result ↔ columns.now ≡ map (λ (name : Bor (List ℕ)). name.now) names.now }
{
    if columns.len() != names.len() {
        return false;
    }
    for (column, name) in columns.iter().zip(names) {
        if column.as_slice() != name.as_bytes() {
            return false;
        }
    }
    true
}

/// Returns true if the columns of the statement's result have exactly the names `names`, in order.
/// Compiles the statement without executing it.
pub fn statement_has_columns<S: Alter>(
    tx: &mut Transaction<'_, S>,
    text: &str,
    names: &[&str],
) -> Result<bool, Error>
    ensures same_reference { tx.new.conn.ghost_name ≡ tx.old.conn.ghost_name }
    ensures step { IsConnectionStep S.Store tx.old tx.new result (λ has old new. IsTrue old.is_open × (new.now ≡ old.now)
        × IsResultColumnCheckOutcome text.now (map (λ (name : Bor (List ℕ)). name.now) names.now) has old.now.schema) }
{
    let statement = tx.prepare(text)?;
    Ok(columns_have_names(statement.column_names(), names))
}
