//! The checks of the rows of a table, one by one, whatever the table.

ghost use Rattle.std.specs.Prelude.{◌≡◌, Bool};
ghost use Rattle.std.specs.List.{list_all};
ghost use Rattle.brk_model.specs.Schemas as schemas;
ghost use Rattle.brk_model.specs.Tables.{Tables};
ghost use Rattle.brk_trade_rows.specs.Schemas.{abstract_schema};
ghost use Rattle.brk_trade_rows.specs.Sheets.{abstract_sheets};
ghost use Rattle.brk_audit_form.specs.Conditions.{HasSortedKeys};

use brk_trade_rows::{Schema, Sheets};

/// A row of a table whose columns the condition `Form` checks.
pub(crate) trait Formed {
    /// True if a row passes the checks of its table in `Form`, by the schema and the tables.
    ghost form: { schemas.Schema → Tables → Self → Bool };

    fn is_valid_row(&self, schema: Schema, sheets: &Sheets) -> bool
        requires { HasSortedKeys sheets.now }
        ensures { result ≡ form (abstract_schema schema) (abstract_sheets sheets.now) self.now };
}

pub(crate) fn are_valid_rows<R: Formed>(schema: Schema, sheets: &Sheets, rows: &[R]) -> bool
    requires { HasSortedKeys sheets.now }
    ensures { result ≡ list_all (R.form (abstract_schema schema) (abstract_sheets sheets.now)) rows.now }
{
    rows.iter().all(|row| row.is_valid_row(schema, sheets))
}
