//! The decoding of the row of SETTLE_RULE, the first day of one-day settlement.

ghost use Rattle.std.specs.Prelude.{◌≡◌, ◌∷◌, [], Err, IfOk, Some, false, map};
ghost use Rattle.brk_tables_schema.specs.Cells.{rule_cells};
ghost use Rattle.brk_tables_schema.specs.Desk.{rule_rows};
ghost use Rattle.brk_tables_schema.specs.Formed.{passes_all_cell_checks, has_at_most_one_valid_rule_row, rule_column_cell_checks};
ghost use Rattle.brk_tables_schema.specs.declared.decode_error.DecodeError.TheVariants.{Form as Formless};

use crate::cells::{check_column_count, day_cell, natural_cell};
use crate::decode_error::DecodeError;
use brk_money::Day;
use sqlite::Row;

fn one_day_start_in_rule_row(row: &Row) -> Result<Day, DecodeError>
    ensures value { IfOk result (λ day. map rule_cells (rule_rows (Some day)) ≡ row.now ∷ []) }
    ensures form { result ≡ Err Formless → passes_all_cell_checks rule_column_cell_checks row.now ≡ false }
{
    check_column_count(row, 2)?;
    if natural_cell(row, 0)? != 1 {
        return Err(DecodeError::Form);
    }
    day_cell(row, 1)
}

/// Decodes the first day of one-day settlement, in days since 1970-01-01, from all rows of
/// SETTLE_RULE, or returns `None` if there is no row. Fails with `Form` also if there are two rows
/// or more, or a row with another id than 1.
pub fn one_day_start_in_rule_rows(rows: &[Row]) -> Result<Option<Day>, DecodeError>
    ensures value { IfOk result (λ day. map rule_cells (rule_rows day) ≡ rows.now) }
    ensures form { result ≡ Err Formless → has_at_most_one_valid_rule_row rows.now ≡ false }
{
    match rows {
        [] => Ok(None),
        [row] => Ok(Some(one_day_start_in_rule_row(row)?)),
        _ => Err(DecodeError::Form),
    }
}
