//! The row of SETTLE_RULE: the first day of one-day settlement.

ghost use Rattle.std.specs.Prelude.{◌≡◌, IfOk, map};
ghost use Rattle.brk_trade_rows.specs.Changes.{tables_with_one_day_settlement_start};
ghost use Rattle.brk_tables_schema.specs.Cells.{rule_cells};
ghost use Rattle.brk_tables_schema.specs.Desk.{rule_rows};
ghost use Rattle.brk_tables_schema.specs.Statements.{ReadsDeskTables, WritesDeskTables};

use brk_money::{Day, StoreFailed};
use brk_tables_schema::calls::{execute_statement, select_rows};
use brk_tables_schema::rule_row::one_day_start_in_rule_rows;
use brk_tables_schema::values::{day_param, integer_param};
use sqlite::{Alter, Row, Transaction};

/// Inserts the first day of one-day settlement (SR_DAY), in days since 1970-01-01. Fails also if
/// one is set.
pub fn set_one_day_start<S: Alter>(tx: &mut Transaction<'_, S>, day: Day) -> Result<(), StoreFailed>
    ensures same_reference { tx.new.conn.ghost_name ≡ tx.old.conn.ghost_name }
    ensures step { WritesDeskTables S.Store tx.old tx.new result (tables_with_one_day_settlement_start day) }
{
    execute_statement(
        tx,
        "INSERT INTO SETTLE_RULE (SR_ID, SR_DAY) VALUES (?1, ?2)",
        &[integer_param(1), day_param(day)],
    )
}

// Decodes like `one_day_start_in_rule_rows`, for a caller that returns `StoreFailed`.
fn one_day_start_in_rows(rows: &[Row]) -> Result<Option<Day>, StoreFailed>
    ensures value { IfOk result (λ day. map rule_cells (rule_rows day) ≡ rows.now) }
{
    Ok(one_day_start_in_rule_rows(rows)?)
}

/// Returns the first day of one-day settlement (SR_DAY), in days since 1970-01-01, or `None` if
/// none is set. Fails also if SETTLE_RULE has two rows or more, or a row with another id than 1.
pub fn one_day_start<S: Alter>(tx: &mut Transaction<'_, S>) -> Result<Option<Day>, StoreFailed>
    ensures same_reference { tx.new.conn.ghost_name ≡ tx.old.conn.ghost_name }
    ensures step { ReadsDeskTables S.Store tx.old tx.new result (λ day t. day ≡ t.rule) }
{
    let rows = select_rows(
        tx,
        "SELECT SR_ID, SR_DAY FROM SETTLE_RULE ORDER BY SR_ID",
        &[],
    )?;
    one_day_start_in_rows(&rows)
}
