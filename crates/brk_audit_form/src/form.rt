//! The condition `Form`, as one check after another.

ghost use Rattle.std.specs.Prelude.{◌≡◌, ◌↔◌, true, IfOk, IsTrue};
ghost use Rattle.brk_money.specs.declared.fault.Condition.TheVariants.{Form};
ghost use Rattle.brk_model.specs.Audit.{ConditionHolds};
ghost use Rattle.brk_model.specs.Form.{is_last_stamp_in_calendar, is_one_day_settlement_start_in_calendar, has_rows_only_in_tables_of_schema};
ghost use Rattle.brk_trade_rows.specs.Schemas.{abstract_schema};
ghost use Rattle.brk_trade_rows.specs.Sheets.{abstract_sheets};
ghost use Rattle.brk_audit_form.specs.Groups.{passes_nonallocating_form_checks};

use crate::bands::are_disjoint;
use crate::cash_forms::{are_valid_cash_rows, are_valid_old_cash_rows};
use crate::cash_trades::have_distinct_trades;
use crate::customer_limits::are_within_customer_limits;
use crate::numbers::{are_numbered, is_within_movement_limit};
use crate::tables::{are_reference_rows_valid, are_trading_rows_valid, has_sorted_tables};
use crate::tax_ids::have_distinct_tax_ids;
use brk_money::{Day, Stamp};
use brk_trade_rows::{Schema, Sheets};
use std::alloc::{AllocError, Global};

// The calendar ends at 9999-12-31 23:59:59.999 UTC.
fn is_valid_last_stamp(last: Option<Stamp>) -> bool
    ensures { result ≡ is_last_stamp_in_calendar last }
{
    match last {
        Some(last) => last.get() <= Stamp::GREATEST,
        None => true,
    }
}

fn is_valid_rule(rule: Option<Day>) -> bool
    ensures { result ≡ is_one_day_settlement_start_in_calendar rule }
{
    match rule {
        Some(day) => day.get() <= Day::GREATEST,
        None => true,
    }
}

// Every schema has the other tables, CASH_TRANSACTION among them.
fn has_rows_of_schema_only(schema: Schema, sheets: &Sheets) -> bool
    ensures { result ≡ has_rows_only_in_tables_of_schema (abstract_schema schema) (abstract_sheets sheets.now) }
{
    (schema.has_cash_move_table() || sheets.moves.is_empty())
        && (schema.has_settle_rule_table() || sheets.rule.is_none())
}

// Checks the keys first: the other checks search tables that must be sorted.
fn passes_nonallocating_checks(schema: Schema, sheets: &Sheets) -> bool
    ensures { result ≡ passes_nonallocating_form_checks (abstract_schema schema) sheets.now }
{
    if !has_sorted_tables(sheets) {
        return false;
    }
    if !are_reference_rows_valid(schema, sheets) {
        return false;
    }
    is_valid_last_stamp(sheets.last)
        && are_trading_rows_valid(schema, sheets)
        && are_disjoint(schema, &sheets.bands)
        && are_numbered(&sheets.trades)
        && is_within_movement_limit(&sheets.moves)
        && is_valid_rule(sheets.rule)
        && has_rows_of_schema_only(schema, sheets)
}

/// Returns true if the rows satisfy the condition `Form` of `schema`: each table is sorted by key
/// without a repeated key, each row is well-formed and within the limits of the schema, and each
/// record that it refers to exists. Also, bands are disjoint, trades are numbered from 1 without a
/// gap, no two customers have the same tax id, no two rows of CASH_MOVE the same trade, no customer
/// exceeds the limits on accounts and tax rates, at most 10^12 rows of CASH_MOVE have no trade, the
/// last stamp and the first day of one-day settlement are in the calendar, and a table that the
/// schema lacks has no rows.
pub fn meets_form(alloc: Global, schema: Schema, sheets: &Sheets) -> Result<bool, AllocError>
    ensures { IfOk result (λ holds. IsTrue holds ↔ ConditionHolds (abstract_schema schema) Form (abstract_sheets sheets.now)) }
{
    if !passes_nonallocating_checks(schema, sheets) {
        return Ok(false);
    }
    let has_distinct_tax_ids = have_distinct_tax_ids(alloc, &sheets.customers)?;
    if !has_distinct_tax_ids {
        return Ok(false);
    }
    let has_limits = are_within_customer_limits(alloc, sheets)?;
    if !has_limits {
        return Ok(false);
    }
    let has_cash = are_valid_old_cash_rows(alloc, sheets)?;
    if !has_cash {
        return Ok(false);
    }
    let has_moves = are_valid_cash_rows(alloc, sheets)?;
    if !has_moves {
        return Ok(false);
    }
    have_distinct_trades(alloc, &sheets.moves)
}
