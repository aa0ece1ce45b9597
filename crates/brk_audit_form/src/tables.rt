//! The checks of all tables, by group: keys in order, rows well-formed.

ghost use Rattle.std.specs.Prelude.{◌≡◌};
ghost use Rattle.brk_model.specs.Form as form;
ghost use Rattle.brk_trade_rows.specs.Schemas.{abstract_schema};
ghost use Rattle.brk_trade_rows.specs.Sheets.{abstract_sheets};
ghost use Rattle.brk_audit_form.specs.Conditions.{HasSortedKeys};
ghost use Rattle.brk_audit_form.specs.Groups.{reference_rows_are_well_formed, reference_tables_are_sorted};
ghost use Rattle.brk_audit_form.specs.Groups.{trading_rows_are_well_formed, trading_tables_are_sorted};

use crate::keys::keys_ascend;
use crate::rows::are_valid_rows;
use brk_trade_rows::{Schema, Sheets};

fn are_reference_tables_sorted(sheets: &Sheets) -> bool
    ensures { result ≡ reference_tables_are_sorted sheets.now }
{
    keys_ascend(&sheets.kept)
        && keys_ascend(&sheets.brokers)
        && keys_ascend(&sheets.customers)
        && keys_ascend(&sheets.accounts)
        && keys_ascend(&sheets.permissions)
        && keys_ascend(&sheets.securities)
        && keys_ascend(&sheets.last_trades)
        && keys_ascend(&sheets.charges)
        && keys_ascend(&sheets.bands)
        && keys_ascend(&sheets.tax_rates)
        && keys_ascend(&sheets.customer_taxes)
}

fn are_trading_tables_sorted(sheets: &Sheets) -> bool
    ensures { result ≡ trading_tables_are_sorted sheets.now }
{
    keys_ascend(&sheets.trades)
        && keys_ascend(&sheets.history)
        && keys_ascend(&sheets.requests)
        && keys_ascend(&sheets.holdings)
        && keys_ascend(&sheets.summaries)
        && keys_ascend(&sheets.holding_history)
        && keys_ascend(&sheets.settlements)
        && keys_ascend(&sheets.cash)
        && keys_ascend(&sheets.moves)
}

pub(crate) fn has_sorted_tables(sheets: &Sheets) -> bool
    ensures { result ≡ form.has_tables_sorted_by_unique_key (abstract_sheets sheets.now) }
{
    are_reference_tables_sorted(sheets) && are_trading_tables_sorted(sheets)
}

pub(crate) fn are_reference_rows_valid(schema: Schema, sheets: &Sheets) -> bool
    requires { HasSortedKeys sheets.now }
    ensures { result ≡ reference_rows_are_well_formed (abstract_schema schema) sheets.now }
{
    are_valid_rows(schema, sheets, &sheets.kept)
        && are_valid_rows(schema, sheets, &sheets.brokers)
        && are_valid_rows(schema, sheets, &sheets.customers)
        && are_valid_rows(schema, sheets, &sheets.accounts)
        && are_valid_rows(schema, sheets, &sheets.permissions)
        && are_valid_rows(schema, sheets, &sheets.securities)
        && are_valid_rows(schema, sheets, &sheets.last_trades)
        && are_valid_rows(schema, sheets, &sheets.charges)
        && are_valid_rows(schema, sheets, &sheets.bands)
        && are_valid_rows(schema, sheets, &sheets.tax_rates)
        && are_valid_rows(schema, sheets, &sheets.customer_taxes)
}

/// Leaves out CASH_TRANSACTION and CASH_MOVE, whose checks allocate.
pub(crate) fn are_trading_rows_valid(schema: Schema, sheets: &Sheets) -> bool
    requires { HasSortedKeys sheets.now }
    ensures { result ≡ trading_rows_are_well_formed (abstract_schema schema) sheets.now }
{
    are_valid_rows(schema, sheets, &sheets.trades)
        && are_valid_rows(schema, sheets, &sheets.history)
        && are_valid_rows(schema, sheets, &sheets.requests)
        && are_valid_rows(schema, sheets, &sheets.holdings)
        && are_valid_rows(schema, sheets, &sheets.summaries)
        && are_valid_rows(schema, sheets, &sheets.holding_history)
        && are_valid_rows(schema, sheets, &sheets.settlements)
}
