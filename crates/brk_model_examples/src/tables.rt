//! The tables of a base, each sorted by key.
#![tactic(auto, unfolding(crate::proofs::OnLiterals::model_on_literals))]

ghost use Rattle.std.specs.Prelude.{◌≡◌, true};
ghost use Rattle.brk_model.specs.Sheets.{sheets, sheets_in_schema};
ghost use Rattle.brk_model.specs.Adopted.{base_of_tables};
ghost use Rattle.brk_model.specs.Form.{satisfies_form_condition};
ghost use Rattle.brk_model.specs.Schemas.{first_schema, second_schema, third_schema};
ghost use Rattle.brk_model.specs.Upgraded.{tables_with_merged_cash_rows};
ghost use Rattle.brk_model.specs.Ways.{satisfies_status_condition};
ghost use Rattle.brk_model.specs.Audit.{expected_tables};
ghost use Rattle.brk_model_examples.specs.Trading.{base_after_first_purchase};
ghost use Rattle.brk_model_examples.specs.Bought.{tables_after_first_purchase, first_schema_tables_after_purchase};

/// Shows the tables after the first purchase: they are the sheets of the base after the purchase,
/// and they satisfy the audit conditions `Form` and `Status`. The base that they describe has the
/// trades of the base after the purchase, and its sheets are these tables.
pub fn tables_equal_sheets_of_base()
    ensures tables { sheets base_after_first_purchase ≡ tables_after_first_purchase }
    ensures form { satisfies_form_condition third_schema tables_after_first_purchase ≡ true }
    ensures status { satisfies_status_condition tables_after_first_purchase ≡ true }
    ensures trades { (base_of_tables tables_after_first_purchase).trades ≡ base_after_first_purchase.trades }
    ensures expected { expected_tables third_schema tables_after_first_purchase ≡ tables_after_first_purchase }
{}

/// Shows the tables after the first purchase in the two older schemas; those in the second schema
/// equal those in the third. The tables in the first schema satisfy the audit condition `Form` and
/// describe the base that the tables in the third schema describe. With all cash rows merged into
/// CASH_MOVE, the tables in either older schema are those in the third.
pub fn older_cash_rows_are_merged()
    ensures first { sheets_in_schema first_schema base_after_first_purchase ≡ first_schema_tables_after_purchase }
    ensures first_form { satisfies_form_condition first_schema first_schema_tables_after_purchase ≡ true }
    ensures first_base { base_of_tables first_schema_tables_after_purchase ≡ base_of_tables tables_after_first_purchase }
    ensures second { sheets_in_schema second_schema base_after_first_purchase ≡ tables_after_first_purchase }
    ensures from_the_first { tables_with_merged_cash_rows first_schema_tables_after_purchase ≡ tables_after_first_purchase }
    ensures from_the_second { tables_with_merged_cash_rows tables_after_first_purchase ≡ tables_after_first_purchase }
{}
