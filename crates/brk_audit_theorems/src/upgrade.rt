//! Theorems: rows of an older schema, upgraded to the third, are the tables of the base that they
//! describe.

ghost use Rattle.std.specs.Prelude.{◌≡◌};
ghost use Rattle.brk_model.specs.Schemas.{Schema, first_schema, second_schema};
ghost use Rattle.brk_model.specs.Tables.{Tables};
ghost use Rattle.brk_model.specs.Adopted.{base_of_tables};
ghost use Rattle.brk_model.specs.Upgraded.{tables_with_merged_cash_rows, tables_upgraded_from_schema};
ghost use Rattle.brk_model.specs.Sheets.{sheets};
ghost use Rattle.brk_audit_theorems.specs.Upgrade.{UpgradedRowsMatchTheirBase, HasLimitsWithinThirdSchema};
ghost use Rattle.brk_audit_theorems.specs.Passing.{PassesAudit};

/// Rows passing the audit of a schema within schema 3's limits become, upgraded, the tables of
/// their base.
pub fn upgraded_rows_are_tables_of_their_base()
    ensures first { (rows : Tables) → PassesAudit first_schema rows → UpgradedRowsMatchTheirBase rows }
    ensures second { (rows : Tables) → PassesAudit second_schema rows → UpgradedRowsMatchTheirBase rows }
    ensures narrower { (schema : Schema) (rows : Tables) → HasLimitsWithinThirdSchema schema → PassesAudit schema rows → UpgradedRowsMatchTheirBase rows }
{}

/// The upgrade merges the cash rows of passing rows into CASH_MOVE by stamp, yielding the tables of
/// their base.
pub fn upgrade_merges_cash_rows()
    ensures same { (schema : Schema) (rows : Tables) → PassesAudit schema rows → tables_upgraded_from_schema schema rows ≡ tables_with_merged_cash_rows rows }
    ensures tables { (schema : Schema) (rows : Tables) → PassesAudit schema rows → tables_upgraded_from_schema schema rows ≡ sheets (base_of_tables rows) }
{}
