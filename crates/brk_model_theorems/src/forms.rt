//! Theorems on the audit's condition `Form` and its keys: each is the conjunction of its parts.

ghost use Rattle.std.specs.Prelude.{◌≡◌, true};
ghost use Rattle.brk_model.specs.Form.{satisfies_form_condition, has_tables_sorted_by_unique_key};
ghost use Rattle.brk_model.specs.Schemas.{Schema};
ghost use Rattle.brk_model.specs.Tables.{Tables};
ghost use Rattle.brk_model_theorems.specs.FormParts.{SatisfiesFormParts, HasSortedTables};

/// Tables satisfy the condition `Form` if and only if they satisfy each of its parts.
pub fn form_condition_holds_iff_all_parts_hold()
    ensures parts { (schema : Schema) (t : Tables) → satisfies_form_condition schema t ≡ true → SatisfiesFormParts schema t }
    ensures whole { (schema : Schema) (t : Tables) → SatisfiesFormParts schema t → satisfies_form_condition schema t ≡ true }
{}

/// Tables are sorted by unique keys if and only if each one but DESK and SETTLE_RULE is.
pub fn tables_are_sorted_iff_each_table_is_sorted()
    ensures parts { (t : Tables) → has_tables_sorted_by_unique_key t ≡ true → HasSortedTables t }
    ensures whole { (t : Tables) → HasSortedTables t → has_tables_sorted_by_unique_key t ≡ true }
{}
