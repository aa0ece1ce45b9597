//! Theorems: rows that pass every condition of an audit are the tables of a base that satisfies the
//! books invariant. The tables of a base that satisfies the books invariant and has valid histories
//! pass every condition of schema 3 if they satisfy its condition `Form`.

ghost use Rattle.std.specs.Prelude.{◌≡◌, IsTrue};
ghost use Rattle.brk_model.specs.Base.{Base};
ghost use Rattle.brk_model.specs.Schemas.{Schema, third_schema};
ghost use Rattle.brk_model.specs.Tables.{Tables};
ghost use Rattle.brk_model.specs.Adopted.{base_of_tables};
ghost use Rattle.brk_model.specs.Form.{satisfies_form_condition};
ghost use Rattle.brk_model.specs.Ways.{satisfies_status_condition};
ghost use Rattle.brk_model.specs.Sheets.{sheets, sheets_in_schema};
ghost use Rattle.brk_trade_books.specs.Books.{BooksInvariant};
ghost use Rattle.brk_audit_theorems.specs.Passing.{PassesAudit};
ghost use Rattle.brk_audit_theorems.specs.Histories.{HasValidHistories, base_sorted_by_keys};

/// The base of rows that pass an audit satisfies the books invariant, and its tables, sorted by
/// key, are these rows.
pub fn passing_rows_are_tables_of_their_base()
    ensures order { (schema : Schema) (rows : Tables) → IsTrue (satisfies_form_condition schema rows) → IsTrue (satisfies_status_condition rows)
        → BooksInvariant (base_of_tables rows) }
    ensures books { (schema : Schema) (rows : Tables) → PassesAudit schema rows → BooksInvariant (base_of_tables rows) }
    ensures tables { (schema : Schema) (rows : Tables) → PassesAudit schema rows → sheets_in_schema schema (base_of_tables rows) ≡ rows }
{}

/// The tables of a base with the books invariant and valid histories describe it, and pass the
/// audit if they satisfy `Form`.
pub fn well_formed_tables_pass_the_audit()
    ensures base { (base : Base) → BooksInvariant base → HasValidHistories base → base_of_tables (sheets base) ≡ base_sorted_by_keys base }
    ensures tables { (base : Base) → BooksInvariant base → HasValidHistories base → sheets (base_of_tables (sheets base)) ≡ sheets base }
    ensures passes { (base : Base) → BooksInvariant base → HasValidHistories base → IsTrue (satisfies_form_condition third_schema (sheets base))
        → PassesAudit third_schema (sheets base) }
    ensures status { (base : Base) → BooksInvariant base → HasValidHistories base → IsTrue (satisfies_status_condition (sheets base)) }
{}
