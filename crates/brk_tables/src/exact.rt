//! Theorems: the rows of a database represent at most one set of tables, in at most one schema.

ghost use Rattle.std.specs.Prelude.{◌≡◌};
ghost use Rattle.sqlite.specs.Effect.{Database};
ghost use Rattle.brk_model.specs.Tables.{Tables};
ghost use Rattle.brk_trade_rows.specs.declared.schema.Schema.{Schema};
ghost use Rattle.brk_trade_rows.specs.Schemas.{abstract_schema};
ghost use Rattle.brk_tables_schema.specs.Made.{HasDeskTables, HasDeskTablesInSchema};

/// A database contains the tables of a desk in schema 3 with exactly the rows of at most one set of
/// tables.
pub fn database_rows_determine_tables()
    ensures { (t u : Tables) → (db : Database) → HasDeskTables t db → HasDeskTables u db → t ≡ u }
{}

/// A database contains the tables of a desk in at most one schema, with exactly the rows of at most
/// one set of tables.
pub fn database_rows_determine_schema_and_tables()
    ensures { (a b : Schema) → (t u : Tables) → (db : Database) → HasDeskTablesInSchema (abstract_schema a) t db
        → HasDeskTablesInSchema (abstract_schema b) u db → (a ≡ b) × (t ≡ u) }
{}
