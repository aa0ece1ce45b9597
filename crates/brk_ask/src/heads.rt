//! The record with the names of the fields of a view.

ghost use Rattle.std.specs.Prelude.{◌≡◌, IfOk};
ghost use Rattle.brk_ask.specs.Printed.{field_names_of_view, field_name_records};
ghost use Rattle.brk_ref.specs.Fields.{texts_of_fields};
ghost use Rattle.brk_view_rows.specs.Queries.{abstract_query};
ghost use Rattle.brk_view_rows.specs.Views.{texts_of_record, texts_of_records};

use brk_desk::Query;
use std::alloc::{AllocError, Global};

// The list is empty for a view whose records differ in their fields.
fn field_names(query: &Query) -> &'static [&'static str]
    ensures { texts_of_fields result.now ≡ field_names_of_view (abstract_query query.now) }
{
    match query {
        Query::Position(_) | Query::PositionOfTaxId(_) => &["account", "balance", "holdings"],
        Query::Submitted => &["trade", "type", "symbol", "quantity", "price"],
        Query::Estimate(_) => &[
            "price",
            "bought",
            "sold",
            "tax",
            "commission",
            "charge",
            "assets",
        ],
        Query::Volume {
            sector: _,
            names: _,
        } => &["broker", "id", "volume"],
        _ => &[],
    }
}

fn copy_names(alloc: Global, names: &[&str]) -> Result<Vec<String>, AllocError>
    ensures { IfOk result (λ owned. texts_of_record owned ≡ texts_of_fields names.now) }
{
    let mut owned = Vec::new(alloc);
    for name in names {
        owned.push(String::from_str(alloc, name)?)?;
    }
    Ok(owned)
}

/// Returns one record with the names of the view's fields, or none if its records differ in their
/// fields.
pub fn header_records(alloc: Global, query: &Query) -> Result<Vec<Vec<String>>, AllocError>
    ensures { IfOk result (λ heads. texts_of_records heads ≡ field_name_records (abstract_query query.now)) }
{
    let mut heads = Vec::new(alloc);
    let names = field_names(query);
    if !names.is_empty() {
        heads.push(copy_names(alloc, names)?)?;
    }
    Ok(heads)
}
