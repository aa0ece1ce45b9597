//! The check that no two commission bands share a quantity.

ghost use Rattle.std.specs.Prelude.{◌≡◌, IsTrue, map};
ghost use Rattle.std.specs.List.{list_all};
ghost use Rattle.brk_model.specs.Form as form;
ghost use Rattle.brk_model.specs.Keys.{band_key};
ghost use Rattle.brk_trade_rows.specs.Schemas.{abstract_schema};
ghost use Rattle.brk_ref.specs.Records.{abstract_band};

use brk_ref::{Band, are_overlapping_bands};
use brk_trade_rows::Schema;

/// Compares neighbours only: if two bands sorted by key overlap, two neighbours do.
pub(crate) fn are_disjoint(schema: Schema, bands: &[Band]) -> bool
    requires keys { IsTrue (form.is_sorted_by_unique_key band_key (map abstract_band bands.now)) }
    requires bounds { IsTrue (list_all (form.is_well_formed_band_row (abstract_schema schema)) (map abstract_band bands.now)) }
    ensures { result ≡ form.has_disjoint_bands (map abstract_band bands.now) }
{
    bands.is_sorted_by(|band, next| !are_overlapping_bands(band, next))
}
