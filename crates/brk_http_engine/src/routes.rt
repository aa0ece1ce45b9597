//! The route of a request target, with the key of the row or the name of the view.

ghost use Rattle.std.specs.Prelude.{◌≡◌, ◌∷◌, [], Bool, IfOk, MatchOption, codes, option_map};
ghost use Rattle.std.specs.List.{list_all};
ghost use Rattle.matchit.specs.Params.{AllText, named, walk};
ghost use Rattle.brk_http_engine.specs.Rows.{is_nonempty, all_router_rows};
ghost use Rattle.brk_model_http.specs.Routes.{key_of_batch_row, route_of_segments, route_of_target};
ghost use Rattle.brk_model.specs.Forms.{read_id};
ghost use Rattle.brk_ref.specs.Records.{abstract_key};
ghost use Rattle.brk_http_engine.specs.Codes.{route_in_model};

use crate::router::RouteKind;
use crate::service::Service;
use brk_ref::{BatchName, Key, RowNumber, parse_id};
use matchit::{Params, Router};
use std::alloc::{AllocError, Global};

/// The route of a request target. `V` is the type of the names of views.
#[derive(Drop)]
pub enum Route<V> {
    /// To a row, with its key or without one.
    ToRow(Option<Key>),
    /// To the view with this name.
    ToView(V),
}

// Parses the key in a target. A row number is 1 to 10^12, both included.
fn key_of_batch_row(alloc: Global, batch: &[u8], n: &[u8]) -> Result<Option<Key>, AllocError>
    ensures key { IfOk result (λ key. option_map abstract_key key ≡ key_of_batch_row batch.now (read_id n.now)) }
{
    let Some(id) = parse_id(n) else {
        return Ok(None);
    };
    let Some(batch) = BatchName::parse(alloc, batch)? else {
        return Ok(None);
    };
    let row = RowNumber::new(id.get()).unwrap();
    Ok(Some(Key { batch, n: row }))
}

// Specified only if all names and texts of the match are UTF-8.
fn parameter_text<'v>(params: &Params<'_, 'v>, name: &str) -> &'v str
    ensures { AllText (walk params.now.pattern.now params.now.text.now params.now.path.now params.now.names.now 0 0) →
        MatchOption (named name.now (walk params.now.pattern.now params.now.text.now params.now.path.now params.now.names.now 0 0))
        (result.now ≡ []) (λ text. result.now ≡ text) }
{
    params.get(name).unwrap_or("")
}

fn route_to_view<D: Service>(view: &str) -> Option<Route<D::ViewName>>
    ensures { option_map (route_in_model D.view_text) result ≡ route_of_segments D.forms.views ([] ∷ codes "ask" ∷ view.now ∷ []) }
{
    match D::view_name_from_text(view) {
        Some(view) => Some(Route::ToView(view)),
        None => None,
    }
}

fn route_to_keyed_row<D: Service>(
    alloc: Global,
    batch: &str,
    n: &str,
) -> Result<Option<Route<D::ViewName>>, AllocError>
    ensures route { IfOk result (λ route. option_map (route_in_model D.view_text) route
        ≡ route_of_segments D.forms.views ([] ∷ codes "rows" ∷ batch.now ∷ n.now ∷ [])) }
{
    match key_of_batch_row(alloc, batch.as_bytes(), n.as_bytes())? {
        Some(key) => Ok(Some(Route::ToRow(Some(key)))),
        None => Ok(None),
    }
}

/// Returns the route of a request target, or `None` if the target is not UTF-8 or has no route.
/// Nothing in it is decoded.
pub fn route_of_target<D: Service>(
    alloc: Global,
    router: &Router<RouteKind>,
    target: &[u8],
) -> Result<Option<Route<D::ViewName>>, AllocError>
    requires routes { router.now ≡ all_router_rows }
    requires named { list_all is_nonempty D.forms.views ≡ Bool.true }
    ensures { IfOk result (λ route. option_map (route_in_model D.view_text) route ≡ route_of_target D.forms.views target.now) }
{
    let Ok(text) = str::from_utf8(target) else {
        return Ok(None);
    };
    let Ok(found) = router.at(text) else {
        return Ok(None);
    };
    match found.value {
        RouteKind::Row => Ok(Some(Route::ToRow(None))),
        RouteKind::KeyedRow => {
            let batch = parameter_text(&found.params, "batch");
            let n = parameter_text(&found.params, "n");
            route_to_keyed_row::<D>(alloc, batch, n)
        }
        RouteKind::View => {
            let view = parameter_text(&found.params, "view");
            Ok(route_to_view::<D>(view))
        }
    }
}
