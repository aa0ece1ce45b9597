//! The router of request targets.

ghost use Rattle.std.specs.Prelude.{◌≡◌, IfOk};
ghost use Rattle.brk_http_engine.specs.Rows.{all_router_rows};

use matchit::{InsertError, Router};
use std::alloc::Global;

/// The kind of the requests whose targets match a route.
#[derive(Clone, Copy, Debug, PartialEq, Eq)]
pub enum RouteKind {
    /// A row without a key: `/rows`.
    Row,
    /// A row with its key: `/rows/{batch}/{n}`.
    KeyedRow,
    /// A query for a view: `/ask/{view}`.
    View,
}

/// Creates the router of `/rows`, `/rows/{batch}/{n}` and `/ask/{view}`. Fails if memory runs out;
/// no clause says that the router refuses none of the routes.
pub fn new_router(alloc: Global) -> Result<Router<RouteKind>, InsertError>
    ensures { IfOk result (λ router. router ≡ all_router_rows) }
{
    let mut router = Router::new(alloc);
    router.insert("/rows", RouteKind::Row)?;
    router.insert("/rows/{batch}/{n}", RouteKind::KeyedRow)?;
    router.insert("/ask/{view}", RouteKind::View)?;
    Ok(router)
}
