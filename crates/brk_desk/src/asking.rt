//! The answer of the desk to a query.

ghost use Rattle.brk_desk.specs.CallPosts.{AskPost};
ghost use Rattle.brk_view_rows.specs.Queries.{abstract_query};

use crate::viewing::view_of_query;
use brk_money::Planned;
use brk_store::Store;
use brk_view_rows::{Query, View};
use sqlite::Alter;
use std::alloc::Global;

// States the result of `view_of_query` for each base that the store represents.
pub(crate) fn answer_query<S: Alter>(
    alloc: Global,
    store: &mut Store<S>,
    query: &Query,
) -> Planned<View>
    ensures asked { AskPost S.Store store.old store.new (abstract_query query.now) result }
{
    Ok(view_of_query(alloc, store, query)?)
}
