//! The view of submitted trades.

ghost use Rattle.brk_desk_queries.specs.QueryResults.{AnswersQueryAsModel};
ghost use Rattle.brk_model.specs.Queries.{SubmittedTrades};
ghost use Rattle.brk_store_transactions.specs.Holds.{ReadPost};

use brk_money::{CallFault, Planned};
use brk_store::Store;
use brk_view_rows::{View, submitted};
use sqlite::Alter;
use std::alloc::Global;

/// Returns the view of all submitted trades, sorted by id, ascending. Never refuses.
pub fn submitted_view<S: Alter>(alloc: Global, store: &mut Store<S>) -> Planned<View, CallFault>
    ensures { ReadPost S.Store store.old store.new result (AnswersQueryAsModel SubmittedTrades) }
{
    let rows = store.submitted_trades(alloc)?;
    match submitted(alloc, &rows) {
        Ok(view) => Ok(Ok(view)),
        Err(_) => Err(CallFault::Memory),
    }
}
