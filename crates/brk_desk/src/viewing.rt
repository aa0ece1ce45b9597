//! The view of a query of any kind, and the view of an estimate. `brk_desk_queries` returns the views
//! of all other kinds.

ghost use Rattle.brk_model.specs.Queries.{EstimateOf};
ghost use Rattle.brk_ref_orders.specs.Records.{abstract_order};
ghost use Rattle.brk_desk_queries.specs.QueryResults.{AnswersQueryAsModel};
ghost use Rattle.brk_store_transactions.specs.Holds.{ReadPost};
ghost use Rattle.brk_view_rows.specs.Queries.{abstract_query};

use brk_desk_decisions::compute_order_estimate;
use brk_desk_queries::{
    account_trades_view, customer_by_tax_id_view, customer_view, recent_view, status_view,
    submitted_view, symbol_trades_view, touched_lots_view, trades_view, volume_view,
};
use brk_money::{CallFault, Planned};
use brk_ref_orders::Order;
use brk_store::Store;
use brk_view_rows::{Query, View};
use sqlite::Alter;
use std::alloc::Global;

fn estimate_view<S: Alter>(
    alloc: Global,
    store: &mut Store<S>,
    order: &Order,
) -> Planned<View, CallFault>
    ensures { ReadPost S.Store store.old store.new result (AnswersQueryAsModel (EstimateOf (abstract_order order.now))) }
{
    match compute_order_estimate(alloc, store, order)? {
        Ok(estimate) => Ok(Ok(View::Estimate(estimate))),
        Err(refusal) => Ok(Err(refusal)),
    }
}

pub(crate) fn view_of_query<S: Alter>(
    alloc: Global,
    store: &mut Store<S>,
    query: &Query,
) -> Planned<View, CallFault>
    ensures { ReadPost S.Store store.old store.new result (AnswersQueryAsModel (abstract_query query.now)) }
{
    match query {
        Query::Position(customer) => customer_view(alloc, store, *customer),
        Query::PositionOfTaxId(tax_id) => customer_by_tax_id_view(alloc, store, tax_id),
        Query::Recent(account) => recent_view(alloc, store, *account),
        Query::Status(account) => status_view(alloc, store, *account),
        Query::Submitted => submitted_view(alloc, store),
        Query::Estimate(order) => estimate_view(alloc, store, order),
        Query::Trades(named) => trades_view(alloc, store, named),
        Query::AccountTrades { account, span } => account_trades_view(
            alloc, store, *account, *span,
        ),
        Query::SymbolTrades { symbol, span } => symbol_trades_view(alloc, store, symbol, *span),
        Query::Lots { account, first } => touched_lots_view(alloc, store, *account, *first),
        Query::Volume { sector, names } => volume_view(alloc, store, sector, names),
    }
}
