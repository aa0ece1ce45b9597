//! Views of selected trades with their settlements, cash rows and histories.

ghost use Rattle.std.specs.Prelude.{map};
ghost use Rattle.brk_ref.specs.Rows.{abstract_trade_row};
ghost use Rattle.brk_desk_queries.specs.LookedUp.{HaveAllRowsOfTrades, HasAllRowsOfTrade};
ghost use Rattle.brk_desk_queries.specs.QueryResults.{AnswersQueryAsModel};
ghost use Rattle.brk_model.specs.Queries.{TradesOfAccount, TradesOfSymbol, TradesWith};
ghost use Rattle.brk_store_transactions.specs.Holds.{ReadPost};
ghost use Rattle.brk_store_reads.specs.ReadSequences.{ReadSequencePost};

use brk_money::{CallFault, Id, Planned, Refusal};
use brk_ref::{Span, Symbol, TradeRow};
use brk_store::{Store, read_trades_by_ids};
use brk_view_rows::{
    LookedUp, NamedTrades, View, create_looked_up_trade, lookup_account, lookup_ids, lookup_symbol,
    sort_oldest_first,
};
use sqlite::Alter;
use std::alloc::Global;

// Adds to `trade` its settlement and its cash row, each of which may be missing, and its history.
// The result is specified only if the tables represent a base that satisfies the books invariant
// and the audit invariant.
fn look_up_trade<S: Alter>(
    alloc: Global,
    store: &mut Store<S>,
    trade: TradeRow,
) -> Result<LookedUp, CallFault>
    ensures { ReadPost S.Store store.old store.new result (HasAllRowsOfTrade (abstract_trade_row trade)) }
{
    let settlement = store.settlement(trade.id)?;
    let cash = store.cash_row(trade.id)?;
    let history = store.history_of_trade(alloc, trade.id)?;
    let found = create_looked_up_trade(alloc, trade, settlement, cash, &history)?;
    Ok(found)
}

fn look_up_trades<S: Alter>(
    alloc: Global,
    store: &mut Store<S>,
    trades: Vec<TradeRow>,
) -> Result<Vec<LookedUp>, CallFault>
    ensures { ReadSequencePost S.Store store.old store.new result (λ found. HaveAllRowsOfTrades (map abstract_trade_row trades.items) found.items) }
{
    let mut rest = trades;
    let mut found = Vec::new(alloc);
    while let Some(trade) = rest.pop() {
        let one = look_up_trade(alloc, store, trade)?;
        found.push(one)?;
    }
    found.reverse();
    Ok(found)
}

/// Returns the view of the trades with the ids in `trades`, sorted by the stamp of the last status,
/// then by id, ascending, each with its settlement and its cash row, if they exist, and its
/// history. Refuses an unknown id with `NoTrade`.
pub fn trades_view<S: Alter>(
    alloc: Global,
    store: &mut Store<S>,
    trades: &NamedTrades,
) -> Planned<View, CallFault>
    ensures { ReadPost S.Store store.old store.new result (AnswersQueryAsModel (TradesWith trades.now.trades)) }
{
    // The value is not needed: the read succeeds only if the store is open.
    let _last = store.last_stamp()?;
    let Some(named) = read_trades_by_ids(alloc, store, trades.trades.ids())? else {
        return Ok(Err(Refusal::NoTrade));
    };
    let ordered = sort_oldest_first(alloc, named)?;
    let found = look_up_trades(alloc, store, ordered)?;
    Ok(Ok(lookup_ids(found)))
}

/// Returns the view of the first 20 trades of an account whose last statuses have stamps in `span`,
/// both ends included, with the rows and in the order of `trades_view`. Refuses an
/// unknown account with `NoAccount`.
pub fn account_trades_view<S: Alter>(
    alloc: Global,
    store: &mut Store<S>,
    account: Id,
    span: Span,
) -> Planned<View, CallFault>
    ensures { ReadPost S.Store store.old store.new result (AnswersQueryAsModel (TradesOfAccount account span.first span.last)) }
{
    let Some(_row) = store.account(account)? else {
        return Ok(Err(Refusal::NoAccount));
    };
    let trades = store.twenty_trades_of_account(alloc, account, span)?;
    let found = look_up_trades(alloc, store, trades)?;
    Ok(Ok(lookup_account(found)))
}

/// Returns the view of the first 20 trades of a symbol whose last statuses have stamps in `span`,
/// both ends included, with the rows and in the order of `trades_view`. Refuses an
/// unknown symbol with `NoSecurity`.
pub fn symbol_trades_view<S: Alter>(
    alloc: Global,
    store: &mut Store<S>,
    symbol: &Symbol,
    span: Span,
) -> Planned<View, CallFault>
    ensures { ReadPost S.Store store.old store.new result (AnswersQueryAsModel (TradesOfSymbol symbol.now span.first span.last)) }
{
    let Some(_row) = store.security(symbol)? else {
        return Ok(Err(Refusal::NoSecurity));
    };
    let trades = store.twenty_trades_of_symbol(alloc, symbol, span)?;
    let found = look_up_trades(alloc, store, trades)?;
    Ok(Ok(lookup_symbol(found)))
}
