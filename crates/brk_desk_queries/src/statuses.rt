//! The view of an account's parties and its last trades.

ghost use Rattle.std.specs.Prelude.{◌≡◌, IfOk, bytes_eq, find, map, option_map, take};
ghost use Rattle.brk_ref.specs.Rows.{abstract_trade_row};
ghost use Rattle.brk_desk_queries.specs.QueryResults.{AnswersQueryAsModel};
ghost use Rattle.brk_model.specs.Joins.{trade_rows_recent_first, trade_rows_of_account};
ghost use Rattle.brk_model.specs.Queries.{StatusOf};
ghost use Rattle.brk_store_transactions.specs.Holds.{ReadPost};
ghost use Rattle.brk_view_rows.specs.Status.{rows_of_trade_status, trade_row_with_security};

use crate::parties::status_with_parties;
use brk_money::{CallFault, Id, Planned, Refusal};
use brk_ref::{Security, Symbol, TradeRow};
use brk_store::Store;
use brk_view_rows::{TradeStatus, View, status};
use sqlite::Alter;
use std::alloc::{AllocError, Global};

// Fails with `Store` also if the security does not exist.
fn trade_with_security<S: Alter>(
    store: &mut Store<S>,
    trade: TradeRow,
) -> Result<TradeStatus, CallFault>
    ensures { ReadPost S.Store store.old store.new result (λ status t. rows_of_trade_status status
        ≡ trade_row_with_security t (abstract_trade_row trade)) }
{
    match store.security(&trade.symbol)? {
        Some(security) => Ok(TradeStatus { trade, security }),
        None => Err(CallFault::Store),
    }
}

fn is_trade_of_symbol(status: &TradeStatus, symbol: &Symbol) -> bool
    ensures { result ≡ bytes_eq status.now.trade.symbol symbol.now }
{
    status.trade.symbol.as_str() == symbol.as_str()
}

// Returns the security that a trade of `statuses` has, if one has the symbol. Reads no table.
fn security_of_symbol(
    statuses: &[TradeStatus],
    symbol: &Symbol,
) -> Result<Option<Security>, AllocError>
    ensures { IfOk result (λ security. security
        ≡ option_map (λ s. s.security) (find (λ s. bytes_eq s.trade.symbol symbol.now) statuses.now)) }
{
    let Some(status) = statuses
        .iter()
        .find(|status| is_trade_of_symbol(status, symbol))
    else {
        return Ok(None);
    };
    let security = status.security.clone()?;
    Ok(Some(security))
}

// Returns the last fifty trades of an account, each with its security. Reads the security of each
// symbol once.
fn fifty_trades_with_securities<S: Alter>(
    alloc: Global,
    store: &mut Store<S>,
    account: Id,
) -> Result<Vec<TradeStatus>, CallFault>
    ensures { ReadPost S.Store store.old store.new result (λ statuses t. map rows_of_trade_status statuses.items
        ≡ map (trade_row_with_security t) (take 50 (trade_rows_recent_first (trade_rows_of_account t account)))) }
{
    let mut rest = store.last_fifty_trades(alloc, account)?;
    let mut statuses = Vec::new(alloc);
    while let Some(trade) = rest.pop() {
        if let Some(security) = security_of_symbol(&statuses, &trade.symbol)? {
            statuses.push(TradeStatus { trade, security })?;
        } else {
            let status = trade_with_security(store, trade)?;
            statuses.push(status)?;
        }
    }
    statuses.reverse();
    Ok(statuses)
}

/// Returns the view of the names of an account's customer and broker, and of its last fifty trades
/// with their securities, sorted by the stamp of the last status, then by id, descending. Refuses
/// an unknown account with `NoAccount`. Fails with `Store` also if the customer, the broker or one
/// of the securities does not exist.
pub fn status_view<S: Alter>(
    alloc: Global,
    store: &mut Store<S>,
    account: Id,
) -> Planned<View, CallFault>
    ensures { ReadPost S.Store store.old store.new result (AnswersQueryAsModel (StatusOf account)) }
{
    let Some(row) = store.account(account)? else {
        return Ok(Err(Refusal::NoAccount));
    };
    let trades = fifty_trades_with_securities(alloc, store, account)?;
    let found = status_with_parties(store, &row, trades)?;
    Ok(Ok(status(found)))
}
