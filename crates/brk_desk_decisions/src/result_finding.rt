//! Reads of the facts that decide on a result: the trade with its parties, its security with a rate,
//! and what its posting needs.

ghost use Rattle.std.specs.Prelude.{◌<◌, IfOk, IfSome};
ghost use Rattle.brk_desk_decisions.specs.ResultFactReads.{AreResultFactsOfTradeWithId, AreResultFactsOfTrade, SecurityFactsMatchTables, PostingFactsMatchTables};
ghost use Rattle.brk_model.specs.Joins.{security_row_with_symbol};
ghost use Rattle.brk_store_transactions.specs.Holds.{ReadPost};

use crate::order_check_reads::read_band_rate;
use crate::parties::party_facts;
use brk_money::{CallFault, Id};
use brk_ref::{Tier, TradeRow};
use brk_store::Store;
use brk_store_required::require_security;
use brk_trade::{Posting, ResultPlanFacts, TradedSecurity};
use sqlite::Alter;
use std::alloc::Global;

// Fails with `Store` also if the security does not exist.
fn traded_security<S: Alter>(
    alloc: Global,
    store: &mut Store<S>,
    trade: &TradeRow,
    tier: Tier,
) -> Result<TradedSecurity, CallFault>
    ensures { ReadPost S.Store store.old store.new result
        (λ listed t. IfSome (security_row_with_symbol t trade.now.symbol) (λ s. SecurityFactsMatchTables t trade.now tier s listed)) }
{
    let security = require_security(store, &trade.symbol)?;
    let rate = read_band_rate(
        alloc,
        store,
        tier,
        trade.kind,
        &security.exchange,
        trade.qty,
    )?;
    Ok(TradedSecurity { security, rate })
}

// Fails with `Store` also if no number is left for a cash row.
fn posting_facts<S: Alter>(store: &mut Store<S>) -> Result<Posting, CallFault>
    ensures { ReadPost S.Store store.old store.new result (λ posting t. PostingFactsMatchTables t posting) }
{
    let rule = store.one_day_start()?;
    let next = store.next_cash_row_number()?;
    Ok(Posting { rule, next })
}

// If a check of the result fails, the facts that are needed only after it may have any value.
fn result_facts_of_row<S: Alter>(
    alloc: Global,
    store: &mut Store<S>,
    trade: TradeRow,
) -> Result<ResultPlanFacts, CallFault>
    ensures read { ReadPost S.Store store.old store.new result (λ found t. AreResultFactsOfTrade t trade found) }
    ensures some_shares { IfOk result (λ found. 0 < found.trade.qty) }
{
    // The value is not needed: the call shows that the quantity is at least 1 share.
    let _shares = trade.qty.get();
    let parties = party_facts(alloc, store, trade.account)?;
    let listed = traded_security(alloc, store, &trade, parties.tier)?;
    let summary = store.read_summary(trade.account, &trade.symbol)?;
    let posting = posting_facts(store)?;
    Ok(ResultPlanFacts {
        trade,
        parties,
        summary,
        listed,
        posting,
    })
}

// Returns `None` if the trade does not exist.
pub(crate) fn facts_of_result<S: Alter>(
    alloc: Global,
    store: &mut Store<S>,
    trade: Id,
) -> Result<Option<ResultPlanFacts>, CallFault>
    ensures read { ReadPost S.Store store.old store.new result (λ found t. AreResultFactsOfTradeWithId t trade found) }
    ensures some_shares { IfOk result (λ found. IfSome found (λ f. 0 < f.trade.qty)) }
{
    match store.trade(trade)? {
        Some(row) => {
            let found = result_facts_of_row(alloc, store, row)?;
            Ok(Some(found))
        }
        None => Ok(None),
    }
}
