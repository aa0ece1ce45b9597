//! The condition `Requests`: the rows of TRADE_REQUEST are exactly the requests of the pending
//! trades.

ghost use Rattle.std.specs.Prelude.{◌≡◌, ◌↔◌, map, filter, IfOk, IsTrue, MatchOption};
ghost use Rattle.brk_money.specs.Kinds.{is_same_trade_status, is_same_trade_type};
ghost use Rattle.brk_money.specs.declared.fault.Condition.TheVariants as condition;
ghost use Rattle.brk_money.specs.declared.status.Status.TheVariants.{Pending};
ghost use Rattle.brk_model.specs.Audit.{ConditionHolds};
ghost use Rattle.brk_model.specs.Schemas.{Schema};
ghost use Rattle.brk_audit_sums.specs.AccountTerms.{account_broker_in_terms};
ghost use Rattle.brk_audit_sums.specs.Completed.{is_pending_trade_row};
ghost use Rattle.brk_audit_sums.specs.Conditions.{HasWellFormedRows, HasValidStatuses};
ghost use Rattle.brk_audit_sums.specs.Settling.{RowsCannotMatchTrades, RowsMatchTradesIffOthersDo, request_row_of_trade};
ghost use Rattle.brk_ref.specs.Rows.{abstract_request_row, abstract_trade_row};
ghost use Rattle.brk_trade_rows.specs.Sheets.{abstract_sheets};

use brk_audit_sums::account_terms::{AccountTerms, broker_of, terms_by_id};
use brk_money::{Status, TradeType};
use brk_ref::{RequestRow, TradeRow};
use brk_trade_rows::Sheets;
use std::alloc::{AllocError, Global};
use std::collections::BTreeMap;

fn types_equal(kind: TradeType, other: TradeType) -> bool
    ensures { result ≡ is_same_trade_type kind other }
{
    kind == other
}

fn has_same_symbol_qty_bid(request: &RequestRow, trade: &TradeRow) -> bool
    ensures { IsTrue result ↔ ((request.now.symbol ≡ trade.now.symbol) × (request.now.qty ≡ trade.now.qty) × (request.now.bid ≡ trade.now.bid)) }
{
    request.symbol.as_str() == trade.symbol.as_str()
        && request.qty == trade.qty
        && request.bid == trade.bid
}

fn request_matches_trade(request: &RequestRow, trade: &TradeRow, broker: u64) -> bool
    ensures { IsTrue result ↔ (abstract_request_row request.now ≡ request_row_of_trade (λ account. broker) (abstract_trade_row trade.now)) }
{
    request.trade == trade.id
        && types_equal(request.kind, trade.kind)
        && has_same_symbol_qty_bid(request, trade)
        && request.broker.get() == broker
}

fn is_pending(status: Status) -> bool
    ensures { result ≡ is_same_trade_status status Pending }
{
    status == Status::Pending
}

// Returns the requests after that of `trade`, if it is pending; `None` if its request is not the
// first.
fn strip_request<'a>(
    requests: &'a [RequestRow],
    trade: &TradeRow,
    terms: &BTreeMap<u64, AccountTerms>,
) -> Option<&'a [RequestRow]>
    ensures { MatchOption result
        (RowsCannotMatchTrades (λ q. q) (request_row_of_trade (account_broker_in_terms terms.now)) is_pending_trade_row
        (map abstract_request_row requests.now) (abstract_trade_row trade.now))
        (λ others. RowsMatchTradesIffOthersDo (λ q. q) (request_row_of_trade (account_broker_in_terms terms.now)) is_pending_trade_row
        (map abstract_request_row requests.now) (abstract_trade_row trade.now) (map abstract_request_row others.now)) }
{
    if !is_pending(trade.status) {
        return Some(requests);
    }
    let [first, others @ ..] = requests else {
        return None;
    };
    if request_matches_trade(first, trade, broker_of(terms, trade.account)) {
        Some(others)
    } else {
        None
    }
}

// One walk over both lists suffices, because both are sorted by trade.
fn requests_match_trades(
    requests: &[RequestRow],
    trades: &[TradeRow],
    terms: &BTreeMap<u64, AccountTerms>,
) -> bool
    ensures { IsTrue result
        ↔ (map (λ q. q) (map abstract_request_row requests.now)
        ≡ map (request_row_of_trade (account_broker_in_terms terms.now)) (filter is_pending_trade_row (map abstract_trade_row trades.now))) }
{
    let mut rest = requests;
    for trade in trades {
        let Some(others) = strip_request(rest, trade, terms) else {
            return false;
        };
        rest = others;
    }
    rest.is_empty()
}

/// Returns true if TRADE_REQUEST has a row for each pending trade, with its terms, and no other.
pub(crate) fn meets_requests(alloc: Global, sheets: &Sheets) -> Result<bool, AllocError>
    requires form { HasWellFormedRows sheets.now }
    requires status { HasValidStatuses sheets.now }
    ensures { IfOk result (λ holds. (schema : Schema) → IsTrue holds ↔ ConditionHolds schema condition.Requests (abstract_sheets sheets.now)) }
{
    let terms = terms_by_id(alloc, &sheets.accounts)?;
    Ok(requests_match_trades(&sheets.requests, &sheets.trades, &terms))
}
