//! The posting of a completed trade at the broker of its account.

ghost use Rattle.std.specs.Prelude.{◌≡◌};
ghost use Rattle.brk_ref.specs.Rows.{abstract_trade_row};
ghost use Rattle.brk_audit_sums.specs.AccountTerms.{account_broker_in_terms};
ghost use Rattle.brk_audit_sums.specs.Sums.{broker_posting_of_trade_row};

use crate::account_terms::{AccountTerms, broker_of};
use crate::completion::is_completed;
use crate::tally::KeyedAmount;
use brk_ref::TradeRow;
use std::collections::BTreeMap;

/// Returns `None` if the trade is not completed.
pub(crate) fn posting_at_broker(
    terms: &BTreeMap<u64, AccountTerms>,
    trade: &TradeRow,
    amount: i64,
) -> Option<KeyedAmount<u64>>
    ensures { result ≡ broker_posting_of_trade_row (account_broker_in_terms terms.now) (abstract_trade_row trade.now) amount }
{
    if !is_completed(trade.status) {
        return None;
    }
    let key = broker_of(terms, trade.account);
    Some(KeyedAmount { key, amount })
}
