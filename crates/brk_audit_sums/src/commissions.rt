//! The condition `Commission`, on the commission totals of brokers in cents.

ghost use Rattle.std.specs.Prelude.{◌≡◌, ◌↔◌, IfOk, IsTrue, pos};
ghost use Rattle.std.specs.Ordering.{nat_cmp};
ghost use Rattle.brk_money.specs.declared.fault.Condition.TheVariants.{Commission};
ghost use Rattle.brk_model.specs.Audit.{ConditionHolds};
ghost use Rattle.brk_model.specs.Schemas.{Schema};
ghost use Rattle.brk_trade_rows.specs.Sheets.{abstract_sheets};
ghost use Rattle.brk_audit_sums.specs.AccountTerms.{account_broker_in_terms};
ghost use Rattle.brk_audit_sums.specs.Conditions.{HasWellFormedRows, HasValidStatuses};
ghost use Rattle.brk_audit_sums.specs.Sums.{broker_posting_of_trade_row};
ghost use Rattle.brk_audit_sums.specs.Tally.{sum_at_key};

use crate::account_terms::{AccountTerms, terms_by_id};
use crate::broker_posting::posting_at_broker;
use crate::keyed_sum::{KeyedSum, all_match_sums, trade_postings};
use crate::tally::{KeyedAmount, sum_at, sum_by_key};
use brk_ref::{BrokerRow, TradeRow};
use brk_trade_rows::Sheets;
use std::alloc::{AllocError, Global};
use std::collections::BTreeMap;

/// The commission totals of brokers, in cents. Each completed trade posts its commission at the
/// broker of its account.
struct Commissions;

impl KeyedSum for Commissions {
    type Total = BrokerRow;

    ghost posting_of = { λ terms r. broker_posting_of_trade_row (account_broker_in_terms terms) r (pos r.commission) };

    ghost has_sum = { λ sums row. pos row.commissions ≡ sum_at_key nat_cmp sums row.broker.id };

    fn posting_of_trade(
        terms: &BTreeMap<u64, AccountTerms>,
        trade: &TradeRow,
    ) -> Option<KeyedAmount<u64>> {
        posting_at_broker(terms, trade, trade.commission.get() as i64)
    }

    fn matches_sum(sums: &BTreeMap<u64, i128>, row: &BrokerRow) -> bool {
        i128::from(row.commissions) == sum_at(sums, row.broker.id.get())
    }
}

/// Returns true if the rows satisfy the condition `Commission`, which is the same in all schemas:
/// each broker's commission total is the sum over the completed trades of its accounts.
pub fn meets_commission(alloc: Global, sheets: &Sheets) -> Result<bool, AllocError>
    requires form { HasWellFormedRows sheets.now }
    requires status { HasValidStatuses sheets.now }
    ensures { IfOk result (λ holds. (schema : Schema) → IsTrue holds ↔ ConditionHolds schema Commission (abstract_sheets sheets.now)) }
{
    let terms = terms_by_id(alloc, &sheets.accounts)?;
    let postings = trade_postings::<Commissions>(alloc, &terms, &sheets.trades)?;
    let sums = sum_by_key(alloc, &postings)?;
    Ok(all_match_sums::<Commissions>(&sums, &sheets.brokers))
}
