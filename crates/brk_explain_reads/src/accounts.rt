//! The facts that the explanation of an account reads, except for the rows that it walks.

ghost use Rattle.std.specs.Prelude.{◌≡◌, map};
ghost use Rattle.brk_ref.specs.Rows.{abstract_summary_row};
ghost use Rattle.brk_model_explain.specs.AccountLines.{priced_holding, priced_holdings_of_account};
ghost use Rattle.brk_explain_rows.specs.Details.{AreDetailsOfAccount, abstract_priced_holding};
ghost use Rattle.brk_store_transactions.specs.Holds.{ReadPost};

use brk_explain_rows::{AccountDetails, PricedHolding};
use brk_money::{CallFault, Id};
use brk_ref::SummaryRow;
use brk_store::Store;
use brk_store_required::require_last_price;
use sqlite::Alter;
use std::alloc::Global;

fn price_holding<S: Alter>(
    store: &mut Store<S>,
    summary: SummaryRow,
) -> Result<PricedHolding, CallFault>
    ensures { ReadPost S.Store store.old store.new result (λ held t. abstract_priced_holding held ≡ priced_holding t (abstract_summary_row summary)) }
{
    let price = require_last_price(store, &summary.symbol)?;
    Ok(PricedHolding { summary, price })
}

fn read_priced_holdings<S: Alter>(
    alloc: Global,
    store: &mut Store<S>,
    account: Id,
) -> Result<Vec<PricedHolding>, CallFault>
    ensures { ReadPost S.Store store.old store.new result (λ held t. map abstract_priced_holding held.items ≡ priced_holdings_of_account t account) }
{
    let mut rest = store.read_summaries(alloc, account)?;
    let mut held = Vec::new(alloc);
    while let Some(summary) = rest.pop() {
        let one = price_holding(store, summary)?;
        held.push(one)?;
    }
    held.reverse();
    Ok(held)
}

/// Returns the row of an account and its holding summaries with last prices, sorted by symbol,
/// ascending, or `None` if the account does not exist. Fails with `Store` also if a symbol has no
/// last price.
pub fn gather_account<S: Alter>(
    alloc: Global,
    store: &mut Store<S>,
    account: Id,
) -> Result<Option<AccountDetails>, CallFault>
    ensures { ReadPost S.Store store.old store.new result (AreDetailsOfAccount account) }
{
    let Some(row) = store.account(account)? else {
        return Ok(None);
    };
    let held = read_priced_holdings(alloc, store, account)?;
    Ok(Some(AccountDetails { account: row, held }))
}
