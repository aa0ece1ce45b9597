//! The views of the balances and market values of a customer's accounts.

ghost use Rattle.std.specs.Prelude.{◌≡◌, ◌==◌, filter, map};
ghost use Rattle.brk_desk_queries.specs.QueryResults.{AnswersQueryAsModel};
ghost use Rattle.brk_model.specs.Queries.{PositionOf, PositionOfTaxId};
ghost use Rattle.brk_ref.specs.Records.{abstract_account_row};
ghost use Rattle.brk_store_transactions.specs.Holds.{ReadPost};
ghost use Rattle.brk_view_rows.specs.Worths.{worth_of_account};

use brk_money::{CallFault, Id, Planned, Refusal};
use brk_ref::{AccountRow, TaxId};
use brk_store::Store;
use brk_store_required::read_holdings_value;
use brk_view_rows::{AccountWorth, View, position};
use sqlite::Alter;
use std::alloc::Global;

// Both amounts are in cents. Fails with `Store` also if a held symbol has no last price, or if the
// sum overflows.
fn read_worth<S: Alter>(
    alloc: Global,
    store: &mut Store<S>,
    row: &AccountRow,
) -> Result<AccountWorth, CallFault>
    ensures { ReadPost S.Store store.old store.new result (λ worth t. worth ≡ worth_of_account t (abstract_account_row row.now)) }
{
    let assets = read_holdings_value(alloc, store, row.account.id)?;
    Ok(AccountWorth {
        account: row.account.id,
        balance: row.balance,
        assets,
    })
}

fn read_worths<S: Alter>(
    alloc: Global,
    store: &mut Store<S>,
    customer: Id,
) -> Result<Vec<AccountWorth>, CallFault>
    ensures { ReadPost S.Store store.old store.new result (λ worths t. worths.items
        ≡ map (worth_of_account t) (filter (λ a. a.customer == customer) t.accounts)) }
{
    let mut worths = Vec::new(alloc);
    let rows = store.accounts_of_customer(alloc, customer)?;
    for row in &rows {
        let worth = read_worth(alloc, store, row)?;
        worths.push(worth)?;
    }
    Ok(worths)
}

/// Returns the view of the balances and the market values of a customer's accounts, in cents,
/// sorted by market value, then by id, ascending. Refuses an unknown customer with `NoCustomer`.
/// Fails with `Store` also if a held symbol has no last price or a sum overflows.
pub fn customer_view<S: Alter>(
    alloc: Global,
    store: &mut Store<S>,
    customer: Id,
) -> Planned<View, CallFault>
    ensures { ReadPost S.Store store.old store.new result (AnswersQueryAsModel (PositionOf customer)) }
{
    let Some(found) = store.customer(customer)? else {
        return Ok(Err(Refusal::NoCustomer));
    };
    let worths = read_worths(alloc, store, found.id)?;
    match position(alloc, worths) {
        Ok(view) => Ok(Ok(view)),
        Err(_) => Err(CallFault::Memory),
    }
}

/// Returns the view of `customer_view` for the customer with a tax id, and refuses and
/// fails as it does.
pub fn customer_by_tax_id_view<S: Alter>(
    alloc: Global,
    store: &mut Store<S>,
    tax_id: &TaxId,
) -> Planned<View, CallFault>
    ensures { ReadPost S.Store store.old store.new result (AnswersQueryAsModel (PositionOfTaxId tax_id.now)) }
{
    let Some(found) = store.customer_by_tax_id(tax_id)? else {
        return Ok(Err(Refusal::NoCustomer));
    };
    let worths = read_worths(alloc, store, found.id)?;
    match position(alloc, worths) {
        Ok(view) => Ok(Ok(view)),
        Err(_) => Err(CallFault::Memory),
    }
}
