//! The accounts whose statements are written one after the other.

ghost use Rattle.std.specs.Prelude.{◌≡◌, IfOk, Some, map};
ghost use Rattle.brk_desk_queries.specs.Heads.{AreAccountsOfStatements};
ghost use Rattle.brk_ref.specs.Records.{abstract_account_row};
ghost use Rattle.brk_store_transactions.specs.Holds.{ReadPost};

use brk_money::{CallFault, Id, Planned, Refusal};
use brk_ref::AccountRow;
use brk_store::Store;
use sqlite::Alter;
use std::alloc::{AllocError, Global};

fn account_ids(alloc: Global, rows: &[AccountRow]) -> Result<Vec<Id>, AllocError>
    ensures { IfOk result (λ ids. ids.items ≡ map (λ row. row.id) (map abstract_account_row rows.now)) }
{
    let mut ids = Vec::new(alloc);
    for row in rows {
        ids.push(row.account.id)?;
    }
    Ok(ids)
}

// Refuses an unknown customer with `NoCustomer`.
fn customer_accounts<S: Alter>(
    alloc: Global,
    store: &mut Store<S>,
    customer: Id,
) -> Planned<Vec<Id>, CallFault>
    ensures { ReadPost S.Store store.old store.new result (AreAccountsOfStatements (Some customer)) }
{
    let Some(found) = store.customer(customer)? else {
        return Ok(Err(Refusal::NoCustomer));
    };
    let rows = store.accounts_of_customer(alloc, found.id)?;
    let ids = account_ids(alloc, rows.as_slice())?;
    Ok(Ok(ids))
}

/// Returns the ids of all accounts, or of those of a customer, ascending. Refuses an unknown
/// customer with `NoCustomer`.
pub fn statement_accounts<S: Alter>(
    alloc: Global,
    store: &mut Store<S>,
    customer: Option<Id>,
) -> Planned<Vec<Id>, CallFault>
    ensures { ReadPost S.Store store.old store.new result (AreAccountsOfStatements customer) }
{
    match customer {
        Some(customer) => customer_accounts(alloc, store, customer),
        None => {
            let ids = store.account_ids(alloc)?;
            Ok(Ok(ids))
        }
    }
}
