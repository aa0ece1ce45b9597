//! The terms of accounts, by id: the broker, and the tax status that determines withheld tax.

ghost use Rattle.std.specs.Prelude.{◌≡◌, ℕ, ◌==◌, IfOk, find, option_map};
ghost use Rattle.std.specs.Ordering.{nat_cmp};
ghost use Rattle.std.specs.BTreeMap.{get};
ghost use Rattle.brk_audit_sums.specs.AccountTerms.{account_broker_in_terms, account_tax_status_in_terms, terms_of_account_row};

use brk_money::{Id, TaxStatus};
use brk_ref::AccountRow;
use std::alloc::{AllocError, Global};
use std::collections::BTreeMap;

/// The broker and the tax status of an account.
#[derive(Clone, Copy)]
pub struct AccountTerms {
    pub broker: Id,
    pub tax_status: TaxStatus,
}

/// Returns the terms of the accounts, by id. Of several rows with one id, the first counts.
pub fn terms_by_id(
    alloc: Global,
    accounts: &[AccountRow],
) -> Result<BTreeMap<u64, AccountTerms>, AllocError>
    ensures terms { IfOk result (λ terms. (id : ℕ) → get nat_cmp terms id ≡ option_map terms_of_account_row (find (λ a. a.account.id == id) accounts.now)) }
{
    let mut terms = BTreeMap::new(alloc);
    for row in accounts {
        let id = row.account.id.get();
        let found = AccountTerms {
            broker: row.account.broker,
            tax_status: row.account.tax_status,
        };
        if !terms.contains_key(&id) {
            terms.insert(id, found)?;
        }
    }
    Ok(terms)
}

/// Returns the id of the account's broker, or 0 if the map does not contain the account.
pub fn broker_of(terms: &BTreeMap<u64, AccountTerms>, account: Id) -> u64
    ensures { result ≡ account_broker_in_terms terms.now account }
{
    let id = account.get();
    match terms.get(&id) {
        Some(found) => found.broker.get(),
        None => 0,
    }
}

/// Returns the tax status of the account, or `Untaxed` if the map does not contain the account.
pub fn tax_status_of(terms: &BTreeMap<u64, AccountTerms>, account: Id) -> TaxStatus
    ensures { result ≡ account_tax_status_in_terms terms.now account }
{
    let id = account.get();
    match terms.get(&id) {
        Some(found) => found.tax_status,
        None => TaxStatus::Untaxed,
    }
}
