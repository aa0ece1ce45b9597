//! Reads of the facts that decide on a command that adds a reference record; those of permissions,
//! charges, bands and taxes of customers are in `terms`.

ghost use Rattle.std.specs.Prelude.{◌≡◌};
ghost use Rattle.brk_trade_theorems.specs.Found.{ReferenceFactsMatchTables, AccountFactsMatchTables};
ghost use Rattle.brk_model.specs.Form.{has_account, has_broker, has_customer, has_security};
ghost use Rattle.brk_trade_books.specs.Reads.{account_count_of_customer, contains_customer_with_tax_id, contains_tax_rate};
ghost use Rattle.brk_store_transactions.specs.Holds.{ReadPost};

use crate::terms::{band_facts, charge_facts, customer_tax_facts, permission_facts};
use brk_money::{CallFault, Id};
use brk_ref::{Account, Broker, Customer, Symbol, TaxId};
use brk_store::Store;
use brk_trade::{Reference, ReferenceFacts};
use sqlite::Alter;
use std::alloc::Global;

// The facts of no record: every flag is false, the number of accounts is 0, and there are no rates.
pub(crate) const NO_REFERENCE_FACTS: ReferenceFacts = ReferenceFacts {
    same_id: false,
    same_tax_id: false,
    customer: false,
    broker: false,
    accounts: 0,
    account: false,
    overlaps: false,
    rate: None,
    rates: None,
};

fn broker_exists<S: Alter>(store: &mut Store<S>, id: Id) -> Result<bool, CallFault>
    ensures { ReadPost S.Store store.old store.new result (λ there t. there ≡ has_broker t id) }
{
    Ok(store.broker(id)?.is_some())
}

pub(crate) fn customer_exists<S: Alter>(store: &mut Store<S>, id: Id) -> Result<bool, CallFault>
    ensures { ReadPost S.Store store.old store.new result (λ there t. there ≡ has_customer t id) }
{
    Ok(store.customer(id)?.is_some())
}

fn tax_id_exists<S: Alter>(store: &mut Store<S>, tax_id: &TaxId) -> Result<bool, CallFault>
    ensures { ReadPost S.Store store.old store.new result (λ there t. there ≡ contains_customer_with_tax_id t tax_id.now) }
{
    Ok(store.customer_by_tax_id(tax_id)?.is_some())
}

pub(crate) fn account_exists<S: Alter>(store: &mut Store<S>, id: Id) -> Result<bool, CallFault>
    ensures { ReadPost S.Store store.old store.new result (λ there t. there ≡ has_account t id) }
{
    Ok(store.account(id)?.is_some())
}

fn account_count<S: Alter>(
    alloc: Global,
    store: &mut Store<S>,
    customer: Id,
) -> Result<usize, CallFault>
    ensures { ReadPost S.Store store.old store.new result (λ count t. count ≡ account_count_of_customer t customer) }
{
    Ok(store.accounts_of_customer(alloc, customer)?.len())
}

fn broker_facts<S: Alter>(
    store: &mut Store<S>,
    broker: &Broker,
) -> Result<ReferenceFacts, CallFault>
    ensures { ReadPost S.Store store.old store.new result (λ found t. found.same_id ≡ has_broker t broker.now.id) }
{
    let same_id = broker_exists(store, broker.id)?;
    Ok(ReferenceFacts {
        same_id,
        ..NO_REFERENCE_FACTS
    })
}

fn customer_facts<S: Alter>(
    store: &mut Store<S>,
    customer: &Customer,
) -> Result<ReferenceFacts, CallFault>
    ensures { ReadPost S.Store store.old store.new result (λ found t. (found.same_id ≡ has_customer t customer.now.id)
        × (found.same_tax_id ≡ contains_customer_with_tax_id t customer.now.tax_id)) }
{
    let same_id = customer_exists(store, customer.id)?;
    let same_tax_id = tax_id_exists(store, &customer.tax_id)?;
    Ok(ReferenceFacts {
        same_id,
        same_tax_id,
        ..NO_REFERENCE_FACTS
    })
}

fn account_facts<S: Alter>(
    alloc: Global,
    store: &mut Store<S>,
    account: &Account,
) -> Result<ReferenceFacts, CallFault>
    ensures { ReadPost S.Store store.old store.new result
        (λ found t. AccountFactsMatchTables t account.now.id account.now.customer account.now.broker found) }
{
    let same_id = account_exists(store, account.id)?;
    let customer = customer_exists(store, account.customer)?;
    let broker = broker_exists(store, account.broker)?;
    let accounts = account_count(alloc, store, account.customer)?;
    Ok(ReferenceFacts {
        same_id,
        customer,
        broker,
        accounts,
        ..NO_REFERENCE_FACTS
    })
}

fn security_facts<S: Alter>(
    store: &mut Store<S>,
    symbol: &Symbol,
) -> Result<ReferenceFacts, CallFault>
    ensures { ReadPost S.Store store.old store.new result (λ found t. found.same_id ≡ has_security t symbol.now) }
{
    let same_id = store.security(symbol)?.is_some();
    Ok(ReferenceFacts {
        same_id,
        ..NO_REFERENCE_FACTS
    })
}

fn tax_facts<S: Alter>(store: &mut Store<S>, id: Id) -> Result<ReferenceFacts, CallFault>
    ensures { ReadPost S.Store store.old store.new result (λ found t. found.same_id ≡ contains_tax_rate t id) }
{
    let same_id = store.tax_with_id(id)?.is_some();
    Ok(ReferenceFacts {
        same_id,
        ..NO_REFERENCE_FACTS
    })
}

// A fact on which the decision on this kind of record does not depend may have any value. Fails
// with `Store` also if the record is a tax of a customer who already pays a tax that does not
// exist.
pub(crate) fn reference_facts<S: Alter>(
    alloc: Global,
    store: &mut Store<S>,
    reference: &Reference,
) -> Result<ReferenceFacts, CallFault>
    ensures { ReadPost S.Store store.old store.new result (λ found t. ReferenceFactsMatchTables t reference.now found) }
{
    match reference {
        Reference::Broker(broker) => broker_facts(store, broker),
        Reference::Customer(customer) => customer_facts(store, customer),
        Reference::Account(account) => account_facts(alloc, store, account),
        Reference::Permission(permission) => permission_facts(store, permission),
        Reference::Security(listing) => security_facts(store, &listing.security.symbol),
        Reference::Charge(charge) => charge_facts(store, charge),
        Reference::Band(band) => band_facts(alloc, store, band),
        Reference::TaxRate(tax) => tax_facts(store, tax.id),
        Reference::CustomerTax(pays) => customer_tax_facts(alloc, store, pays),
    }
}
