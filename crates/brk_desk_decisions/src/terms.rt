//! Reads of the facts that decide on commands that add permissions, charges, commission bands and
//! taxes of customers; and the sum of the tax rates of a customer.

ghost use Rattle.std.specs.Prelude.{◌≡◌, ◌==◌, ◌≤◌, SomeIff, Some, filter, map};
ghost use Rattle.brk_trade_theorems.specs.Found.{CustomerTaxFactsMatchTables};
ghost use Rattle.brk_model.specs.Form.{has_account};
ghost use Rattle.brk_trade_books.specs.Reads.{contains_charge, overlaps_some_band, contains_permission};
ghost use Rattle.brk_trade_books.specs.Reads.{contains_customer_tax, rate_of_tax_rate_with_id, customer_tax_rate_sum, tax_rate_with_id};
ghost use Rattle.brk_model.specs.Limits.{greatest_tax_rate};
ghost use Rattle.brk_ref.specs.Records.{abstract_band, abstract_tax_rate};
ghost use Rattle.brk_store_transactions.specs.Holds.{ReadPost};

use crate::reference_finding::{NO_REFERENCE_FACTS, account_exists, customer_exists};
use brk_money::{CallFault, Id, TaxRate};
use brk_ref::{Band, Charge, CustomerTax, Permission, Tax, TaxId, overlaps, tax_sum};
use brk_store::Store;
use brk_trade::ReferenceFacts;
use sqlite::Alter;
use std::alloc::Global;

fn has_permission<S: Alter>(
    store: &mut Store<S>,
    account: Id,
    tax_id: &TaxId,
) -> Result<bool, CallFault>
    ensures { ReadPost S.Store store.old store.new result (λ there t. there ≡ contains_permission t account tax_id.now) }
{
    Ok(store.permission(account, tax_id)?.is_some())
}

// The rate is in hundred-thousandths.
fn stored_rate<S: Alter>(store: &mut Store<S>, tax: Id) -> Result<Option<TaxRate>, CallFault>
    ensures { ReadPost S.Store store.old store.new result (λ rate t. rate ≡ rate_of_tax_rate_with_id t tax) }
{
    match store.tax_with_id(tax)? {
        Some(tax) => Ok(Some(tax.rate)),
        None => Ok(None),
    }
}

fn has_customer_tax<S: Alter>(
    store: &mut Store<S>,
    customer: Id,
    tax: Id,
) -> Result<bool, CallFault>
    ensures { ReadPost S.Store store.old store.new result (λ there t. there ≡ contains_customer_tax t customer tax) }
{
    Ok(store.customer_tax(customer, tax)?.is_some())
}

// Fails with `Store` also if one of the taxes does not exist.
fn read_taxes<S: Alter>(
    alloc: Global,
    store: &mut Store<S>,
    customer: Id,
) -> Result<Vec<Tax>, CallFault>
    ensures { ReadPost S.Store store.old store.new result (λ taxes t.
        map (λ tax. Some (abstract_tax_rate tax)) taxes.items ≡ map (λ r. tax_rate_with_id t r.tax) (filter (λ r. r.customer == customer) t.customer_taxes)) }
{
    let mut taxes = Vec::new(alloc);
    let rows = store.taxes_of_customer(alloc, customer)?;
    for row in &rows {
        let Some(tax) = store.tax_with_id(row.tax)? else {
            return Err(CallFault::Store);
        };
        taxes.push(tax)?;
    }
    Ok(taxes)
}

// Returns the sum of a customer's tax rates, in hundred-thousandths, or `None` if it exceeds the
// greatest rate. Fails with `Store` also if one of the customer's taxes does not exist.
pub(crate) fn checked_tax_rate_sum<S: Alter>(
    alloc: Global,
    store: &mut Store<S>,
    customer: Id,
) -> Result<Option<TaxRate>, CallFault>
    ensures { ReadPost S.Store store.old store.new result (λ rates t. SomeIff rates (customer_tax_rate_sum t customer
        ≤ greatest_tax_rate) (customer_tax_rate_sum t customer)) }
{
    let taxes = read_taxes(alloc, store, customer)?;
    Ok(tax_sum(&taxes))
}

// The sum is in hundred-thousandths. Fails with `Store` also if one of the customer's taxes does
// not exist, or if the sum exceeds the greatest rate.
pub(crate) fn require_tax_rate_sum<S: Alter>(
    alloc: Global,
    store: &mut Store<S>,
    customer: Id,
) -> Result<TaxRate, CallFault>
    ensures { ReadPost S.Store store.old store.new result (λ rates t. rates ≡ customer_tax_rate_sum t customer) }
{
    match checked_tax_rate_sum(alloc, store, customer)? {
        Some(rates) => Ok(rates),
        None => Err(CallFault::Store),
    }
}

pub(crate) fn permission_facts<S: Alter>(
    store: &mut Store<S>,
    permission: &Permission,
) -> Result<ReferenceFacts, CallFault>
    ensures { ReadPost S.Store store.old store.new result (λ found t.
        (found.account ≡ has_account t permission.now.account) × (found.same_id ≡ contains_permission t permission.now.account permission.now.tax_id)) }
{
    let account = account_exists(store, permission.account)?;
    let same_id = has_permission(store, permission.account, &permission.tax_id)?;
    Ok(ReferenceFacts {
        same_id,
        account,
        ..NO_REFERENCE_FACTS
    })
}

pub(crate) fn charge_facts<S: Alter>(
    store: &mut Store<S>,
    charge: &Charge,
) -> Result<ReferenceFacts, CallFault>
    ensures { ReadPost S.Store store.old store.new result (λ found t. found.same_id ≡ contains_charge t charge.now.kind charge.now.tier) }
{
    let same_id = store.charge(charge.kind, charge.tier)?.is_some();
    Ok(ReferenceFacts {
        same_id,
        ..NO_REFERENCE_FACTS
    })
}

pub(crate) fn band_facts<S: Alter>(
    alloc: Global,
    store: &mut Store<S>,
    band: &Band,
) -> Result<ReferenceFacts, CallFault>
    ensures { ReadPost S.Store store.old store.new result (λ found t. found.overlaps ≡ overlaps_some_band t (abstract_band band.now)) }
{
    let bands = store.commission_bands(alloc, band.tier, band.kind, &band.exchange)?;
    let overlapping = overlaps(&bands, band);
    Ok(ReferenceFacts {
        overlaps: overlapping,
        ..NO_REFERENCE_FACTS
    })
}

// Fails with `Store` also if a tax that the customer already pays does not exist.
pub(crate) fn customer_tax_facts<S: Alter>(
    alloc: Global,
    store: &mut Store<S>,
    pays: &CustomerTax,
) -> Result<ReferenceFacts, CallFault>
    ensures { ReadPost S.Store store.old store.new result (λ found t. CustomerTaxFactsMatchTables t pays.now.customer pays.now.tax found) }
{
    let customer = customer_exists(store, pays.customer)?;
    let rate = stored_rate(store, pays.tax)?;
    let same_id = has_customer_tax(store, pays.customer, pays.tax)?;
    let rates = checked_tax_rate_sum(alloc, store, pays.customer)?;
    Ok(ReferenceFacts {
        same_id,
        customer,
        rate,
        rates,
        ..NO_REFERENCE_FACTS
    })
}
