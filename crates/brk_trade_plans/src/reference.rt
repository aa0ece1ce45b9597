//! The plan of a new record of reference data: a broker, a customer, an account and so on.

ghost use Rattle.std.specs.Prelude.{◌≡◌, ◌∷◌, ◌++◌, [], IfOk, OnErr, Err, MatchResult, None, Some, if◌then◌else◌};
ghost use Rattle.brk_model.specs.Tests.{first_refusal};
ghost use Rattle.brk_money.specs.declared.fault.Fault.TheVariants.{Memory};
ghost use Rattle.brk_money.specs.declared.refusal.Refusal.TheVariants.{Exists};
ghost use Rattle.brk_trade_plans.specs.Reference as spec;
ghost use Rattle.brk_trade_rows.specs.declared.change.Change.TheVariants as change;
ghost use Rattle.brk_trade_plans.specs.Reference.{IsReferencePlan, account_checks, band_checks, later_stamp_check, customer_tax_checks};
ghost use Rattle.brk_trade_plans.specs.Reference.{exceeds_tax_limit, permission_checks, row_change_adding_record, row_changes_adding_record};
ghost use Rattle.brk_trade_plans.specs.Reference.{reference_checks};

use crate::plan::Plan;
use crate::reply::Reply;
use brk_money::{Limit, Planned, Refusal, Stamp, TaxRate, stamp_after};
use brk_ref::{
    Account, Band, Broker, Charge, Customer, CustomerTax, LastTrade, Listing, Permission, Tax,
    Volume,
};
use brk_trade_rows::Change;
use std::alloc::{AllocError, Global};

/// A record of reference data that a command adds.
#[derive(Drop)]
pub enum Reference {
    Broker(Broker),
    Customer(Customer),
    Account(Account),
    Permission(Permission),
    Security(Listing),
    Charge(Charge),
    Band(Band),
    TaxRate(Tax),
    CustomerTax(CustomerTax),
}

/// The facts in the tables that decide on a new record of reference data. A field that no check of
/// the record's kind needs may have any value.
#[derive(Clone, Copy, PartialEq, Eq)]
pub struct ReferenceFacts {
    /// True if a record with the key of the new record exists: the key of a permission is the
    /// account and the tax id, of a security the symbol, of a charge the type and the tier, of a
    /// customer's tax both ids, otherwise the id.
    pub same_id: bool,
    /// True if a customer has the tax id of the new customer.
    pub same_tax_id: bool,
    /// True if its customer exists.
    pub customer: bool,
    /// True if its broker exists.
    pub broker: bool,
    /// The number of accounts of the customer.
    pub accounts: usize,
    /// True if its account exists.
    pub account: bool,
    /// True if a band of the tier, type and exchange of the new band overlaps it: the lower bound
    /// of each is at most the upper bound of the other.
    pub overlaps: bool,
    /// The rate of its tax, or `None` if that tax does not exist.
    pub rate: Option<TaxRate>,
    /// The sum of the rates that the customer pays, or `None` if it exceeds the greatest rate.
    pub rates: Option<TaxRate>,
}

/// The greatest number of accounts of a customer.
pub const MOST_ACCOUNTS: usize = 10;

fn exists_refusal(found: bool) -> Option<Refusal>
    ensures { result ≡ (if found then Some Exists else None) }
{
    if found { Some(Refusal::Exists) } else { None }
}

fn record_refusal(reference: &Reference, found: ReferenceFacts) -> Option<Refusal>
    ensures { result ≡ first_refusal (reference_checks reference.now found) }
{
    match reference {
        Reference::Broker(_) => exists_refusal(found.same_id),
        Reference::Customer(_) => exists_refusal(found.same_id || found.same_tax_id),
        Reference::Account(_) => account_refusal(found),
        Reference::Permission(_) => permission_refusal(found),
        Reference::Security(_) | Reference::Charge(_) | Reference::TaxRate(_) => {
            exists_refusal(found.same_id)
        }
        Reference::Band(band) => band_refusal(band, found),
        Reference::CustomerTax(_) => customer_tax_refusal(found),
    }
}

fn account_refusal(found: ReferenceFacts) -> Option<Refusal>
    ensures { result ≡ first_refusal (account_checks found) }
{
    if !found.customer {
        return Some(Refusal::NoCustomer);
    }
    if !found.broker {
        return Some(Refusal::NoBroker);
    }
    if found.same_id {
        return Some(Refusal::Exists);
    }
    if found.accounts >= MOST_ACCOUNTS {
        return Some(Refusal::Range(Limit::Accounts));
    }
    None
}

fn permission_refusal(found: ReferenceFacts) -> Option<Refusal>
    ensures { result ≡ first_refusal (permission_checks found) }
{
    if !found.account {
        return Some(Refusal::NoAccount);
    }
    exists_refusal(found.same_id)
}

fn band_refusal(band: &Band, found: ReferenceFacts) -> Option<Refusal>
    ensures { result ≡ first_refusal (band_checks band.now found) }
{
    if band.to_qty.get() < band.from_qty.get() {
        return Some(Refusal::BadQty);
    }
    if found.overlaps {
        return Some(Refusal::Overlap);
    }
    None
}

// `rates` is `None` if the sum exceeds the greatest rate already.
fn exceeds_tax_limit(rates: Option<TaxRate>, rate: TaxRate) -> bool
    ensures { result ≡ spec.exceeds_tax_limit rates (Some rate) }
{
    match rates {
        Some(rates) => rates.get() + rate.get() > TaxRate::GREATEST,
        None => true,
    }
}

fn customer_tax_refusal(found: ReferenceFacts) -> Option<Refusal>
    ensures { result ≡ first_refusal (customer_tax_checks found) }
{
    if !found.customer {
        return Some(Refusal::NoCustomer);
    }
    let Some(rate) = found.rate else {
        return Some(Refusal::NoTax);
    };
    if found.same_id {
        return Some(Refusal::Exists);
    }
    if exceeds_tax_limit(found.rates, rate) {
        return Some(Refusal::TaxSum);
    }
    None
}

// For a listing, adds the SECURITY row only.
fn change_adding_record(reference: &Reference) -> Result<Change, AllocError>
    ensures { IfOk result (λ change. change ≡ row_change_adding_record reference.now) }
{
    match reference {
        Reference::Broker(broker) => Ok(Change::AddBroker(broker.clone()?)),
        Reference::Customer(customer) => Ok(Change::AddCustomer(customer.clone()?)),
        Reference::Account(account) => Ok(Change::AddAccount(account.clone()?)),
        Reference::Permission(permission) => Ok(Change::AddPermission(permission.clone()?)),
        Reference::Security(listing) => Ok(Change::AddSecurity(listing.security.clone()?)),
        Reference::Charge(charge) => Ok(Change::AddCharge(*charge)),
        Reference::Band(band) => Ok(Change::AddBand(band.clone()?)),
        Reference::TaxRate(tax) => Ok(Change::AddTaxRate(tax.clone()?)),
        Reference::CustomerTax(pays) => Ok(Change::AddCustomerTax(*pays)),
    }
}

fn initial_last_trade(listing: &Listing, stamp: Stamp) -> Result<LastTrade, AllocError>
    ensures { IfOk result (λ row. row ≡ spec.initial_last_trade_of_listing stamp listing.now) }
{
    Ok(LastTrade {
        symbol: listing.security.symbol.clone()?,
        stamp,
        price: listing.price,
        volume: Volume::before_first_trade(),
    })
}

fn reference_changes(
    alloc: Global,
    reference: &Reference,
    stamp: Stamp,
) -> Result<Vec<Change>, AllocError>
    ensures changes { IfOk result (λ changes. changes.items ≡ row_changes_adding_record stamp reference.now ++ change.SetLastStamp stamp ∷ []) }
{
    let mut changes = Vec::new(alloc);
    changes.push(change_adding_record(reference)?)?;
    if let Reference::Security(listing) = reference {
        changes.push(Change::AddLastTrade(initial_last_trade(listing, stamp)?))?;
    }
    changes.push(Change::SetLastStamp(stamp))?;
    Ok(changes)
}

/// Plans a new record of reference data: its row and, for a listing, its first LAST_TRADE row.
/// `last` is the stamp of the last accepted command, if any, and `now` the clock reading.
///
/// Refuses with the first that applies of `BadQty` (a band ends below its start), `NoAccount`,
/// `NoCustomer`, `NoBroker`, `NoTax` (the record names one that does not exist), `Exists` (the key
/// of a record that is no band, or the tax id of a customer, is in use), `Overlap` (with a band of
/// the same tier, type and exchange), `TaxSum` (the rates of the customer exceed 100 percent in
/// sum), `Range(Accounts)` (the customer has 10 accounts or more) and `ClockEnd` (no stamp later
/// than `last` exists). Fails with `Memory` only.
pub fn plan_reference(
    alloc: Global,
    reference: &Reference,
    found: ReferenceFacts,
    last: Option<Stamp>,
    now: Stamp,
) -> Planned<Plan>
    ensures planned { IfOk result (λ planned. MatchResult planned
        (IsReferencePlan reference.now found last now)
        (λ refusal. first_refusal (reference_checks reference.now found ++ later_stamp_check last now ∷ []) ≡ Some refusal)) }
    ensures fault { OnErr result (result ≡ Err Memory) }
{
    if let Some(refusal) = record_refusal(reference, found) {
        return Ok(Err(refusal));
    }
    let Some(stamp) = stamp_after(last, now) else {
        return Ok(Err(Refusal::ClockEnd));
    };
    let changes = reference_changes(alloc, reference, stamp)?;
    Ok(Ok(Plan {
        changes,
        reply: Reply::Booked(stamp),
    }))
}
