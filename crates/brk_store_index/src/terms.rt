//! The terms of orders: charges, commission bands and taxes, the taxes of each customer, and customers
//! and securities by key.

ghost use Rattle.std.specs.Prelude.{◌≡◌, ◌==◌, ◌&&◌, IfOk, OnOk, bytes_eq, filter, find, map, option_map};
ghost use Rattle.brk_money.specs.Kinds.{is_same_trade_type};
ghost use Rattle.brk_model.specs.Tables.{Tables};
ghost use Rattle.brk_ref.specs.Records.{abstract_band, abstract_charge, abstract_customer, abstract_customer_tax, abstract_security_row, abstract_tax_rate};
ghost use Rattle.brk_store_index.specs.Groups.{ages_of_number};
ghost use Rattle.brk_store_index.specs.Terms.{AreCustomerTaxesOf, AreTermsOf, HaveRows, customer_tax_of_age};
ghost use Rattle.brk_trade_rows.specs.Changes.{tables_with_band, tables_with_charge, tables_with_customer, tables_with_customer_tax, tables_with_security, tables_with_tax_rate};

use crate::age::RowAge;
use crate::by_key::{CustomersById, SecuritiesBySymbol};
use crate::by_number::AgesByNumber;
use crate::lost::IndexLost;
use crate::ranked::insert_by_rank;
use brk_money::{Id, TradeType};
use brk_ref::{Band, Charge, Customer, CustomerTax, Exchange, Security, Symbol, Tax, Tier};
use std::alloc::{AllocError, Global};
use std::collections::VecDeque;

/// The rows of CHARGE, COMMISSION_RATE and TAXRATE in the order of their keys, and the taxes that
/// each customer pays; the customers by id, and the securities by symbol.
#[derive(Drop)]
pub struct Terms {
    charges: Vec<Charge>,
    bands: Vec<Band>,
    taxes: Vec<Tax>,
    customer_taxes: AgesByNumber,
    customers: CustomersById,
    securities: SecuritiesBySymbol,
}

// Fails also if a customer has a tax twice.
fn customer_taxes_of_rows(alloc: Global, rows: &[CustomerTax]) -> Result<AgesByNumber, IndexLost>
    ensures { IfOk result (λ taxes. AreCustomerTaxesOf taxes (map abstract_customer_tax rows.now)) }
{
    let mut taxes = AgesByNumber::new(alloc);
    for row in rows {
        taxes.insert(row.customer.get(), RowAge::of_id(row.tax))?;
    }
    Ok(taxes)
}

fn is_charge_for(charge: &Charge, kind: TradeType, tier: Tier) -> bool
    ensures { result ≡ is_same_trade_type charge.now.kind kind && (charge.now.tier == tier) }
{
    charge.kind == kind && charge.tier == tier
}

fn find_charge(rows: &[Charge], kind: TradeType, tier: Tier) -> Option<Charge>
    ensures { option_map abstract_charge result ≡ find (λ r. is_same_trade_type r.kind kind && (r.tier == tier)) (map abstract_charge rows.now) }
{
    let Some(charge) = rows.iter().find(|charge| is_charge_for(charge, kind, tier)) else {
        return None;
    };
    Some(*charge)
}

fn is_band_for(band: &Band, tier: Tier, kind: TradeType, exchange: &Exchange) -> bool
    ensures { result ≡ (band.now.tier == tier) && is_same_trade_type band.now.kind kind && bytes_eq band.now.exchange exchange.now }
{
    band.tier == tier && band.kind == kind && band.exchange.as_str() == exchange.as_str()
}

fn copy_band(band: &Band) -> Result<Band, AllocError>
    ensures { IfOk result (λ copy. abstract_band copy ≡ abstract_band band.now) }
{
    band.clone()
}

fn find_bands(
    alloc: Global,
    rows: &[Band],
    tier: Tier,
    kind: TradeType,
    exchange: &Exchange,
) -> Result<Vec<Band>, AllocError>
    ensures { IfOk result (λ found. map abstract_band found.items
        ≡ filter (λ r. (r.tier == tier) && is_same_trade_type r.kind kind && bytes_eq r.exchange exchange.now) (map abstract_band rows.now)) }
{
    let mut found = Vec::new(alloc);
    for band in rows {
        if is_band_for(band, tier, kind, exchange) {
            let copy = copy_band(band)?;
            found.push(copy)?;
        }
    }
    Ok(found)
}

fn copy_tax(tax: &Tax) -> Result<Tax, AllocError>
    ensures { IfOk result (λ copy. abstract_tax_rate copy ≡ abstract_tax_rate tax.now) }
{
    tax.clone()
}

fn has_tax_id(tax: &Tax, id: Id) -> bool
    ensures { result ≡ (tax.now.id == id) }
{
    tax.id == id
}

fn find_tax(rows: &[Tax], id: Id) -> Result<Option<Tax>, AllocError>
    ensures { IfOk result (λ tax. option_map abstract_tax_rate tax ≡ find (λ r. r.id == id) (map abstract_tax_rate rows.now)) }
{
    let Some(tax) = rows.iter().find(|tax| has_tax_id(tax, id)) else {
        return Ok(None);
    };
    let copy = copy_tax(tax)?;
    Ok(Some(copy))
}

fn taxes_of_ages(
    alloc: Global,
    customer: Id,
    ages: &VecDeque<RowAge>,
) -> Result<Vec<CustomerTax>, AllocError>
    ensures { IfOk result (λ all. map abstract_customer_tax all.items ≡ map (customer_tax_of_age customer) ages.now.items) }
{
    let mut all = Vec::new(alloc);
    for place in 0..ages.len() {
        let tax = ages[place].id;
        all.push(CustomerTax { customer, tax })?;
    }
    Ok(all)
}

impl Terms {
    /// Creates the terms of all rows of CHARGE, COMMISSION_RATE, TAXRATE, CUSTOMER_TAXRATE, CUSTOMER and
    /// SECURITY, in the sequence of the table. Fails also if two rows have one key.
    pub fn of_rows(
        alloc: Global,
        charges: Vec<Charge>,
        bands: Vec<Band>,
        taxes: Vec<Tax>,
        customer_taxes: &[CustomerTax],
        customers: &[Customer],
        securities: &[Security],
    ) -> Result<Terms, IndexLost>
        ensures { IfOk result (λ terms. HaveRows terms (map abstract_charge charges.items) (map abstract_band bands.items)
            (map abstract_tax_rate taxes.items) (map abstract_customer_tax customer_taxes.now)
            (map abstract_customer customers.now) (map abstract_security_row securities.now)) }
    {
        let customer_taxes = customer_taxes_of_rows(alloc, customer_taxes)?;
        let customers = CustomersById::of_rows(alloc, customers)?;
        let securities = SecuritiesBySymbol::of_rows(alloc, securities)?;
        Ok(Terms {
            charges,
            bands,
            taxes,
            customer_taxes,
            customers,
            securities,
        })
    }

    pub(crate) fn add_charge(&mut self, charge: &Charge) -> Result<(), IndexLost>
        ensures { OnOk result ((t : Tables) → AreTermsOf self.old t → AreTermsOf self.new (tables_with_charge (abstract_charge charge.now) t)) }
    {
        insert_by_rank(&mut self.charges, *charge)
    }

    pub(crate) fn add_band(&mut self, band: &Band) -> Result<(), IndexLost>
        ensures { OnOk result ((t : Tables) → AreTermsOf self.old t → AreTermsOf self.new (tables_with_band (abstract_band band.now) t)) }
    {
        let copy = copy_band(band)?;
        insert_by_rank(&mut self.bands, copy)
    }

    pub(crate) fn add_tax(&mut self, tax: &Tax) -> Result<(), IndexLost>
        ensures { OnOk result ((t : Tables) → AreTermsOf self.old t → AreTermsOf self.new (tables_with_tax_rate (abstract_tax_rate tax.now) t)) }
    {
        let copy = copy_tax(tax)?;
        insert_by_rank(&mut self.taxes, copy)
    }

    // Fails also if the customer has the tax.
    pub(crate) fn add_customer_tax(&mut self, pays: &CustomerTax) -> Result<(), IndexLost>
        ensures { OnOk result ((t : Tables) → AreTermsOf self.old t → AreTermsOf self.new (tables_with_customer_tax (abstract_customer_tax pays.now) t)) }
    {
        self.customer_taxes
            .insert(pays.customer.get(), RowAge::of_id(pays.tax))
    }

    // Fails also if the id has a customer.
    pub(crate) fn add_customer(&mut self, customer: &Customer) -> Result<(), IndexLost>
        ensures { OnOk result ((t : Tables) → AreTermsOf self.old t → AreTermsOf self.new (tables_with_customer (abstract_customer customer.now) t)) }
    {
        self.customers.add(customer)
    }

    // Fails also if the symbol has a security.
    pub(crate) fn add_security(&mut self, security: &Security) -> Result<(), IndexLost>
        ensures { OnOk result ((t : Tables) → AreTermsOf self.old t → AreTermsOf self.new (tables_with_security (abstract_security_row security.now) t)) }
    {
        self.securities.add(security)
    }

    /// Returns the customer with the id.
    pub fn customer(&self, id: Id) -> Result<Option<Customer>, AllocError>
        ensures { IfOk result (λ customer. (t : Tables) → AreTermsOf self.now t → option_map abstract_customer customer ≡ find (λ r. r.id == id) t.customers) }
    {
        self.customers.customer(id)
    }

    /// Returns the security with the symbol.
    pub fn security(&self, symbol: &Symbol) -> Result<Option<Security>, AllocError>
        ensures { IfOk result (λ security. (t : Tables) → AreTermsOf self.now t → option_map abstract_security_row security ≡ find (λ r. bytes_eq r.symbol symbol.now) t.securities) }
    {
        self.securities.security(symbol)
    }

    /// Returns the charge of a trade type and a customer tier.
    pub fn charge(&self, kind: TradeType, tier: Tier) -> Option<Charge>
        ensures { (t : Tables) → AreTermsOf self.now t
            → option_map abstract_charge result ≡ find (λ r. is_same_trade_type r.kind kind && (r.tier == tier)) t.charges }
    {
        find_charge(&self.charges, kind, tier)
    }

    /// Returns the commission bands of a customer tier, a trade type and an exchange, sorted by lower
    /// bound, ascending.
    pub fn bands(
        &self,
        alloc: Global,
        tier: Tier,
        kind: TradeType,
        exchange: &Exchange,
    ) -> Result<Vec<Band>, AllocError>
        ensures { IfOk result (λ bands. (t : Tables) → AreTermsOf self.now t → map abstract_band bands.items
            ≡ filter (λ r. (r.tier == tier) && is_same_trade_type r.kind kind && bytes_eq r.exchange exchange.now) t.bands) }
    {
        find_bands(alloc, &self.bands, tier, kind, exchange)
    }

    /// Returns the tax with the id, with its rate.
    pub fn tax(&self, id: Id) -> Result<Option<Tax>, AllocError>
        ensures { IfOk result (λ tax. (t : Tables) → AreTermsOf self.now t → option_map abstract_tax_rate tax ≡ find (λ r. r.id == id) t.tax_rates) }
    {
        find_tax(&self.taxes, id)
    }

    /// Returns a row of CUSTOMER_TAXRATE for each tax that the customer pays, sorted by the id of the
    /// tax, ascending.
    pub fn taxes_of_customer(
        &self,
        alloc: Global,
        customer: Id,
    ) -> Result<Vec<CustomerTax>, AllocError>
        ensures { IfOk result (λ all. map abstract_customer_tax all.items
            ≡ map (customer_tax_of_age customer) (ages_of_number self.now.customer_taxes customer)) }
    {
        match self.customer_taxes.ages(customer.get()) {
            Some(ages) => taxes_of_ages(alloc, customer, ages),
            None => Ok(Vec::new(alloc)),
        }
    }
}
