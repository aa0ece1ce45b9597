//! The customers by id, and the securities by symbol.

ghost use Rattle.std.specs.Prelude.{◌≡◌, IfOk, OnOk, [], map, option_map};
ghost use Rattle.brk_ref.specs.Records.{abstract_customer, abstract_security_row};
ghost use Rattle.brk_store_index.specs.ByKey.{AddsCustomer, AddsSecurity, AreCustomersOf, AreSecuritiesOf, customer_with_id, security_with_symbol};

use crate::lost::IndexLost;
use brk_money::Id;
use brk_ref::{Customer, Security, Symbol};
use std::alloc::{AllocError, Global};
use std::collections::HashMap;

fn copy_customer(customer: &Customer) -> Result<Customer, AllocError>
    ensures { IfOk result (λ copy. abstract_customer copy ≡ abstract_customer customer.now) }
{
    customer.clone()
}

fn copy_security(security: &Security) -> Result<Security, AllocError>
    ensures { IfOk result (λ copy. abstract_security_row copy ≡ abstract_security_row security.now) }
{
    security.clone()
}

/// The customers, by id.
#[derive(Drop)]
pub(crate) struct CustomersById {
    customers: HashMap<u64, Customer>,
}

impl CustomersById {
    pub(crate) fn new(alloc: Global) -> CustomersById
        ensures { AreCustomersOf result [] }
    {
        CustomersById {
            customers: HashMap::new(alloc),
        }
    }

    // Fails also if the id has a customer already.
    pub(crate) fn add(&mut self, customer: &Customer) -> Result<(), IndexLost>
        ensures { OnOk result (AddsCustomer self.old (abstract_customer customer.now) self.new) }
    {
        if self.customers.contains_key(&customer.id.get()) {
            return Err(IndexLost);
        }
        let copy = copy_customer(customer)?;
        self.customers.insert(customer.id.get(), copy)?;
        Ok(())
    }

    // Fails also if two of the rows have one id.
    pub(crate) fn of_rows(alloc: Global, rows: &[Customer]) -> Result<CustomersById, IndexLost>
        ensures { IfOk result (λ customers. AreCustomersOf customers (map abstract_customer rows.now)) }
    {
        let mut customers = CustomersById::new(alloc);
        for row in rows {
            customers.add(row)?;
        }
        Ok(customers)
    }

    pub(crate) fn customer(&self, id: Id) -> Result<Option<Customer>, AllocError>
        ensures { IfOk result (λ customer. option_map abstract_customer customer ≡ customer_with_id self.now id) }
    {
        let Some(customer) = self.customers.get(&id.get()) else {
            return Ok(None);
        };
        let copy = copy_customer(customer)?;
        Ok(Some(copy))
    }
}

/// The securities, by symbol.
#[derive(Drop)]
pub(crate) struct SecuritiesBySymbol {
    alloc: Global,
    securities: HashMap<String, Security>,
}

impl SecuritiesBySymbol {
    pub(crate) fn new(alloc: Global) -> SecuritiesBySymbol
        ensures { AreSecuritiesOf result [] }
    {
        SecuritiesBySymbol {
            alloc,
            securities: HashMap::new(alloc),
        }
    }

    // Fails also if the symbol has a security already.
    pub(crate) fn add(&mut self, security: &Security) -> Result<(), IndexLost>
        ensures { OnOk result (AddsSecurity self.old (abstract_security_row security.now) self.new) }
    {
        if self.securities.contains_key(security.symbol.as_str()) {
            return Err(IndexLost);
        }
        let symbol = String::from_str(self.alloc, security.symbol.as_str())?;
        let copy = copy_security(security)?;
        self.securities.insert(symbol, copy)?;
        Ok(())
    }

    // Fails also if two of the rows have one symbol.
    pub(crate) fn of_rows(alloc: Global, rows: &[Security]) -> Result<SecuritiesBySymbol, IndexLost>
        ensures { IfOk result (λ securities. AreSecuritiesOf securities (map abstract_security_row rows.now)) }
    {
        let mut securities = SecuritiesBySymbol::new(alloc);
        for row in rows {
            securities.add(row)?;
        }
        Ok(securities)
    }

    pub(crate) fn security(&self, symbol: &Symbol) -> Result<Option<Security>, AllocError>
        ensures { IfOk result (λ security. option_map abstract_security_row security ≡ security_with_symbol self.now symbol.now) }
    {
        let Some(security) = self.securities.get(symbol.as_str()) else {
            return Ok(None);
        };
        let copy = copy_security(security)?;
        Ok(Some(copy))
    }
}
