//! Reads of all rows of the tables of terms, sorted by key, ascending. A read fails with `Store` also if
//! a row is malformed.

ghost use Rattle.std.specs.Prelude.{◌≡◌, map};
ghost use Rattle.brk_ref.specs.Records.{abstract_band, abstract_charge, abstract_customer, abstract_customer_tax, abstract_security_row, abstract_tax_rate};
ghost use Rattle.brk_tables_schema.specs.Statements.{ReadsDeskTables};

use brk_money::CallFault;
use brk_ref::{Band, Charge, Customer, CustomerTax, Security, Tax};
use brk_tables_scan::rows::{
    charge_rows, commission_rate_rows, customer_rows, customer_tax_rows, security_rows,
    tax_rate_rows,
};
use brk_tables_schema::record::decode_rows;
use sqlite::{Alter, Transaction};
use std::alloc::Global;

pub(crate) fn all_charges<S: Alter>(
    tx: &mut Transaction<'_, S>,
    alloc: Global,
) -> Result<Vec<Charge>, CallFault>
    ensures same_reference { tx.new.conn.ghost_name ≡ tx.old.conn.ghost_name }
    ensures step { ReadsDeskTables S.Store tx.old tx.new result (λ all t. map abstract_charge all.items ≡ t.charges) }
{
    let rows = charge_rows(tx)?;
    decode_rows(alloc, &rows)
}

pub(crate) fn all_bands<S: Alter>(
    tx: &mut Transaction<'_, S>,
    alloc: Global,
) -> Result<Vec<Band>, CallFault>
    ensures same_reference { tx.new.conn.ghost_name ≡ tx.old.conn.ghost_name }
    ensures step { ReadsDeskTables S.Store tx.old tx.new result (λ all t. map abstract_band all.items ≡ t.bands) }
{
    let rows = commission_rate_rows(tx)?;
    decode_rows(alloc, &rows)
}

pub(crate) fn all_tax_rates<S: Alter>(
    tx: &mut Transaction<'_, S>,
    alloc: Global,
) -> Result<Vec<Tax>, CallFault>
    ensures same_reference { tx.new.conn.ghost_name ≡ tx.old.conn.ghost_name }
    ensures step { ReadsDeskTables S.Store tx.old tx.new result (λ all t. map abstract_tax_rate all.items ≡ t.tax_rates) }
{
    let rows = tax_rate_rows(tx)?;
    decode_rows(alloc, &rows)
}

pub(crate) fn all_customer_taxes<S: Alter>(
    tx: &mut Transaction<'_, S>,
    alloc: Global,
) -> Result<Vec<CustomerTax>, CallFault>
    ensures same_reference { tx.new.conn.ghost_name ≡ tx.old.conn.ghost_name }
    ensures step { ReadsDeskTables S.Store tx.old tx.new result (λ all t. map abstract_customer_tax all.items ≡ t.customer_taxes) }
{
    let rows = customer_tax_rows(tx)?;
    decode_rows(alloc, &rows)
}

pub(crate) fn all_customers<S: Alter>(
    tx: &mut Transaction<'_, S>,
    alloc: Global,
) -> Result<Vec<Customer>, CallFault>
    ensures same_reference { tx.new.conn.ghost_name ≡ tx.old.conn.ghost_name }
    ensures step { ReadsDeskTables S.Store tx.old tx.new result (λ all t. map abstract_customer all.items ≡ t.customers) }
{
    let rows = customer_rows(tx)?;
    decode_rows(alloc, &rows)
}

pub(crate) fn all_securities<S: Alter>(
    tx: &mut Transaction<'_, S>,
    alloc: Global,
) -> Result<Vec<Security>, CallFault>
    ensures same_reference { tx.new.conn.ghost_name ≡ tx.old.conn.ghost_name }
    ensures step { ReadsDeskTables S.Store tx.old tx.new result (λ all t. map abstract_security_row all.items ≡ t.securities) }
{
    let rows = security_rows(tx)?;
    decode_rows(alloc, &rows)
}
