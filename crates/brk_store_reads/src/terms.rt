//! The terms of orders in memory, made of what the tables have.

ghost use Rattle.std.specs.Prelude.{◌≡◌, false, map};
ghost use Rattle.brk_ref.specs.Records.{abstract_band, abstract_charge, abstract_customer, abstract_customer_tax, abstract_security_row, abstract_tax_rate};
ghost use Rattle.brk_store_index.specs.Terms.{AreTermsOf};
ghost use Rattle.brk_store_transactions.specs.Holds.{ReadPost};

use crate::whole_tables::{
    all_bands, all_charges, all_customer_taxes, all_customers, all_securities, all_tax_rates,
};
use brk_money::CallFault;
use brk_ref::{Band, Charge, Customer, CustomerTax, Security, Tax};
use brk_store_index::Terms;
use brk_store_transactions::begin_transaction;
use sqlite::{Alter, Connection};
use std::alloc::Global;

#[tactic(auto, using(brk_store_transactions::proofs::Ending::read_is_over))]
fn read_all_charges<S: Alter>(
    conn: &mut Connection<S>,
    alloc: Global,
) -> Result<Vec<Charge>, CallFault>
    requires { conn.old.in_transaction ≡ false }
    ensures mode { conn.new.in_transaction ≡ false }
    ensures read { ReadPost S.Store conn.old conn.new result (λ all t. map abstract_charge all.items ≡ t.charges) }
{
    let mut tx = begin_transaction(conn);
    all_charges(&mut tx, alloc)
}

#[tactic(auto, using(brk_store_transactions::proofs::Ending::read_is_over))]
fn read_all_bands<S: Alter>(conn: &mut Connection<S>, alloc: Global) -> Result<Vec<Band>, CallFault>
    requires { conn.old.in_transaction ≡ false }
    ensures mode { conn.new.in_transaction ≡ false }
    ensures read { ReadPost S.Store conn.old conn.new result (λ all t. map abstract_band all.items ≡ t.bands) }
{
    let mut tx = begin_transaction(conn);
    all_bands(&mut tx, alloc)
}

#[tactic(auto, using(brk_store_transactions::proofs::Ending::read_is_over))]
fn read_all_tax_rates<S: Alter>(
    conn: &mut Connection<S>,
    alloc: Global,
) -> Result<Vec<Tax>, CallFault>
    requires { conn.old.in_transaction ≡ false }
    ensures mode { conn.new.in_transaction ≡ false }
    ensures read { ReadPost S.Store conn.old conn.new result (λ all t. map abstract_tax_rate all.items ≡ t.tax_rates) }
{
    let mut tx = begin_transaction(conn);
    all_tax_rates(&mut tx, alloc)
}

#[tactic(auto, using(brk_store_transactions::proofs::Ending::read_is_over))]
fn read_all_customer_taxes<S: Alter>(
    conn: &mut Connection<S>,
    alloc: Global,
) -> Result<Vec<CustomerTax>, CallFault>
    requires { conn.old.in_transaction ≡ false }
    ensures mode { conn.new.in_transaction ≡ false }
    ensures read { ReadPost S.Store conn.old conn.new result (λ all t. map abstract_customer_tax all.items ≡ t.customer_taxes) }
{
    let mut tx = begin_transaction(conn);
    all_customer_taxes(&mut tx, alloc)
}

#[tactic(auto, using(brk_store_transactions::proofs::Ending::read_is_over))]
fn read_all_customers<S: Alter>(
    conn: &mut Connection<S>,
    alloc: Global,
) -> Result<Vec<Customer>, CallFault>
    requires { conn.old.in_transaction ≡ false }
    ensures mode { conn.new.in_transaction ≡ false }
    ensures read { ReadPost S.Store conn.old conn.new result (λ all t. map abstract_customer all.items ≡ t.customers) }
{
    let mut tx = begin_transaction(conn);
    all_customers(&mut tx, alloc)
}

#[tactic(auto, using(brk_store_transactions::proofs::Ending::read_is_over))]
fn read_all_securities<S: Alter>(
    conn: &mut Connection<S>,
    alloc: Global,
) -> Result<Vec<Security>, CallFault>
    requires { conn.old.in_transaction ≡ false }
    ensures mode { conn.new.in_transaction ≡ false }
    ensures read { ReadPost S.Store conn.old conn.new result (λ all t. map abstract_security_row all.items ≡ t.securities) }
{
    let mut tx = begin_transaction(conn);
    all_securities(&mut tx, alloc)
}

/// Returns the terms of all rows of CHARGE, COMMISSION_RATE, TAXRATE, CUSTOMER_TAXRATE, CUSTOMER and
/// SECURITY. Fails with `Memory` also if two rows have one key.
pub(crate) fn read_terms<S: Alter>(
    conn: &mut Connection<S>,
    alloc: Global,
) -> Result<Terms, CallFault>
    requires { conn.old.in_transaction ≡ false }
    ensures mode { conn.new.in_transaction ≡ false }
    ensures read { ReadPost S.Store conn.old conn.new result AreTermsOf }
{
    let customer_taxes = read_all_customer_taxes(conn, alloc)?;
    let customers = read_all_customers(conn, alloc)?;
    let securities = read_all_securities(conn, alloc)?;
    let charges = read_all_charges(conn, alloc)?;
    let bands = read_all_bands(conn, alloc)?;
    let taxes = read_all_tax_rates(conn, alloc)?;
    match Terms::of_rows(
        alloc,
        charges,
        bands,
        taxes,
        &customer_taxes,
        &customers,
        &securities,
    ) {
        Ok(terms) => Ok(terms),
        Err(_) => Err(CallFault::Memory),
    }
}
