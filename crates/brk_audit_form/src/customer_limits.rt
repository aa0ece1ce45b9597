//! The limits of a customer: at most 10 accounts, and tax rates that sum to at most the greatest
//! tax rate. A customer that a map does not contain has the sum 0.

ghost use Rattle.std.specs.Prelude.{◌≡◌, ℕ, ◌+◌, ◌==◌, ◌<◌, ◌≤◌, ◌^◌, cond, filter, length, nat_le, IfOk, OnOk, ◌&&◌};
ghost use Rattle.std.specs.List.{list_all};
ghost use Rattle.brk_model.specs.Form as form;
ghost use Rattle.brk_model.specs.Limits as limits;
ghost use Rattle.brk_trade_rows.specs.Sheets.{abstract_sheets};
ghost use Rattle.brk_audit_form.specs.Conditions.{HasSortedKeys};
ghost use Rattle.brk_audit_form.specs.Customers.{rate_of_tax_rate_or_zero, tax_rate_sum_of_payer, sum_at_customer_id};

use crate::references::find_tax_rate;
use brk_money::{Id, TaxRate};
use brk_ref::{AccountRow, Customer};
use brk_trade_rows::Sheets;
use std::alloc::{AllocError, Global};
use std::collections::BTreeMap;

// The greatest number of accounts of a customer.
const MOST_ACCOUNTS: u128 = 10;

fn add_to_sum(sums: &mut BTreeMap<u64, u128>, customer: Id, more: u32) -> Result<(), AllocError>
    requires room { sum_at_customer_id sums.old customer + 2 ^ 32 < 2 ^ 128 }
    ensures more { OnOk result ((q : ℕ) → sum_at_customer_id sums.new q ≡ sum_at_customer_id sums.old q + cond (customer == q) more 0) }
{
    let number = customer.get();
    let sum = sums.get(&number).copied().unwrap_or(0);
    sums.insert(number, sum + u128::from(more))?;
    Ok(())
}

fn count_accounts(alloc: Global, accounts: &[AccountRow]) -> Result<BTreeMap<u64, u128>, AllocError>
    ensures { IfOk result (λ counts. (q : ℕ) → sum_at_customer_id counts q ≡ length (filter (λ a. a.account.customer == q) accounts.now)) }
{
    let mut counts = BTreeMap::new(alloc);
    for row in accounts {
        add_to_sum(&mut counts, row.account.customer, 1)?;
    }
    Ok(counts)
}

// Returns the rate in hundred-thousandths.
fn rate_of_tax(sheets: &Sheets, tax: Id) -> u32
    requires { HasSortedKeys sheets.now }
    ensures rate { result ≡ rate_of_tax_rate_or_zero (abstract_sheets sheets.now) tax }
    ensures high { result ≤ limits.greatest_tax_rate }
{
    match find_tax_rate(sheets, tax) {
        Some(tax) => tax.rate.get(),
        None => 0,
    }
}

fn sum_tax_rates(alloc: Global, sheets: &Sheets) -> Result<BTreeMap<u64, u128>, AllocError>
    requires { HasSortedKeys sheets.now }
    ensures { IfOk result (λ sums. (q : ℕ) → sum_at_customer_id sums q ≡ tax_rate_sum_of_payer (abstract_sheets sheets.now) q) }
{
    let mut sums = BTreeMap::new(alloc);
    for row in &sheets.customer_taxes {
        let rate = rate_of_tax(sheets, row.tax);
        add_to_sum(&mut sums, row.customer, rate)?;
    }
    Ok(sums)
}

fn keeps_limits(
    counts: &BTreeMap<u64, u128>,
    sums: &BTreeMap<u64, u128>,
    customer: &Customer,
) -> bool
    ensures { result
        ≡ (nat_le (sum_at_customer_id counts.now customer.now.id) limits.most_accounts_per_customer
        && nat_le (sum_at_customer_id sums.now customer.now.id) limits.greatest_tax_rate) }
{
    let number = customer.id.get();
    let count = counts.get(&number).copied().unwrap_or(0);
    let sum = sums.get(&number).copied().unwrap_or(0);
    count <= MOST_ACCOUNTS && sum <= u128::from(TaxRate::GREATEST)
}

fn all_keep_limits(
    counts: &BTreeMap<u64, u128>,
    sums: &BTreeMap<u64, u128>,
    customers: &[Customer],
) -> bool
    ensures { result
        ≡ list_all (λ c. nat_le (sum_at_customer_id counts.now c.id) limits.most_accounts_per_customer
        && nat_le (sum_at_customer_id sums.now c.id) limits.greatest_tax_rate) customers.now }
{
    customers
        .iter()
        .all(|customer| keeps_limits(counts, sums, customer))
}

pub(crate) fn are_within_customer_limits(alloc: Global, sheets: &Sheets) -> Result<bool, AllocError>
    requires { HasSortedKeys sheets.now }
    ensures { IfOk result (λ holds. holds
        ≡ list_all (form.is_within_customer_limits (abstract_sheets sheets.now)) (abstract_sheets sheets.now).customers) }
{
    let counts = count_accounts(alloc, &sheets.accounts)?;
    let sums = sum_tax_rates(alloc, sheets)?;
    Ok(all_keep_limits(&counts, &sums, &sheets.customers))
}
