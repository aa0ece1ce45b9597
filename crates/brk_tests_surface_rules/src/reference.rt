use crate::planned::expect_planned;
use brk_money::{Cents, Id, Planned, Qty, Rate, Stamp, TaxRate};
use brk_ref::{
    Account, Band, Broker, Charge, Customer, CustomerTax, Executor, Kept, Key, Listing, OldCashRow,
    Permission, RowNumber, Security, Tax, band_for, check_account, check_band, check_broker,
    check_charge, check_customer, check_customer_tax, check_permission, check_security, check_tax,
    overlaps, permitted, tax_sum,
};
use brk_tests_unit::expect::{expect_equal, expect_text};
use brk_tests_unit::texts::parse_text;
use brk_tests_unit::{Results, run_test};
use std::alloc::Global;
use std::slice;
use std::test::Fail;

const BROKER: [&[u8]; 2] = [b"1", b"Bo"];

const CUSTOMER: [&[u8]; 5] = [b"10", b"1", b"T10", b"Lee", b"Ann"];

const ACCOUNT: [&[u8]; 6] = [b"100", b"10", b"1", b"Main", b"1", b"10000.00"];

const SECURITY: [&[u8]; 5] = [b"ABC", b"Acme", b"NYSE", b"Tech", b"10.00"];

const CHARGE: [&[u8]; 3] = [b"TMB", b"1", b"5.00"];

const BAND: [&[u8]; 6] = [b"1", b"TMB", b"NYSE", b"1", b"999999", b"100"];

// It has the last quantity of `BAND` alone.
const LAST_BAND: [&[u8]; 6] = [b"1", b"TMB", b"NYSE", b"999999", b"999999", b"50"];

// 20 percent.
const TAX: [&[u8]; 3] = [b"1", b"State", b"20000"];

// 80.001 percent.
const LARGE_TAX: [&[u8]; 3] = [b"2", b"Fed", b"80001"];

const CUSTOMER_TAX: [&[u8]; 2] = [b"10", b"1"];

fn expect_broker(alloc: Global) -> Result<(), Fail> {
    let checked: Planned<Broker> = check_broker(alloc, &BROKER);
    let broker = expect_planned(checked)?;
    expect_equal(broker.id.get(), 1)?;
    expect_text(broker.name.as_str(), "Bo")
}

fn expect_customer(alloc: Global) -> Result<(), Fail> {
    let customer: Customer = expect_planned(check_customer(alloc, &CUSTOMER))?;
    expect_equal((customer.id.get(), customer.tier.get()), (10, 1))?;
    expect_text(customer.last_name.as_str(), "Lee")
}

fn expect_account(alloc: Global) -> Result<(), Fail> {
    let account: Account = expect_planned(check_account(alloc, &ACCOUNT))?;
    expect_equal(
        (account.customer.get(), account.opening.get()),
        (10, 1_000_000),
    )
}

fn expect_fields_of_listing(listing: &Listing) -> Result<(), Fail> {
    let security: &Security = &listing.security;
    expect_equal(listing.price.get(), 1_000)?;
    expect_text(security.symbol.as_str(), "ABC")?;
    expect_text(security.sector.as_str(), "Tech")
}

fn expect_security(alloc: Global) -> Result<(), Fail> {
    let listing = expect_planned(check_security(alloc, &SECURITY))?;
    expect_fields_of_listing(&listing)
}

fn expect_charge() -> Result<(), Fail> {
    let charge: Charge = check_charge(&CHARGE)?;
    expect_equal(charge.amount.get(), 500)
}

fn expect_customer_tax() -> Result<(), Fail> {
    let CustomerTax { customer, tax } = check_customer_tax(&CUSTOMER_TAX)?;
    expect_equal((customer.get(), tax.get()), (10, 1))
}

fn expect_overlap(alloc: Global, bands: &[Band]) -> Result<(), Fail> {
    let last = expect_planned(check_band(alloc, &LAST_BAND))?;
    expect_equal(overlaps(bands, &last), true)
}

fn expect_bands(alloc: Global) -> Result<(), Fail> {
    let qty = Qty::new(100).unwrap();
    let band: Band = expect_planned(check_band(alloc, &BAND))?;
    let bands = slice::from_ref(&band);
    expect_equal(band_for(bands, qty), Rate::new(100))?;
    expect_overlap(alloc, bands)
}

fn expect_tax_sum(
    alloc: Global,
    first: &[&[u8]],
    second: &[&[u8]],
    wanted: Option<TaxRate>,
) -> Result<(), Fail> {
    let first: Tax = expect_planned(check_tax(alloc, first))?;
    let second = expect_planned(check_tax(alloc, second))?;
    expect_equal(tax_sum(&[first, second]), wanted)
}

// The sum of 20 percent and 80.001 percent is above the greatest rate.
fn expect_tax_sums(alloc: Global) -> Result<(), Fail> {
    expect_tax_sum(alloc, &TAX, &TAX, TaxRate::new(40_000))?;
    expect_tax_sum(alloc, &TAX, &LARGE_TAX, None)
}

fn permission_with_tax_id(alloc: Global, tax_id: &[u8]) -> Result<Permission, Fail> {
    let fields: [&[u8]; 5] = [b"100", b"0000", tax_id, b"Lee", b"Ann"];
    expect_planned(check_permission(alloc, &fields))
}

fn executor_with_tax_id(alloc: Global, tax_id: &[u8]) -> Result<Executor, Fail> {
    let Permission {
        tax_id,
        last_name,
        first_name,
        ..
    } = permission_with_tax_id(alloc, tax_id)?;
    Ok(Executor {
        first_name,
        last_name,
        tax_id,
    })
}

fn expect_permitted(
    alloc: Global,
    customer: &Customer,
    permissions: &[Permission],
    tax_id: &[u8],
    wanted: bool,
) -> Result<(), Fail> {
    let executor = executor_with_tax_id(alloc, tax_id)?;
    expect_equal(permitted(customer, permissions, &executor), wanted)
}

// A customer needs no permission; an executor with another tax id needs one.
fn expect_executors_of_customer(alloc: Global, customer: &Customer) -> Result<(), Fail> {
    expect_permitted(alloc, customer, &[], b"T10", true)?;
    expect_permitted(alloc, customer, &[], b"T11", false)?;
    let permission = permission_with_tax_id(alloc, b"T11")?;
    expect_permitted(alloc, customer, slice::from_ref(&permission), b"T11", true)
}

fn expect_permitted_executors(alloc: Global) -> Result<(), Fail> {
    let customer = expect_planned(check_customer(alloc, &CUSTOMER))?;
    expect_executors_of_customer(alloc, &customer)
}

fn key_of_first_row(alloc: Global) -> Result<Key, Fail> {
    Ok(Key {
        batch: parse_text(alloc, "A")?,
        n: RowNumber::new(1).unwrap(),
    })
}

fn kept_reply(alloc: Global) -> Result<Kept, Fail> {
    Ok(Kept {
        key: key_of_first_row(alloc)?,
        row_text: String::from_str(alloc, "broker\x1f1\x1fBo")?,
        line: String::from_str(alloc, "1709251200000")?,
    })
}

fn expect_kept_reply(alloc: Global) -> Result<(), Fail> {
    let kept = kept_reply(alloc)?;
    let Key { batch, n } = &kept.key;
    expect_text(batch.as_str(), "A")?;
    expect_equal(n.get(), 1)?;
    expect_text(kept.row_text.as_str(), "broker\x1f1\x1fBo")?;
    expect_text(kept.line.as_str(), "1709251200000")
}

fn old_cash_row(alloc: Global) -> Result<OldCashRow, Fail> {
    Ok(OldCashRow {
        trade: Id::new(1).unwrap(),
        stamp: Stamp::nearest(1_709_251_200_017),
        amount: Cents::new(-102_510).unwrap(),
        name: String::from_str(alloc, "Market-Buy 100 shares of Acme")?,
    })
}

fn expect_old_cash_row(alloc: Global) -> Result<(), Fail> {
    let row = old_cash_row(alloc)?;
    expect_equal(
        (row.trade.get(), row.stamp.get(), row.amount.get()),
        (1, 1_709_251_200_017, -102_510),
    )?;
    expect_text(row.name.as_str(), "Market-Buy 100 shares of Acme")
}

fn expect_parsed_records(alloc: Global) -> Result<(), Fail> {
    expect_broker(alloc)?;
    expect_customer(alloc)?;
    expect_account(alloc)?;
    expect_security(alloc)?;
    expect_charge()?;
    expect_customer_tax()
}

// Checks public names of brk_ref: the records and the parsers of their fields, which executor is
// permitted, the rate of a quantity, bands that overlap, and the sum of tax rates.
fn surface_of_brk_ref(alloc: Global) -> Result<(), Fail> {
    expect_parsed_records(alloc)?;
    expect_bands(alloc)?;
    expect_tax_sums(alloc)?;
    expect_permitted_executors(alloc)?;
    expect_kept_reply(alloc)?;
    expect_old_cash_row(alloc)
}

pub fn run_tests(rt: &HostRuntime, results: &mut Results) {
    let alloc = rt.alloc();
    run_test!(rt, results, surface_of_brk_ref(alloc));
}
