//! The limits of single columns. Amounts are in cents, quantities in shares. Most hold of every
//! value of the column's type; they are here because the condition `Form` names them.

ghost use Rattle.std.specs.Prelude.{◌≡◌, nat_le};
ghost use Rattle.brk_money.specs.Spelling.{is_within_amount_limit};
ghost use Rattle.brk_model.specs.Form as form;
ghost use Rattle.brk_model.specs.Limits as limits;
ghost use Rattle.brk_trade_rows.specs.Schemas.{abstract_schema};
ghost use Rattle.brk_trade_rows.specs.Sheets.{abstract_sheets};

use brk_money::{Amount, Cents, Id, MoveId, Price, Qty, Stamp};
use brk_ref::{ChargeAmount, Form, Text, Tier};
use brk_trade_rows::{Schema, Sheets};

pub(crate) fn is_valid_id(id: Id) -> bool
    ensures { result ≡ form.is_id id }
{
    1 <= id.get() && id.get() <= Id::GREATEST
}

pub(crate) fn is_valid_cash_row_id(id: MoveId) -> bool
    ensures { result ≡ form.is_cash_row_number id }
{
    1 <= id.get() && id.get() <= MoveId::GREATEST
}

pub(crate) fn is_valid_qty(schema: Schema, qty: Qty) -> bool
    ensures { result ≡ form.is_quantity_in_schema (abstract_schema schema) qty }
{
    1 <= qty.get() && qty.get() <= schema.greatest_qty()
}

pub(crate) fn is_valid_price(price: Price) -> bool
    ensures { result ≡ form.is_price price }
{
    1 <= price.get() && price.get() <= Price::GREATEST
}

pub(crate) fn is_valid_tier(tier: Tier) -> bool
    ensures { result ≡ form.is_tier tier }
{
    1 <= tier.get() && tier.get() <= 3
}

pub(crate) fn is_valid_cents(cents: Cents) -> bool
    ensures { result ≡ is_within_amount_limit cents }
{
    cents.get().unsigned_abs() <= Cents::GREATEST
}

pub(crate) fn is_valid_amount(amount: Amount) -> bool
    ensures { result ≡ nat_le amount limits.greatest_amount }
{
    amount.get() <= Amount::GREATEST
}

pub(crate) fn is_valid_charge(charge: ChargeAmount) -> bool
    ensures { result ≡ nat_le charge limits.greatest_charge }
{
    charge.get() <= ChargeAmount::GREATEST
}

/// Returns true if the stamp is not after the last stamp of the tables, and false if they have
/// none.
pub(crate) fn is_valid_stamp(sheets: &Sheets, stamp: Stamp) -> bool
    ensures { result ≡ form.is_at_most_last_stamp (abstract_sheets sheets.now) stamp }
{
    let Some(last) = sheets.last else {
        return false;
    };
    stamp.get() <= last.get()
}

pub(crate) fn is_valid_text<F: Form>(text: &Text<F>) -> bool
    ensures { result ≡ F.form text.now }
{
    F::has_form(text.as_str())
}
