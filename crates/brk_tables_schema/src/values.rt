//! Typed values as parameters of an SQL statement. `None` is NULL. Money is in cents, commission
//! rates are in hundredths of a percent, tax rates in hundred-thousandths, stamps in milliseconds
//! since 1970-01-01 UTC, and days in days since then.

ghost use Rattle.std.specs.Prelude.{◌≡◌, pos};
ghost use Rattle.sqlite_value.specs.Value.{owned};
ghost use Rattle.sqlite_value.specs.declared.value.Value.TheVariants.{Int, Text};
ghost use Rattle.brk_money.specs.Kinds.{trade_status_code, tax_status_number, trade_type_code};
ghost use Rattle.brk_ref.specs.Rows.{cash_type_text};
ghost use Rattle.brk_tables_schema.specs.Cells.{flag_as_value, optional_natural_as_value};

use brk_money::{
    Cents, Day, Id, MoveId, Price, Qty, Rate, Stamp, Status, TaxRate, TaxStatus, TradeType,
};
use brk_ref::{CashType, ChargeAmount, RowNumber, Tier, Volume};
use brk_trade_rows::Amount;
use sqlite_value::value::ValueRef;

pub fn integer_param<'a>(number: i64) -> ValueRef<'a>
    ensures { owned result ≡ Int number }
{
    ValueRef::Int(number)
}

pub fn id_param<'a>(id: Id) -> ValueRef<'a>
    ensures { owned result ≡ Int (pos id) }
{
    ValueRef::Int(id.get() as i64)
}

pub fn cash_row_id_param<'a>(id: MoveId) -> ValueRef<'a>
    ensures { owned result ≡ Int (pos id) }
{
    ValueRef::Int(id.get() as i64)
}

pub fn optional_id_param<'a>(id: Option<Id>) -> ValueRef<'a>
    ensures { owned result ≡ optional_natural_as_value id }
{
    match id {
        Some(id) => ValueRef::Int(id.get() as i64),
        None => ValueRef::Null,
    }
}

pub fn row_number_param<'a>(number: RowNumber) -> ValueRef<'a>
    ensures { owned result ≡ Int (pos number) }
{
    ValueRef::Int(number.get() as i64)
}

pub fn tier_param<'a>(tier: Tier) -> ValueRef<'a>
    ensures { owned result ≡ Int (pos tier) }
{
    ValueRef::Int(tier.get() as i64)
}

/// Converts a tax status to its number, 0 to 2.
pub fn tax_status_param<'a>(tax_status: TaxStatus) -> ValueRef<'a>
    ensures { owned result ≡ Int (pos (tax_status_number tax_status)) }
{
    ValueRef::Int(tax_status.number() as i64)
}

pub fn cents_param<'a>(cents: Cents) -> ValueRef<'a>
    ensures { owned result ≡ Int cents }
{
    ValueRef::Int(cents.get())
}

pub fn stamp_param<'a>(stamp: Stamp) -> ValueRef<'a>
    ensures { owned result ≡ Int (pos stamp) }
{
    ValueRef::Int(stamp.get())
}

pub fn price_param<'a>(price: Price) -> ValueRef<'a>
    ensures { owned result ≡ Int (pos price) }
{
    ValueRef::Int(price.get() as i64)
}

pub fn qty_param<'a>(qty: Qty) -> ValueRef<'a>
    ensures { owned result ≡ Int (pos qty) }
{
    ValueRef::Int(qty.get() as i64)
}

pub fn rate_param<'a>(rate: Rate) -> ValueRef<'a>
    ensures { owned result ≡ Int (pos rate) }
{
    ValueRef::Int(rate.get() as i64)
}

pub fn tax_rate_param<'a>(rate: TaxRate) -> ValueRef<'a>
    ensures { owned result ≡ Int (pos rate) }
{
    ValueRef::Int(rate.get() as i64)
}

pub fn amount_param<'a>(amount: Amount) -> ValueRef<'a>
    ensures { owned result ≡ Int (pos amount) }
{
    ValueRef::Int(amount.get() as i64)
}

pub fn charge_param<'a>(charge: ChargeAmount) -> ValueRef<'a>
    ensures { owned result ≡ Int (pos charge) }
{
    ValueRef::Int(charge.get() as i64)
}

pub fn volume_param<'a>(volume: Volume) -> ValueRef<'a>
    ensures { owned result ≡ Int (pos volume) }
{
    ValueRef::Int(volume.get() as i64)
}

/// Converts a trade type to its code, such as TMB.
pub fn trade_type_param<'a>(kind: TradeType) -> ValueRef<'a>
    ensures { owned result ≡ Text (trade_type_code kind) }
{
    ValueRef::Text(kind.code().as_bytes())
}

pub fn text_param(text: &str) -> ValueRef<'_>
    ensures { owned result ≡ Text text.now }
{
    ValueRef::Text(text.as_bytes())
}

/// Converts true to 1 and false to 0.
pub fn flag_param<'a>(is: bool) -> ValueRef<'a>
    ensures { owned result ≡ flag_as_value is }
{
    if is {
        ValueRef::Int(1)
    } else {
        ValueRef::Int(0)
    }
}

pub fn optional_price_param<'a>(price: Option<Price>) -> ValueRef<'a>
    ensures { owned result ≡ optional_natural_as_value price }
{
    match price {
        Some(price) => ValueRef::Int(price.get() as i64),
        None => ValueRef::Null,
    }
}

/// Converts the status of a trade to its code, such as CMPT.
pub fn status_param<'a>(status: Status) -> ValueRef<'a>
    ensures { owned result ≡ Text (trade_status_code status) }
{
    ValueRef::Text(status.code().as_bytes())
}

/// Converts the cash type of a settlement to its text, such as `Cash Account`.
pub fn cash_type_param<'a>(cash_type: CashType) -> ValueRef<'a>
    ensures { owned result ≡ Text (cash_type_text cash_type) }
{
    ValueRef::Text(cash_type.text().as_bytes())
}

pub fn day_param<'a>(day: Day) -> ValueRef<'a>
    ensures { owned result ≡ Int (pos day) }
{
    ValueRef::Int(day.get() as i64)
}
