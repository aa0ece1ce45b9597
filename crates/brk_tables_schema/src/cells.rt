//! The columns of a row as typed values. Each function reads the column with the index `at`, from
//! 0. A missing or malformed column is the error `DecodeError::Form`.

ghost use Rattle.std.specs.Prelude.{◌≡◌, ◌≢◌, ◌<◌, ◌^◌, Err, IfOk, MatchOption, OnOk, bytes_eq, length, nat_lt, pos, string_bytes, true, false};
ghost use Rattle.sqlite_value.specs.declared.value.Value.TheVariants.{Int, Text};
ghost use Rattle.sqlite_value.specs.Order.{column};
ghost use Rattle.brk_money.specs.Kinds.{trade_status_code, tax_status_number, trade_type_code};
ghost use Rattle.brk_ref.specs.Rows.{cash_type_text};
ghost use Rattle.brk_model.specs.Form.{is_id, is_price};
ghost use Rattle.brk_tables_schema.specs.Cells.{flag_as_value, optional_natural_as_value};
ghost use Rattle.brk_tables_schema.specs.Formed.{is_signed_amount_cell, is_charge_cell, is_day_cell, is_flag_cell, is_id_cell, is_cash_type_text};
ghost use Rattle.brk_tables_schema.specs.Formed.{is_status_code, is_tax_status_number, is_null_or_stamp_cell, is_null_or_natural_cell};
ghost use Rattle.brk_tables_schema.specs.Formed.{is_cash_row_number_cell, is_natural_cell, is_integer_cell, is_price_cell, is_quantity_cell};
ghost use Rattle.brk_tables_schema.specs.Formed.{is_commission_rate_cell, is_stamp_cell, is_status_cell, is_amount_cell, is_tax_rate_cell};
ghost use Rattle.brk_tables_schema.specs.Formed.{is_tax_status_cell, is_utf8_cell, is_tier_cell, is_trade_type_cell, is_text_cell};
ghost use Rattle.brk_tables_schema.specs.declared.decode_error.DecodeError.TheVariants.{Form as Formless};

use crate::decode_error::{DecodeError, decode_error_of};
use brk_money::{
    Cents, Day, Id, MoveId, Price, Qty, Rate, Stamp, Status, TaxRate, TaxStatus, TradeType,
};
use brk_ref::{
    CashType, ChargeAmount, Form, RowNumber, Text as FormedText, Tier, Volume, parse_type,
};
use brk_trade_rows::Amount;
use sqlite::Row;
use sqlite::types::FromSql;
use sqlite_value::value::ValueRef;

/// Fails with `Form` if the row has more or fewer than `count` columns.
pub fn check_column_count(row: &Row, count: usize) -> Result<(), DecodeError>
    ensures columns { OnOk result (length row.now ≡ count) }
    ensures form { result ≡ Err Formless → length row.now ≢ count }
{
    if row.column_count() == count {
        Ok(())
    } else {
        Err(DecodeError::Form)
    }
}

fn read_column<T: FromSql>(row: &Row, at: usize) -> Result<T, DecodeError>
    ensures value { IfOk result (T.FromSql.reads_as (column row.now at)) }
    ensures form { result ≡ Err Formless → at < length row.now → ¬ T.FromSql.is_readable (column row.now at) }
{
    match row.get(at) {
        Ok(value) => Ok(value),
        Err(error) => Err(decode_error_of(error)),
    }
}

// Borrows the bytes of a text, which need not be UTF-8. A BLOB is no text.
fn bytes_cell(row: &Row, at: usize) -> Result<&[u8], DecodeError>
    ensures value { IfOk result (λ bytes. column row.now at ≡ Text bytes.now) }
    ensures form { result ≡ Err Formless → at < length row.now → is_text_cell (λ _. true) (column row.now at) ≡ false }
{
    match row.get_ref(at) {
        Ok(ValueRef::Text(bytes)) => Ok(bytes),
        _ => Err(DecodeError::Form),
    }
}

pub fn integer_cell(row: &Row, at: usize) -> Result<i64, DecodeError>
    ensures value { IfOk result (λ number. column row.now at ≡ Int number) }
    ensures form { result ≡ Err Formless → at < length row.now → is_integer_cell (column row.now at) ≡ false }
{
    read_column(row, at)
}

pub fn natural_cell(row: &Row, at: usize) -> Result<u64, DecodeError>
    ensures value { IfOk result (λ number. column row.now at ≡ Int (pos number)) }
    ensures form { result ≡ Err Formless → at < length row.now → is_natural_cell (λ _. true) (column row.now at) ≡ false }
{
    read_column(row, at)
}

pub fn u32_cell(row: &Row, at: usize) -> Result<u32, DecodeError>
    ensures value { IfOk result (λ number. column row.now at ≡ Int (pos number)) }
    ensures form { result ≡ Err Formless → at < length row.now → is_natural_cell (λ n. nat_lt n (2 ^ 32)) (column row.now at) ≡ false }
{
    read_column(row, at)
}

#[tactic(auto, using(crate::proofs::Unformed::no_text))]
pub fn text_cell(row: &Row, at: usize) -> Result<String, DecodeError>
    ensures value { IfOk result (λ text. column row.now at ≡ Text (string_bytes text)) }
    ensures form { result ≡ Err Formless → at < length row.now → is_utf8_cell (column row.now at) ≡ false }
{
    read_column(row, at)
}

/// Reads a text of the format `F`.
#[tactic(auto, using(crate::proofs::Unformed::no_formed_text))]
pub fn formed_text_cell<F: Form>(row: &Row, at: usize) -> Result<FormedText<F>, DecodeError>
    ensures value { IfOk result (λ text. column row.now at ≡ Text text) }
    ensures form { result ≡ Err Formless → at < length row.now → is_text_cell F.form (column row.now at) ≡ false }
{
    FormedText::new(text_cell(row, at)?).ok_or(DecodeError::Form)
}

/// Reads the number of a row of a batch, from 1 to 10^12.
pub fn row_number_cell(row: &Row, at: usize) -> Result<RowNumber, DecodeError>
    ensures value { IfOk result (λ number. column row.now at ≡ Int (pos number)) }
    ensures form { result ≡ Err Formless → at < length row.now → is_id_cell (column row.now at) ≡ false }
{
    RowNumber::new(natural_cell(row, at)?).ok_or(DecodeError::Form)
}

/// Reads an id, from 1 to 10^12.
pub fn id_cell(row: &Row, at: usize) -> Result<Id, DecodeError>
    ensures value { IfOk result (λ id. column row.now at ≡ Int (pos id)) }
    ensures form { result ≡ Err Formless → at < length row.now → is_id_cell (column row.now at) ≡ false }
{
    Id::new(natural_cell(row, at)?).ok_or(DecodeError::Form)
}

/// Reads the number of a cash row (CM_ID), from 1 to 2 * 10^12.
pub fn cash_row_id_cell(row: &Row, at: usize) -> Result<MoveId, DecodeError>
    ensures value { IfOk result (λ id. column row.now at ≡ Int (pos id)) }
    ensures form { result ≡ Err Formless → at < length row.now → is_cash_row_number_cell (column row.now at) ≡ false }
{
    MoveId::new(natural_cell(row, at)?).ok_or(DecodeError::Form)
}

/// Reads an id, from 1 to 10^12, or `None` from NULL.
pub fn optional_id_cell(row: &Row, at: usize) -> Result<Option<Id>, DecodeError>
    ensures value { IfOk result (λ id. column row.now at ≡ optional_natural_as_value id) }
    ensures form { result ≡ Err Formless → at < length row.now → is_null_or_natural_cell is_id (column row.now at) ≡ false }
{
    let number: Option<u64> = read_column(row, at)?;
    let Some(number) = number else {
        return Ok(None);
    };
    Ok(Some(Id::new(number).ok_or(DecodeError::Form)?))
}

/// Reads a customer tier, from 1 to 3.
pub fn tier_cell(row: &Row, at: usize) -> Result<Tier, DecodeError>
    ensures value { IfOk result (λ tier. column row.now at ≡ Int (pos tier)) }
    ensures form { result ≡ Err Formless → at < length row.now → is_tier_cell (column row.now at) ≡ false }
{
    Tier::new(natural_cell(row, at)?).ok_or(DecodeError::Form)
}

/// Reads an amount, from 0 to 10^17 cents.
pub fn amount_cell(row: &Row, at: usize) -> Result<Amount, DecodeError>
    ensures value { IfOk result (λ amount. column row.now at ≡ Int (pos amount)) }
    ensures form { result ≡ Err Formless → at < length row.now → is_amount_cell (column row.now at) ≡ false }
{
    Amount::new(natural_cell(row, at)?).ok_or(DecodeError::Form)
}

/// Reads a volume, from 0 to 10^17 shares.
pub fn volume_cell(row: &Row, at: usize) -> Result<Volume, DecodeError>
    ensures value { IfOk result (λ volume. column row.now at ≡ Int (pos volume)) }
    ensures form { result ≡ Err Formless → at < length row.now → is_amount_cell (column row.now at) ≡ false }
{
    Volume::new(natural_cell(row, at)?).ok_or(DecodeError::Form)
}

/// Reads a quantity, from 1 to 9,999,999 shares.
pub fn qty_cell(row: &Row, at: usize) -> Result<Qty, DecodeError>
    ensures value { IfOk result (λ qty. column row.now at ≡ Int (pos qty)) }
    ensures form { result ≡ Err Formless → at < length row.now → is_quantity_cell (column row.now at) ≡ false }
{
    Qty::new(u32_cell(row, at)?).ok_or(DecodeError::Form)
}

/// Reads the price of a share, from 1 to 9,999,999 cents.
pub fn price_cell(row: &Row, at: usize) -> Result<Price, DecodeError>
    ensures value { IfOk result (λ price. column row.now at ≡ Int (pos price)) }
    ensures form { result ≡ Err Formless → at < length row.now → is_price_cell (column row.now at) ≡ false }
{
    Price::new(u32_cell(row, at)?).ok_or(DecodeError::Form)
}

/// Reads a commission rate, from 0 to 10,000 hundredths of a percent.
pub fn rate_cell(row: &Row, at: usize) -> Result<Rate, DecodeError>
    ensures value { IfOk result (λ rate. column row.now at ≡ Int (pos rate)) }
    ensures form { result ≡ Err Formless → at < length row.now → is_commission_rate_cell (column row.now at) ≡ false }
{
    Rate::new(u32_cell(row, at)?).ok_or(DecodeError::Form)
}

/// Reads a tax rate, from 0 to 100,000 hundred-thousandths.
pub fn tax_rate_cell(row: &Row, at: usize) -> Result<TaxRate, DecodeError>
    ensures value { IfOk result (λ rate. column row.now at ≡ Int (pos rate)) }
    ensures form { result ≡ Err Formless → at < length row.now → is_tax_rate_cell (column row.now at) ≡ false }
{
    TaxRate::new(u32_cell(row, at)?).ok_or(DecodeError::Form)
}

/// Reads a charge, from 0 to 1,000,000 cents.
pub fn charge_cell(row: &Row, at: usize) -> Result<ChargeAmount, DecodeError>
    ensures value { IfOk result (λ amount. column row.now at ≡ Int (pos amount)) }
    ensures form { result ≡ Err Formless → at < length row.now → is_charge_cell (column row.now at) ≡ false }
{
    ChargeAmount::new(u32_cell(row, at)?).ok_or(DecodeError::Form)
}

/// Reads an amount of either sign, from -10^17 to 10^17 cents.
pub fn cents_cell(row: &Row, at: usize) -> Result<Cents, DecodeError>
    ensures value { IfOk result (λ cents. column row.now at ≡ Int cents) }
    ensures form { result ≡ Err Formless → at < length row.now → is_signed_amount_cell (column row.now at) ≡ false }
{
    Cents::new(integer_cell(row, at)?).ok_or(DecodeError::Form)
}

/// Reads a stamp, in milliseconds since 1970-01-01 UTC, from 0 to that of 9999-12-31 23:59:59.999.
pub fn stamp_cell(row: &Row, at: usize) -> Result<Stamp, DecodeError>
    ensures value { IfOk result (λ stamp. column row.now at ≡ Int (pos stamp)) }
    ensures form { result ≡ Err Formless → at < length row.now → is_stamp_cell (column row.now at) ≡ false }
{
    Stamp::new(integer_cell(row, at)?).ok_or(DecodeError::Form)
}

/// Reads a day, in days since 1970-01-01, from 0 to that of 9999-12-31.
pub fn day_cell(row: &Row, at: usize) -> Result<Day, DecodeError>
    ensures value { IfOk result (λ day. column row.now at ≡ Int (pos day)) }
    ensures form { result ≡ Err Formless → at < length row.now → is_day_cell (column row.now at) ≡ false }
{
    Day::new(read_column(row, at)?).ok_or(DecodeError::Form)
}

/// Reads a stamp (`stamp_cell`), or `None` from NULL.
pub fn optional_stamp_cell(row: &Row, at: usize) -> Result<Option<Stamp>, DecodeError>
    ensures value { IfOk result (λ stamp. column row.now at ≡ optional_natural_as_value stamp) }
    ensures form { result ≡ Err Formless → at < length row.now → is_null_or_stamp_cell (column row.now at) ≡ false }
{
    let millis: Option<i64> = read_column(row, at)?;
    let Some(millis) = millis else {
        return Ok(None);
    };
    Ok(Some(Stamp::new(millis).ok_or(DecodeError::Form)?))
}

/// Reads the price of a share (`price_cell`), or `None` from NULL.
pub fn optional_price_cell(row: &Row, at: usize) -> Result<Option<Price>, DecodeError>
    ensures value { IfOk result (λ price. column row.now at ≡ optional_natural_as_value price) }
    ensures form { result ≡ Err Formless → at < length row.now → is_null_or_natural_cell is_price (column row.now at) ≡ false }
{
    let cents: Option<u32> = read_column(row, at)?;
    let Some(cents) = cents else {
        return Ok(None);
    };
    Ok(Some(Price::new(cents).ok_or(DecodeError::Form)?))
}

/// Reads a tax status from its number, 0 to 2.
pub fn tax_status_cell(row: &Row, at: usize) -> Result<TaxStatus, DecodeError>
    ensures value { IfOk result (λ tax_status. column row.now at ≡ Int (pos (tax_status_number tax_status))) }
    ensures form { result ≡ Err Formless → at < length row.now → is_tax_status_cell (column row.now at) ≡ false }
{
    TaxStatus::from_number(natural_cell(row, at)?).ok_or(DecodeError::Form)
}

/// Reads a flag: 1 is true and 0 is false.
pub fn flag_cell(row: &Row, at: usize) -> Result<bool, DecodeError>
    ensures value { IfOk result (λ is. column row.now at ≡ flag_as_value is) }
    ensures form { result ≡ Err Formless → at < length row.now → is_flag_cell (column row.now at) ≡ false }
{
    match natural_cell(row, at)? {
        0 => Ok(false),
        1 => Ok(true),
        _ => Err(DecodeError::Form),
    }
}

/// Reads a trade type from its code, such as TMB.
pub fn trade_type_cell(row: &Row, at: usize) -> Result<TradeType, DecodeError>
    ensures value { IfOk result (λ kind. column row.now at ≡ Text (trade_type_code kind)) }
    ensures form { result ≡ Err Formless → at < length row.now → is_trade_type_cell (column row.now at) ≡ false }
{
    parse_type(bytes_cell(row, at)?).ok_or(DecodeError::Form)
}

fn is_code_of_status(status: Status, bytes: &[u8]) -> bool
    ensures { result ≡ bytes_eq (trade_status_code status) bytes.now }
{
    status.code().as_bytes() == bytes
}

fn parse_status(bytes: &[u8]) -> Option<Status>
    ensures { MatchOption result (is_status_code bytes.now ≡ false) (λ status. trade_status_code status ≡ bytes.now) }
{
    if is_code_of_status(Status::Completed, bytes) {
        return Some(Status::Completed);
    }
    if is_code_of_status(Status::Active, bytes) {
        return Some(Status::Active);
    }
    if is_code_of_status(Status::Submitted, bytes) {
        return Some(Status::Submitted);
    }
    if is_code_of_status(Status::Pending, bytes) {
        return Some(Status::Pending);
    }
    if is_code_of_status(Status::Canceled, bytes) {
        return Some(Status::Canceled);
    }
    None
}

/// Reads the status of a trade from its code, such as CMPT.
pub fn status_cell(row: &Row, at: usize) -> Result<Status, DecodeError>
    ensures value { IfOk result (λ status. column row.now at ≡ Text (trade_status_code status)) }
    ensures form { result ≡ Err Formless → at < length row.now → is_status_cell (column row.now at) ≡ false }
{
    parse_status(bytes_cell(row, at)?).ok_or(DecodeError::Form)
}

fn is_text_of_cash_type(kind: CashType, bytes: &[u8]) -> bool
    ensures { result ≡ bytes_eq (cash_type_text kind) bytes.now }
{
    kind.text().as_bytes() == bytes
}

fn parse_cash_type(bytes: &[u8]) -> Option<CashType>
    ensures { MatchOption result (is_cash_type_text bytes.now ≡ false) (λ kind. cash_type_text kind ≡ bytes.now) }
{
    if is_text_of_cash_type(CashType::CashAccount, bytes) {
        return Some(CashType::CashAccount);
    }
    if is_text_of_cash_type(CashType::Cash, bytes) {
        return Some(CashType::Cash);
    }
    if is_text_of_cash_type(CashType::Margin, bytes) {
        return Some(CashType::Margin);
    }
    if is_text_of_cash_type(CashType::MarginAccount, bytes) {
        return Some(CashType::MarginAccount);
    }
    None
}

/// Reads the cash type of a settlement from its text, such as `Cash Account`.
pub fn cash_type_cell(row: &Row, at: usize) -> Result<CashType, DecodeError>
    ensures value { IfOk result (λ kind. column row.now at ≡ Text (cash_type_text kind)) }
    ensures form { result ≡ Err Formless → at < length row.now → is_text_cell is_cash_type_text (column row.now at) ≡ false }
{
    parse_cash_type(bytes_cell(row, at)?).ok_or(DecodeError::Form)
}
