//! The new texts of text updates: of an executor's name (T_EXEC_NAME), a settlement text
//! (SE_CASH_TYPE) and a cash text (CM_NAME).

ghost use Rattle.std.specs.Prelude.{◌≡◌, ◌≤◌, ◌∷◌, ◌++◌, IfOk, OnOk, codes, decimal, length, string_bytes};
ghost use Rattle.brk_model.specs.Lists.{contains_text, replace_text};
ghost use Rattle.brk_model.specs.Results.{cash_row_name_from_parts};
ghost use Rattle.brk_model.specs.Updates as definition;
ghost use Rattle.brk_ref.specs.Rows.{cash_type_text};
ghost use Rattle.brk_trade_plans.specs.Update as spec;

use crate::corrected::CashText;
use brk_money::Qty;
use brk_ref::{CashType, Name};
use std::alloc::{AllocError, Global};

// Replaces from the left, without overlap.
fn replace_each(alloc: Global, text: &str, part: &str, new: &str) -> Result<String, AllocError>
    requires { 1 ≤ length part.now }
    ensures { IfOk result (λ result. string_bytes result ≡ replace_text part.now new.now text.now) }
{
    let mut written = String::new(alloc);
    let mut rest = text;
    while let Some((before, after)) = rest.split_once(part) {
        written.push_str(before)?;
        written.push_str(new)?;
        rest = after;
    }
    written.push_str(rest)?;
    Ok(written)
}

fn contains_part(text: &str, part: &str) -> bool
    ensures { result ≡ contains_text part.now text.now }
{
    text.contains(part)
}

/// Returns the name with each " X " replaced by a space or, if it has no " X ", with each space
/// replaced by " X ".
pub fn toggle_executor(alloc: Global, name: &str) -> Result<String, AllocError>
    ensures { IfOk result (λ result. string_bytes result ≡ definition.updated_executor_name name.now) }
{
    if contains_part(name, " X ") {
        replace_each(alloc, name, " X ", " ")
    } else {
        replace_each(alloc, name, " ", " X ")
    }
}

/// Returns `Cash` for `CashAccount` and otherwise `CashAccount` if the trade is a cash trade, and
/// `Margin` for `MarginAccount` and otherwise `MarginAccount` if it is a margin trade.
pub fn toggle_cash_type(is_cash: bool, cash_type: CashType) -> CashType
    ensures { cash_type_text result ≡ spec.toggled_cash_type_text is_cash (cash_type_text cash_type) }
{
    match (is_cash, cash_type) {
        (true, CashType::CashAccount) => CashType::Cash,
        (true, _) => CashType::CashAccount,
        (false, CashType::MarginAccount) => CashType::Margin,
        (false, _) => CashType::MarginAccount,
    }
}

fn append_cash_text_quantity(text: &mut String, qty: Qty, words: &str) -> Result<(), AllocError>
    ensures { OnOk result (string_bytes text.new ≡ string_bytes text.old ++ 32 ∷ decimal qty ++ words.now) }
{
    write!(text, " {}{words}", qty.get())
}

fn format_cash_text(
    alloc: Global,
    paid: &CashText,
    words: &str,
    security: &Name,
) -> Result<String, AllocError>
    ensures { IfOk result (λ text. string_bytes text ≡ cash_row_name_from_parts words.now paid.now.kind paid.now.qty security.now) }
{
    let mut text = String::from_str(alloc, paid.kind.name())?;
    append_cash_text_quantity(&mut text, paid.qty, words)?;
    text.push_str(security.as_str())?;
    Ok(text)
}

/// Returns the cash text formed anew: with " Shares of " if the present text has " shares of " and
/// with " shares of " otherwise.
pub fn toggle_cash_text(
    alloc: Global,
    paid: &CashText,
    security: &Name,
) -> Result<String, AllocError>
    ensures { IfOk result (λ text. string_bytes text ≡ spec.toggled_cash_text_of_trade security.now paid.now) }
{
    if contains_part(paid.name.as_str(), " shares of ") {
        format_cash_text(alloc, paid, " Shares of ", security)
    } else {
        format_cash_text(alloc, paid, " shares of ", security)
    }
}
