//! The lines of the explanation of an account. After an error a part of them may be appended; a sum
//! that overflows is the fault `Store`.

ghost use Rattle.std.specs.Prelude.{◌≡◌, ◌++◌, ◌∷◌, IfOk, OnOk, codes, map};
ghost use Rattle.brk_ref.specs.Rows.{abstract_holding_row, abstract_cash_row};
ghost use Rattle.brk_model_explain.specs.AccountLines as lines;
ghost use Rattle.brk_explain_rows.specs.Details.{abstract_priced_holding};
ghost use Rattle.brk_model.specs.Statement.{left_aligned_text, right_aligned_text, text_of_lines};
ghost use Rattle.brk_ref.specs.Records.{abstract_account_row};
ghost use Rattle.brk_report_lines.specs.Written.{line_with_line_feed};

use brk_explain_columns::{
    add_amounts, align_amount, align_cents, align_integer, align_number, end_line, put_amount_fact,
    put_column, put_dated_word, put_number_fact, put_numbered, put_spaced_line, put_spaced_text,
    put_text, put_text_fact, put_text_line, put_title_line, shares_value,
};
use brk_explain_rows::PricedHolding;
use brk_money::{CallFault, Cents, Id, Price, StoreFailed, Wide};
use brk_ref::{AccountRow, CashRow, HoldingRow};
use brk_report_lines::{append_left_aligned, lot_line};
use std::alloc::{AllocError, Global};

#[tactic(auto, unfolding(brk_model_explain::specs::AccountLines::account_header_lines))]
fn put_header(alloc: Global, out: &mut Vec<u8>, row: &AccountRow) -> Result<(), AllocError>
    ensures { OnOk result (out.new.items ≡ out.old.items ++ text_of_lines (lines.account_header_lines (abstract_account_row row.now))) }
{
    let account = &row.account;
    put_title_line(out, "Account ", account.id)?;
    put_text_fact(out, "Name", account.name.as_str().as_bytes())?;
    put_number_fact(out, "Customer", account.customer.get())?;
    put_number_fact(out, "Broker", account.broker.get())?;
    put_number_fact(out, "Tax status", u64::from(account.tax_status.number()))?;
    put_amount_fact(alloc, out, "Opening", Wide::from(account.opening))?;
    put_text_line(
        out,
        b"#      posted                       cash row         trade                 amount                balance name",
    )
}

/// Returns the lines before the cash rows, from the title to the column headings.
pub fn account_header_text(alloc: Global, row: &AccountRow) -> Result<Vec<u8>, AllocError>
    ensures { IfOk result (λ text. text.items ≡ text_of_lines (lines.account_header_lines (abstract_account_row row.now))) }
{
    let mut text = Vec::new(alloc);
    put_header(alloc, &mut text, row)?;
    Ok(text)
}

fn align_trade_id(out: &mut Vec<u8>, trade: Option<Id>) -> Result<(), AllocError>
    ensures { OnOk result (out.new.items ≡ out.old.items ++ 32 ∷ right_aligned_text 13 (lines.trade_id_or_hyphen trade)) }
{
    match trade {
        Some(trade) => align_number(out, 13, trade.get()),
        None => put_column(out, 13, b"-"),
    }
}

#[tactic(auto, unfolding(brk_model_explain::specs::AccountLines::cash_posting_line))]
fn put_posting(
    alloc: Global,
    out: &mut Vec<u8>,
    row: &CashRow,
    balance: Wide,
) -> Result<(), AllocError>
    ensures { OnOk result (out.new.items ≡ out.old.items ++ line_with_line_feed (lines.cash_posting_line (abstract_cash_row row.now) balance)) }
{
    put_dated_word(out, "Posted", row.stamp)?;
    align_number(out, 13, row.id.get())?;
    align_trade_id(out, row.trade)?;
    align_amount(alloc, out, Wide::from(row.amount))?;
    align_amount(alloc, out, balance)?;
    put_spaced_line(out, row.name.as_bytes())
}

/// Returns the line of a cash row; `balance`, in cents, is the balance after it.
pub fn posting_text(alloc: Global, row: &CashRow, balance: Wide) -> Result<Vec<u8>, AllocError>
    ensures { IfOk result (λ line. line.items ≡ line_with_line_feed (lines.cash_posting_line (abstract_cash_row row.now) balance)) }
{
    let mut line = Vec::new(alloc);
    put_posting(alloc, &mut line, row, balance)?;
    Ok(line)
}

// Writes also the line of the balance.
#[tactic(auto, unfolding(brk_model_explain::specs::AccountLines::balance_and_lot_header_lines))]
fn put_lots_head(alloc: Global, out: &mut Vec<u8>, row: &AccountRow) -> Result<(), AllocError>
    ensures { OnOk result (out.new.items ≡ out.old.items ++ text_of_lines (lines.balance_and_lot_header_lines (abstract_account_row row.now))) }
{
    put_amount_fact(alloc, out, "Balance", Wide::from(row.balance))?;
    put_text_line(
        out,
        b"#      symbol                    lot      shares      price                  worth",
    )
}

/// Returns the line of the balance, and the column headings of the lots and holdings.
pub fn lots_head_text(alloc: Global, row: &AccountRow) -> Result<Vec<u8>, AllocError>
    ensures { IfOk result (λ text. text.items ≡ text_of_lines (lines.balance_and_lot_header_lines (abstract_account_row row.now))) }
{
    let mut text = Vec::new(alloc);
    put_lots_head(alloc, &mut text, row)?;
    Ok(text)
}

// `lot` is the line of the lot as in a statement, with its line feed.
fn put_lot_columns(out: &mut Vec<u8>, lot: &[u8]) -> Result<(), AllocError>
    ensures { OnOk result (out.new.items ≡ out.old.items ++ left_aligned_text 6 (codes "Lot") ++ 32 ∷ lot.now) }
{
    append_left_aligned(out, 6, b"Lot")?;
    put_spaced_text(out, lot)
}

/// Returns the line of a lot, with its quantity below 0 if it was sold short.
#[tactic(auto, unfolding(brk_model_explain::specs::AccountLines::open_lot_line))]
pub fn open_lot_text(alloc: Global, row: &HoldingRow) -> Result<Vec<u8>, AllocError>
    ensures { IfOk result (λ line. line.items ≡ line_with_line_feed (lines.open_lot_line (abstract_holding_row row.now))) }
{
    let lot = lot_line(alloc, row)?;
    let mut line = Vec::new(alloc);
    put_lot_columns(&mut line, &lot)?;
    Ok(line)
}

// Returns cents, below 0 for shares that were sold short.
fn market_value_of_holding(held: &PricedHolding) -> Result<Wide, StoreFailed>
    ensures { IfOk result (λ worth. worth ≡ lines.market_value_of_holding (abstract_priced_holding held.now)) }
{
    shares_value(held.summary.qty, held.price)
}

fn market_value_of_holdings(all: &[PricedHolding]) -> Result<Wide, StoreFailed>
    ensures { IfOk result (λ total. total ≡ lines.market_value_of_holdings (map abstract_priced_holding all.now)) }
{
    let mut total = Wide::new(0);
    for held in all {
        let worth = market_value_of_holding(held)?;
        total = add_amounts(total, worth)?;
    }
    Ok(total)
}

// The column of the lot ids is empty in the line of a holding.
#[tactic(auto, unfolding(brk_model_explain::specs::AccountLines::holding_line_start))]
fn put_holding_line_start(out: &mut Vec<u8>, symbol: &[u8]) -> Result<(), AllocError>
    ensures { OnOk result (out.new.items ≡ out.old.items ++ lines.holding_line_start symbol.now) }
{
    put_text(out, b"Held   ")?;
    append_left_aligned(out, 15, symbol)?;
    put_column(out, 13, b"")
}

#[tactic(auto, unfolding(brk_model_explain::specs::AccountLines::quantity_and_price_columns))]
fn align_qty_with_price(
    alloc: Global,
    out: &mut Vec<u8>,
    qty: i64,
    price: Price,
) -> Result<(), AllocError>
    ensures { OnOk result (out.new.items ≡ out.old.items ++ lines.quantity_and_price_columns qty price) }
{
    align_integer(out, 11, i128::from(qty))?;
    align_cents(alloc, out, 10, Wide::from(price))
}

#[tactic(auto, unfolding(brk_model_explain::specs::AccountLines::holding_line))]
fn put_holding(alloc: Global, out: &mut Vec<u8>, held: &PricedHolding) -> Result<(), CallFault>
    ensures { OnOk result (out.new.items ≡ out.old.items ++ line_with_line_feed (lines.holding_line (abstract_priced_holding held.now))) }
{
    let worth = market_value_of_holding(held)?;
    put_holding_line_start(out, held.summary.symbol.as_str().as_bytes())?;
    align_qty_with_price(alloc, out, held.summary.qty, held.price)?;
    align_amount(alloc, out, worth)?;
    Ok(end_line(out)?)
}

fn put_held_lines(alloc: Global, out: &mut Vec<u8>, all: &[PricedHolding]) -> Result<(), CallFault>
    ensures { OnOk result (out.new.items ≡ out.old.items ++ text_of_lines (map lines.holding_line (map abstract_priced_holding all.now))) }
{
    for held in all {
        put_holding(alloc, out, held)?;
    }
    Ok(())
}

fn put_counts(out: &mut Vec<u8>, cash: u64, lots: u64, symbols: usize) -> Result<(), AllocError>
    ensures { OnOk result (out.new.items ≡ out.old.items ++ line_with_line_feed (lines.account_counts_line cash lots symbols)) }
{
    put_numbered(out, "Cash rows ", cash)?;
    put_numbered(out, ", lots ", lots)?;
    put_numbered(out, ", symbols ", symbols as u64)?;
    end_line(out)
}

// The assets are `balance` plus `holdings`; `cash` is the number of cash rows.
#[tactic(auto, unfolding(brk_model_explain::specs::AccountLines::account_total_lines))]
fn put_totals(
    alloc: Global,
    out: &mut Vec<u8>,
    balance: Cents,
    holdings: Wide,
    cash: u64,
    lots: u64,
    symbols: usize,
) -> Result<(), CallFault>
    ensures { OnOk result (out.new.items ≡ out.old.items ++ text_of_lines (lines.account_total_lines balance holdings cash lots symbols)) }
{
    let assets = add_amounts(Wide::from(balance), holdings)?;
    put_amount_fact(alloc, out, "Holdings", holdings)?;
    put_amount_fact(alloc, out, "Assets", assets)?;
    Ok(put_counts(out, cash, lots, symbols)?)
}

fn put_account_end(
    alloc: Global,
    out: &mut Vec<u8>,
    row: &AccountRow,
    held: &[PricedHolding],
    cash: u64,
    lots: u64,
) -> Result<(), CallFault>
    ensures { OnOk result (out.new.items
        ≡ out.old.items ++ text_of_lines (lines.holding_and_total_lines (abstract_account_row row.now) (map abstract_priced_holding held.now) cash lots)) }
{
    let holdings = market_value_of_holdings(held)?;
    put_held_lines(alloc, out, held)?;
    put_totals(alloc, out, row.balance, holdings, cash, lots, held.len())
}

/// Returns the lines after the lots: the holdings in the order of `held`, and the totals. `cash`
/// and `lots` are the numbers of the account's cash rows and lots. Fails with `Store` if an amount
/// overflows.
pub fn account_end_text(
    alloc: Global,
    row: &AccountRow,
    held: &[PricedHolding],
    cash: u64,
    lots: u64,
) -> Result<Vec<u8>, CallFault>
    ensures { IfOk result (λ text. text.items
        ≡ text_of_lines (lines.holding_and_total_lines (abstract_account_row row.now) (map abstract_priced_holding held.now) cash lots)) }
{
    let mut text = Vec::new(alloc);
    put_account_end(alloc, &mut text, row, held, cash, lots)?;
    Ok(text)
}
