//! The last price of a security, which must exist, and the market value of an account's holdings at
//! last prices, in cents; shares that were sold short count below 0. A read fails with `Store` also
//! if a held symbol has no last price or the value overflows. A crash after a read exposes only
//! states that a crash before it could expose.

ghost use Rattle.std.specs.Prelude.{◌≡◌, ◌+ℤ◌};
ghost use Rattle.brk_ref.specs.Rows.{abstract_summary_row};
ghost use Rattle.brk_model.specs.Joins.{last_price_in_tables};
ghost use Rattle.brk_store_transactions.specs.Holds.{ReadPost};
ghost use Rattle.brk_store_index.specs.Prices.{market_value_of_summary};
ghost use Rattle.brk_store_required.specs.Valuation.{AreValuedSummariesOfAccount, market_value_of_account};

use brk_money::{CallFault, Id, Price, Wide};
use brk_ref::{SummaryRow, Symbol};
use brk_store::Store;
use brk_store_index::add_market_value;
use sqlite::Alter;
use std::alloc::Global;

/// The holding summaries of an account, and their market value.
#[derive(Drop)]
pub struct ValuedSummaries {
    /// The holding summaries, one for each security that the account holds.
    pub rows: Vec<SummaryRow>,
    /// The market value of the summaries at last prices, in cents. Shares that were sold short
    /// count below 0.
    pub value: Wide,
}

/// Returns the last price of a symbol on the market, in cents.
pub fn require_last_price<S: Alter>(
    store: &mut Store<S>,
    symbol: &Symbol,
) -> Result<Price, CallFault>
    ensures read { ReadPost S.Store store.old store.new result (λ price t. price ≡ last_price_in_tables t symbol.now) }
{
    match store.last_trade(symbol)? {
        Some(last) => Ok(last.price),
        None => Err(CallFault::Store),
    }
}

fn add_value_at_last_price<S: Alter>(
    store: &mut Store<S>,
    amount: Wide,
    row: &SummaryRow,
) -> Result<Wide, CallFault>
    ensures read { ReadPost S.Store store.old store.new result (λ sum t. sum ≡ amount +ℤ market_value_of_summary t (abstract_summary_row row.now)) }
{
    let price = require_last_price(store, &row.symbol)?;
    match add_market_value(amount, row, price) {
        Some(sum) => Ok(sum),
        None => Err(CallFault::Store),
    }
}

/// Returns the holding summaries of an account, sorted by symbol, ascending, and their market
/// value.
pub fn read_valued_summaries<S: Alter>(
    alloc: Global,
    store: &mut Store<S>,
    account: Id,
) -> Result<ValuedSummaries, CallFault>
    ensures read { ReadPost S.Store store.old store.new result (λ held t. AreValuedSummariesOfAccount t account held) }
{
    let (rows, value) = store.summaries_with_value(alloc, account)?;
    if let Some(value) = value {
        return Ok(ValuedSummaries { rows, value });
    }
    let mut total = Wide::new(0);
    for row in &rows {
        let sum = add_value_at_last_price(store, total, row)?;
        total = sum;
    }
    Ok(ValuedSummaries { rows, value: total })
}

/// Returns the market value of an account's holdings.
pub fn read_holdings_value<S: Alter>(
    alloc: Global,
    store: &mut Store<S>,
    account: Id,
) -> Result<Wide, CallFault>
    ensures read { ReadPost S.Store store.old store.new result (λ worth t. worth ≡ market_value_of_account t account) }
{
    let held = read_valued_summaries(alloc, store, account)?;
    Ok(held.value)
}
