//! The last price of each security, and the market value of holdings at these prices, in cents;
//! shares that were sold short count below 0.

ghost use Rattle.std.specs.Prelude.{◌≡◌, ◌+ℤ◌, ◌*ℤ◌, ◌∷◌, IfOk, IfSome, List, OnOk, [], map, pos};
ghost use Rattle.brk_model.specs.Lists.{total_by};
ghost use Rattle.brk_model.specs.Tables.{LastTradeRow, Tables};
ghost use Rattle.brk_ref.specs.Records.{abstract_last_trade_row};
ghost use Rattle.brk_ref.specs.Rows.{abstract_summary_row};
ghost use Rattle.brk_store_index.specs.Prices.{AddsPrice, AreLastPricesOf, SetsPrice, market_value_of_summary, price_of_symbol};

use crate::lost::IndexLost;
use brk_money::{Price, Wide};
use brk_ref::{LastTrade, SummaryRow, Symbol};
use std::alloc::Global;
use std::collections::HashMap;

/// The last price of each security, by symbol.
#[derive(Drop)]
pub(crate) struct LastPrices {
    alloc: Global,
    prices: HashMap<String, Price>,
}

/// Returns `amount` and the market value of a holding at a price. Returns `None` if the market value
/// or the sum overflows.
pub fn add_market_value(amount: Wide, row: &SummaryRow, price: Price) -> Option<Wide>
    ensures { IfSome result (λ sum. sum ≡ amount +ℤ row.now.qty *ℤ pos price) }
{
    let Some(worth) = i128::from(row.qty).checked_mul(i128::from(price.get())) else {
        return None;
    };
    match amount.get().checked_add(worth) {
        Some(sum) => Some(Wide::new(sum)),
        None => None,
    }
}

impl LastPrices {
    pub(crate) fn new(alloc: Global) -> LastPrices
        ensures { AreLastPricesOf result [] }
    {
        LastPrices {
            alloc,
            prices: HashMap::new(alloc),
        }
    }

    pub(crate) fn price(&self, symbol: &Symbol) -> Option<Price>
        ensures { result ≡ price_of_symbol self.now symbol.now }
    {
        self.prices.get(symbol.as_str()).copied()
    }

    // Fails also if the security has a last price already.
    pub(crate) fn add(&mut self, last: &LastTrade) -> Result<(), IndexLost>
        ensures { OnOk result (AddsPrice self.old last.now.symbol last.now.price self.new) }
    {
        if self.prices.contains_key(last.symbol.as_str()) {
            return Err(IndexLost);
        }
        let symbol = String::from_str(self.alloc, last.symbol.as_str())?;
        self.prices.insert(symbol, last.price)?;
        Ok(())
    }

    // Changes nothing if the security has no last price.
    pub(crate) fn set(&mut self, last: &LastTrade)
        ensures { SetsPrice self.old last.now.symbol last.now.price self.new }
    {
        if let Some(price) = self.prices.get_mut(last.symbol.as_str()) {
            *price = last.price;
        }
    }

    // Fails also if two of the rows have one symbol.
    pub(crate) fn of_rows(alloc: Global, rows: &[LastTrade]) -> Result<LastPrices, IndexLost>
        ensures { IfOk result (λ prices. AreLastPricesOf prices (map abstract_last_trade_row rows.now)) }
    {
        let mut prices = LastPrices::new(alloc);
        for row in rows {
            prices.add(row)?;
        }
        Ok(prices)
    }

    // Returns `None` if a security has no last price, or if the value overflows.
    pub(crate) fn market_value(&self, rows: &[SummaryRow]) -> Option<Wide>
        ensures { (t : Tables) → AreLastPricesOf self.now t.last_trades
            → IfSome result (λ value. value ≡ total_by (market_value_of_summary t) (map abstract_summary_row rows.now)) }
    {
        let mut total = Wide::new(0);
        for row in rows {
            let Some(price) = self.price(&row.symbol) else {
                return None;
            };
            let Some(sum) = add_market_value(total, row, price) else {
                return None;
            };
            total = sum;
        }
        Some(total)
    }
}
