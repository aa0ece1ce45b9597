//! The amounts that the estimate of an order needs.

ghost use Rattle.std.specs.Prelude.{◌≡◌, ◌+ℤ◌, IfSome};
ghost use Rattle.brk_desk_decisions.specs.OrderFactReads.{AreAssetsAndSharesOfAccount, EstimateAmountsMatchTables};
ghost use Rattle.brk_store_transactions.specs.Holds.{ReadPost};

use crate::summary_finding::symbol_shares;
use crate::terms::require_tax_rate_sum;
use brk_money::{CallFault, Cents, TaxRate, Wide};
use brk_ref::{AccountRow, Symbol};
use brk_ref_orders::Order;
use brk_store::Store;
use brk_store_required::read_valued_summaries;
use sqlite::Alter;
use std::alloc::Global;

/// The amounts that the estimate of an order needs: of its account and of the account's customer.
#[derive(Clone, Copy)]
pub struct Amounts {
    /// The sum of the tax rates that the account's customer pays, in hundred-thousandths.
    pub rates: TaxRate,
    /// The account's balance plus the market value of its holdings, in cents.
    pub assets: Wide,
    /// The number of shares of the order's symbol that the account holds in total (HS_QTY), below 0
    /// if it sold them short, or `None` if it has no summary of the symbol.
    pub summary: Option<i64>,
}

// Returns `None` if the sum overflows.
fn add_balance(balance: Cents, worth: Wide) -> Option<Wide>
    ensures { IfSome result (λ assets. assets ≡ balance +ℤ worth) }
{
    match i128::from(balance.get()).checked_add(worth.get()) {
        Some(assets) => Some(Wide::new(assets)),
        None => None,
    }
}

// Returns the assets of an account, and the number of its shares of the symbol. Reads the account's
// summaries once for both. Fails with `Store` also if a held symbol has no last price, or if the
// sum overflows.
fn read_account_amounts<S: Alter>(
    alloc: Global,
    store: &mut Store<S>,
    account: &AccountRow,
    symbol: &Symbol,
) -> Result<(Wide, Option<i64>), CallFault>
    ensures { ReadPost S.Store store.old store.new result (λ amounts t. AreAssetsAndSharesOfAccount t account.now symbol.now amounts.0 amounts.1) }
{
    let held = read_valued_summaries(alloc, store, account.account.id)?;
    let shares = symbol_shares(&held.rows, symbol);
    let worth = held.value;
    match add_balance(account.balance, worth) {
        Some(assets) => Ok((assets, shares)),
        None => Err(CallFault::Store),
    }
}

// Reads the amounts for the estimate of `order`. Fails with `Store` also as `require_tax_rate_sum`
// and `read_account_amounts` do.
pub(crate) fn read_order_amounts<S: Alter>(
    alloc: Global,
    store: &mut Store<S>,
    account: &AccountRow,
    order: &Order,
) -> Result<Amounts, CallFault>
    ensures { ReadPost S.Store store.old store.new result (λ amounts t. EstimateAmountsMatchTables t account.now order.now amounts) }
{
    let rates = require_tax_rate_sum(alloc, store, account.account.customer)?;
    let (assets, summary) = read_account_amounts(alloc, store, account, &order.symbol)?;
    Ok(Amounts {
        rates,
        assets,
        summary,
    })
}
