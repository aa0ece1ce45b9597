//! The facts that the explanation of a holding reads.

ghost use Rattle.std.specs.Prelude.{◌≡◌, option_map, pos};
ghost use Rattle.std.specs.Option.{option_map_or};
ghost use Rattle.brk_ref.specs.Rows.{abstract_summary_row};
ghost use Rattle.brk_explain_reads.specs.HoldingParts.{AreQuantityAndPrice};
ghost use Rattle.brk_explain_rows.specs.Details.{AreDetailsOfHolding};
ghost use Rattle.brk_store_transactions.specs.Holds.{ReadPost};

use crate::holding_trades::{TradesAndLots, read_holding_trades};
use brk_explain_rows::HoldingDetails;
use brk_money::{CallFault, Id, Planned, Price, Refusal};
use brk_ref::{AccountRow, Security, SummaryRow, Symbol};
use brk_store::Store;
use brk_store_required::require_last_price;
use sqlite::Alter;
use std::alloc::Global;

/// The number of shares that an account holds, below 0 if they were sold short, and the last price
/// of their security, in cents.
#[derive(Clone, Copy)]
pub struct QuantityAndPrice {
    pub shares: i64,
    pub price: Price,
}

fn qty_or_zero(summary: Option<SummaryRow>) -> i64
    ensures { result ≡ option_map_or (λ r. r.qty) (option_map abstract_summary_row summary) (pos 0) }
{
    match summary {
        Some(row) => row.qty,
        None => 0,
    }
}

fn priced_quantity(shares: i64, price: Price) -> QuantityAndPrice
    ensures { result ≡ record { shares = shares; price = price } }
{
    QuantityAndPrice { shares, price }
}

fn read_quantity_with_price<S: Alter>(
    store: &mut Store<S>,
    account: Id,
    symbol: &Symbol,
) -> Result<QuantityAndPrice, CallFault>
    ensures { ReadPost S.Store store.old store.new result (λ held t. AreQuantityAndPrice t account symbol.now held) }
{
    let summary = store.read_summary(account, symbol)?;
    let price = require_last_price(store, symbol)?;
    Ok(priced_quantity(qty_or_zero(summary), price))
}

fn holding_details_of(
    account: AccountRow,
    security: Security,
    held: TradesAndLots,
    now: QuantityAndPrice,
) -> HoldingDetails
    ensures { result ≡ record { account = account; security = security; done = held.done; lots = held.lots; shares = now.shares; price = now.price } }
{
    HoldingDetails {
        account,
        security,
        done: held.done,
        lots: held.lots,
        shares: now.shares,
        price: now.price,
    }
}

/// Returns the facts that the explanation of a holding reads. Refuses with `NoAccount` (1) if the
/// account does not exist, and with `NoSecurity` (4) if only the security does not exist. Fails
/// with `Store` also if the security has no last price, or if another trade that changed a lot of
/// the holding does not exist or has no price.
pub fn gather_holding<S: Alter>(
    alloc: Global,
    store: &mut Store<S>,
    account: Id,
    symbol: &Symbol,
) -> Planned<HoldingDetails, CallFault>
    ensures { ReadPost S.Store store.old store.new result (AreDetailsOfHolding account symbol.now) }
{
    let Some(row) = store.account(account)? else {
        return Ok(Err(Refusal::NoAccount));
    };
    let Some(security) = store.security(symbol)? else {
        return Ok(Err(Refusal::NoSecurity));
    };
    let held = read_holding_trades(alloc, store, account, symbol)?;
    let now = read_quantity_with_price(store, account, symbol)?;
    Ok(Ok(holding_details_of(row, security, held, now)))
}
