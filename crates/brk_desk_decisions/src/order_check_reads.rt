//! Reads of the facts that the checks of an order test, if its account exists; and the commission
//! rate of a quantity by its band, which a result needs too.

ghost use Rattle.std.specs.Prelude.{◌≡◌, IfSome, option_map};
ghost use Rattle.brk_money.specs.OrderTypes.{trade_type_of_order_type};
ghost use Rattle.brk_trade_books.specs.OrderReads.{charge_of_type_and_tier};
ghost use Rattle.brk_trade_books.specs.TradeReads.{commission_band_of_quantity, permission_list_for_tax_id};
ghost use Rattle.brk_desk_decisions.specs.OrderFactReads.{CustomerOrderFactsMatchTables};
ghost use Rattle.brk_model.specs.Joins.{security_row_with_symbol};
ghost use Rattle.brk_model.specs.Orders.{is_customer_or_has_permission};
ghost use Rattle.brk_ref.specs.Records.{abstract_customer, abstract_executor};
ghost use Rattle.brk_store_transactions.specs.Holds.{ReadPost};

use brk_money::{CallFault, Id, Price, Qty, Rate, TradeType};
use brk_ref::{ChargeAmount, Customer, Exchange, Executor, Tier, band_for, permitted};
use brk_ref_orders::Order;
use brk_store::Store;
use sqlite::Alter;
use std::alloc::Global;

/// The facts that the checks of an order test, if its account exists.
#[derive(Clone, Copy)]
pub struct OrderCheckFacts {
    /// The last price of the order's security, in cents, or `None` if it has no last trade.
    pub last_price: Option<Price>,
    /// True if the order's executor may order for the account.
    pub is_permitted: bool,
    /// The charge of the order's trade type and the customer's tier, in cents, or `None` if there
    /// is none.
    pub charge: Option<ChargeAmount>,
    /// The commission rate of the band of the order's quantity, in hundredths of a percent, or
    /// `None` if there is no such band.
    pub rate: Option<Rate>,
}

// Of the account's permissions, only that for the executor's tax id can permit the executor.
fn is_executor_permitted<S: Alter>(
    store: &mut Store<S>,
    account: Id,
    customer: &Customer,
    executor: &Executor,
) -> Result<bool, CallFault>
    ensures { ReadPost S.Store store.old store.new result (λ is_permitted t.
        is_permitted
        ≡ is_customer_or_has_permission (abstract_customer customer.now) (permission_list_for_tax_id t account executor.now.tax_id)
        (abstract_executor executor.now)) }
{
    let permission = store.permission(account, &executor.tax_id)?;
    Ok(permitted(customer, permission.as_slice(), executor))
}

fn charge_of_tier<S: Alter>(
    store: &mut Store<S>,
    kind: TradeType,
    tier: Tier,
) -> Result<Option<ChargeAmount>, CallFault>
    ensures { ReadPost S.Store store.old store.new result (λ charge t. charge ≡ charge_of_type_and_tier t kind tier) }
{
    match store.charge(kind, tier)? {
        Some(charge) => Ok(Some(charge.amount)),
        None => Ok(None),
    }
}

// The first such band in the order of the table decides; a band contains both of its bounds. The
// rate is in hundredths of a percent.
pub(crate) fn read_band_rate<S: Alter>(
    alloc: Global,
    store: &mut Store<S>,
    tier: Tier,
    kind: TradeType,
    exchange: &Exchange,
    qty: Qty,
) -> Result<Option<Rate>, CallFault>
    ensures { ReadPost S.Store store.old store.new result (λ rate t. rate
        ≡ option_map (λ b. b.rate) (commission_band_of_quantity t tier kind exchange.now qty)) }
{
    let bands = store.commission_bands(alloc, tier, kind, exchange)?;
    Ok(band_for(&bands, qty))
}

// Returns `None` also if the security does not exist (the clause allows any rate).
fn read_order_rate<S: Alter>(
    alloc: Global,
    store: &mut Store<S>,
    order: &Order,
    tier: Tier,
) -> Result<Option<Rate>, CallFault>
    ensures { ReadPost S.Store store.old store.new result (λ rate t.
        IfSome (security_row_with_symbol t order.now.symbol) (λ s. rate
        ≡ option_map (λ b. b.rate) (commission_band_of_quantity t tier (trade_type_of_order_type order.now.order_type) s.exchange order.now.qty))) }
{
    match store.security(&order.symbol)? {
        Some(security) => {
            let rate = read_band_rate(
                alloc,
                store,
                tier,
                order.order_type.kind(),
                &security.exchange,
                order.qty,
            )?;
            Ok(rate)
        }
        None => Ok(None),
    }
}

pub(crate) fn order_check_facts<S: Alter>(
    alloc: Global,
    store: &mut Store<S>,
    order: &Order,
    customer: &Customer,
) -> Result<OrderCheckFacts, CallFault>
    ensures { ReadPost S.Store store.old store.new result (λ tested t. CustomerOrderFactsMatchTables t order.now customer.now tested) }
{
    let tier = customer.tier;
    let last_price = store.last_price(&order.symbol)?;
    let is_permitted = is_executor_permitted(store, order.account, customer, &order.executor)?;
    let charge = charge_of_tier(store, order.order_type.kind(), tier)?;
    let rate = read_order_rate(alloc, store, order, tier)?;
    Ok(OrderCheckFacts {
        last_price,
        is_permitted,
        charge,
        rate,
    })
}
