//! Reads of the facts that decide on an order, and of those for its estimate.

ghost use Rattle.std.specs.Prelude.{◌≡◌};
ghost use Rattle.brk_trade_theorems.specs.OrderPlans.{EstimateFactsMatchTables, OrderFactsMatchTables};
ghost use Rattle.brk_desk_decisions.specs.OrderFactReads.{EstimateFactsMatchIfAccountOfOrder, facts_with_account, facts_without_account};
ghost use Rattle.brk_store_transactions.specs.Holds.{ReadPost};

use crate::amounts::{Amounts, read_order_amounts};
use crate::order_check_reads::{OrderCheckFacts, order_check_facts};
use brk_money::{CallFault, TaxRate, Wide};
use brk_ref::AccountRow;
use brk_ref_orders::Order;
use brk_store::Store;
use brk_store_required::require_customer;
use brk_trade::{OrderAccount, OrderPlanFacts};
use sqlite::Alter;
use std::alloc::Global;

fn facts_without_account() -> OrderPlanFacts
    ensures { result ≡ facts_without_account }
{
    OrderPlanFacts {
        account: None,
        last_price: None,
        is_permitted: false,
        charge: None,
        rate: None,
        rates: TaxRate::new(0).unwrap(),
        assets: Wide::new(0),
        summary: None,
        last_trade: None,
    }
}

// The greatest trade id, which an estimate does not need, is `None`.
fn facts_with_account(
    account: &AccountRow,
    tested: OrderCheckFacts,
    amounts: Amounts,
) -> OrderPlanFacts
    ensures { result ≡ facts_with_account account.now tested amounts }
{
    OrderPlanFacts {
        account: Some(OrderAccount {
            broker: account.account.broker,
            tax_status: account.account.tax_status,
        }),
        last_price: tested.last_price,
        is_permitted: tested.is_permitted,
        charge: tested.charge,
        rate: tested.rate,
        rates: amounts.rates,
        assets: amounts.assets,
        summary: amounts.summary,
        last_trade: None,
    }
}

// Fails with `Store` also if the account's customer does not exist, and as `read_order_amounts` does.
fn estimate_facts_of_account<S: Alter>(
    alloc: Global,
    store: &mut Store<S>,
    order: &Order,
    account: &AccountRow,
) -> Result<OrderPlanFacts, CallFault>
    ensures { ReadPost S.Store store.old store.new result (λ found t. EstimateFactsMatchIfAccountOfOrder t order.now account.now found) }
{
    let customer = require_customer(store, account.account.customer)?;
    let tested = order_check_facts(alloc, store, order, &customer)?;
    let amounts = read_order_amounts(alloc, store, account, order)?;
    Ok(facts_with_account(account, tested, amounts))
}

// If a check of the order fails, the facts that are needed only after it may have any value.
pub(crate) fn estimate_facts<S: Alter>(
    alloc: Global,
    store: &mut Store<S>,
    order: &Order,
) -> Result<OrderPlanFacts, CallFault>
    ensures { ReadPost S.Store store.old store.new result (λ found t. EstimateFactsMatchTables t order.now found) }
{
    match store.account(order.account)? {
        Some(account) => {
            let found = estimate_facts_of_account(alloc, store, order, &account)?;
            Ok(found)
        }
        None => Ok(facts_without_account()),
    }
}

pub(crate) fn order_facts<S: Alter>(
    alloc: Global,
    store: &mut Store<S>,
    order: &Order,
) -> Result<OrderPlanFacts, CallFault>
    ensures { ReadPost S.Store store.old store.new result (λ found t. OrderFactsMatchTables t order.now found) }
{
    let found = estimate_facts(alloc, store, order)?;
    let last_trade = store.greatest_trade_id()?;
    Ok(OrderPlanFacts {
        last_trade,
        ..found
    })
}
