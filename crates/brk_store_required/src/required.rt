//! Reads of rows that must exist, because another row contains their key. Each fails with `Store`
//! if its row does not exist. A crash after a read exposes only states that a crash before it could
//! expose.

ghost use Rattle.std.specs.Prelude.{◌≡◌, ◌==◌, Some, find};
ghost use Rattle.brk_ref.specs.Rows.{abstract_settlement_row, abstract_trade_row};
ghost use Rattle.brk_model.specs.Joins.{trade_row_with_id};
ghost use Rattle.brk_ref.specs.Records.{abstract_tax_rate};
ghost use Rattle.brk_store_required.specs.Required.{IsAccountWithId, IsBrokerWithId, IsCustomerWithId, IsSecurityWithSymbol};
ghost use Rattle.brk_store_transactions.specs.Holds.{ReadPost};

use brk_money::{CallFault, Id};
use brk_ref::{AccountRow, BrokerRow, Customer, Security, SettlementRow, Symbol, Tax, TradeRow};
use brk_store::Store;
use sqlite::Alter;

/// Returns the trade with the id.
pub fn require_trade<S: Alter>(store: &mut Store<S>, id: Id) -> Result<TradeRow, CallFault>
    ensures read { ReadPost S.Store store.old store.new result (λ trade t. trade_row_with_id t id ≡ Some (abstract_trade_row trade)) }
{
    match store.trade(id)? {
        Some(trade) => Ok(trade),
        None => Err(CallFault::Store),
    }
}

/// Returns the account with the id.
pub fn require_account<S: Alter>(store: &mut Store<S>, id: Id) -> Result<AccountRow, CallFault>
    ensures read { ReadPost S.Store store.old store.new result (λ account t. IsAccountWithId t id account) }
{
    match store.account(id)? {
        Some(account) => Ok(account),
        None => Err(CallFault::Store),
    }
}

/// Returns the customer with the id.
pub fn require_customer<S: Alter>(store: &mut Store<S>, id: Id) -> Result<Customer, CallFault>
    ensures read { ReadPost S.Store store.old store.new result (λ customer t. IsCustomerWithId t id customer) }
{
    match store.customer(id)? {
        Some(customer) => Ok(customer),
        None => Err(CallFault::Store),
    }
}

/// Returns the security with the symbol.
pub fn require_security<S: Alter>(
    store: &mut Store<S>,
    symbol: &Symbol,
) -> Result<Security, CallFault>
    ensures read { ReadPost S.Store store.old store.new result (λ security t. IsSecurityWithSymbol t symbol.now security) }
{
    match store.security(symbol)? {
        Some(security) => Ok(security),
        None => Err(CallFault::Store),
    }
}

/// Returns the tax with the id, with its rate.
pub fn require_tax<S: Alter>(store: &mut Store<S>, id: Id) -> Result<Tax, CallFault>
    ensures read { ReadPost S.Store store.old store.new result (λ tax t. find (λ r. r.id == id) t.tax_rates ≡ Some (abstract_tax_rate tax)) }
{
    match store.tax_with_id(id)? {
        Some(tax) => Ok(tax),
        None => Err(CallFault::Store),
    }
}

/// Returns the settlement of the trade.
pub fn require_settlement<S: Alter>(
    store: &mut Store<S>,
    trade: Id,
) -> Result<SettlementRow, CallFault>
    ensures read { ReadPost S.Store store.old store.new result (λ settlement t. find (λ r. r.trade == trade) t.settlements
        ≡ Some (abstract_settlement_row settlement)) }
{
    match store.settlement(trade)? {
        Some(settlement) => Ok(settlement),
        None => Err(CallFault::Store),
    }
}

/// Returns the broker with the id, with the number of its completed trades and their commissions in
/// cents.
pub fn require_broker<S: Alter>(store: &mut Store<S>, id: Id) -> Result<BrokerRow, CallFault>
    ensures read { ReadPost S.Store store.old store.new result (λ broker t. IsBrokerWithId t id broker) }
{
    match store.broker(id)? {
        Some(broker) => Ok(broker),
        None => Err(CallFault::Store),
    }
}
