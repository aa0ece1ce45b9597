use crate::broker_names::BrokerNames;
use crate::named_trades::NamedTrades;
use brk_money::{Id, Stamp};
use brk_ref::{Name, Span, Symbol, TaxId};
use brk_ref_orders::Order;

/// A query to a desk, parsed: every argument of it is well-formed.
#[derive(Drop)]
pub enum Query {
    /// The balances and market values of a customer's accounts (Customer-Position).
    Position(Id),
    /// The balances and market values of the accounts of the customer with a tax id
    /// (Customer-Position).
    PositionOfTaxId(TaxId),
    /// The last ten trades of an account and their statuses (Customer-Position).
    Recent(Id),
    /// The names of an account's customer and broker, and its last fifty trades (Trade-Status).
    Status(Id),
    /// The submitted trades.
    Submitted,
    /// The estimate of an order, as if it were placed now (Trade-Order).
    Estimate(Order),
    /// The trades with these ids, with their settlement, cash row and history (Trade-Lookup).
    Trades(NamedTrades),
    /// The first 20 trades, oldest first, of an account between two stamps, both included
    /// (Trade-Lookup).
    AccountTrades { account: Id, span: Span },
    /// The first 20 trades, oldest first, of a symbol between two stamps, both included
    /// (Trade-Lookup).
    SymbolTrades { symbol: Symbol, span: Span },
    /// The first 20 changes of the lots that the first trade of an account at or after a stamp
    /// touched (Trade-Lookup).
    Lots { account: Id, first: Stamp },
    /// The volumes in a sector of those brokers with these names that have a pending request in the
    /// sector (Broker-Volume).
    Volume { sector: Name, names: BrokerNames },
}
