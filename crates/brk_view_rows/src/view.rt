use crate::lookups::LookedUp;
use crate::recents::Activity;
use crate::statuses::AccountStatus;
use crate::touched_lots::TouchedLots;
use crate::volumes::BrokerVolume;
use crate::worths::AccountWorth;
use brk_money::{Id, Price, Qty, TradeType};
use brk_ref::Symbol;
use brk_trade_plans::Estimate;

/// A submitted trade: it was sent to the market, and neither completed nor canceled.
#[derive(Drop)]
pub struct SubmittedTrade {
    pub id: Id,
    pub kind: TradeType,
    pub symbol: Symbol,
    /// The number of shares.
    pub qty: Qty,
    /// The bid price of a share (T_BID_PRICE), in cents.
    pub bid: Price,
}

/// The result of a query, which `view_fields` returns as records of texts.
#[derive(Drop)]
pub enum View {
    /// The balances and market values of a customer's accounts, sorted by market value, then by id,
    /// ascending (Customer-Position).
    Position(Vec<AccountWorth>),
    /// The last ten trades of an account and their statuses (Customer-Position).
    Recent(Activity),
    /// The names of an account's customer and broker, and its last fifty trades (Trade-Status).
    Status(AccountStatus),
    /// The submitted trades, sorted by id, ascending.
    Submitted(Vec<SubmittedTrade>),
    /// The estimate of an order (Trade-Order).
    Estimate(Estimate),
    /// Trades with their settlement, cash row and history, the oldest first (Trade-Lookup).
    Lookup(Vec<LookedUp>),
    /// The first 20 changes of the lots that a trade touched, or `None` if there is no such trade
    /// (Trade-Lookup).
    Lots(Option<TouchedLots>),
    /// The volumes of brokers in a sector, sorted by volume, descending, then by name and id,
    /// ascending (Broker-Volume).
    Volume(Vec<BrokerVolume>),
}
