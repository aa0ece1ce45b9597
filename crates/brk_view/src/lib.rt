//! The views of a desk, of typed rows, and their records of texts.
#![tactic(auto)]

mod account_fields;
pub mod fields;
mod lookup_fields;
mod lot_fields;
mod texts;
mod volume_fields;

pub use brk_view_rows::{
    AccountStatus, AccountWorth, Activity, BrokerNames, BrokerVolume, LookedUp, LotTouch,
    MOST_CHANGES, NamedTrades, Query, SubmittedTrade, TouchedLots, TradeStatus, View, ViewName,
    broker_volume, create_looked_up_trade, lookup_account, lookup_ids, lookup_lots, lookup_symbol,
    merge_touches, parse_brokers, parse_for_view, parse_named_trades, parse_query, position,
    recent, sort_oldest_first, status, submitted, total_bid_value,
};
pub use fields::view_fields;
