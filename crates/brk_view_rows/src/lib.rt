//! Queries to a desk and its views: queries parsed from texts, and views made of typed rows.
#![tactic(auto)]

pub mod broker_names;
pub mod lookups;
pub mod named_trades;
pub mod ordering;
pub mod parse;
mod parse_accounts;
mod parse_lookups;
pub mod query;
pub mod recents;
pub mod statuses;
pub mod submitted_rows;
pub mod theorems;
pub mod touched_lots;
pub mod view;
pub mod view_name;
pub mod volumes;
pub mod worths;

pub use broker_names::{BrokerNames, parse_brokers};
pub use lookups::{
    LookedUp, create_looked_up_trade, lookup_account, lookup_ids, lookup_symbol, sort_oldest_first,
};
pub use named_trades::{NamedTrades, parse_named_trades};
pub use parse::{parse_for_view, parse_query};
pub use query::Query;
pub use recents::{Activity, recent};
pub use statuses::{AccountStatus, TradeStatus, status};
pub use submitted_rows::submitted;
pub use touched_lots::{LotTouch, MOST_CHANGES, TouchedLots, lookup_lots, merge_touches};
pub use view::{SubmittedTrade, View};
pub use view_name::ViewName;
pub use volumes::{BrokerVolume, broker_volume, total_bid_value};
pub use worths::{AccountWorth, position};
