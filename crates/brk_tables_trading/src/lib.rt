//! The SQL statements on trades and on the rows that follow from them, one function for each. They
//! cover history, requests, last trades, lots and their changes, summaries, settlements, balances,
//! broker totals and text updates.
//!
//! An insertion fails with the fault `Store` also if its key exists, or if a row that it refers to
//! does not. An update or a deletion changes nothing if its row does not exist. A read fails with
//! `Store` also if a row is malformed.
//!
//! Each SQL text is also in the list of tools/generate/tables.py, which writes its proof: change
//! both.
#![tactic(auto)]

pub mod balances;
pub mod broker_totals;
pub mod history;
pub mod holdings;
pub mod last_trades;
pub mod lots;
pub mod requests;
pub mod settlements;
pub mod summaries;
pub mod trade_lists;
pub mod trades;
pub mod updates;

pub use balances::set_account_balance;
pub use broker_totals::set_broker_totals;
pub use history::add_trade_history_row;
pub use holdings::{all_lots, lot_by_trade, newest_lots, oldest_lots};
pub use last_trades::{all_last_trades, last_trade_by_symbol, set_last_trade};
pub use lots::{add_lot, add_lot_change, remove_lot, set_lot_quantity};
pub use requests::{add_request, remove_request, requests_of_symbol};
pub use settlements::add_settlement;
pub use summaries::{
    account_summaries, add_holding_summary, position_summary, remove_holding_summary,
    set_summary_quantity,
};
pub use trade_lists::{history_of_trade, last_fifty_trades, last_ten_trades};
pub use trades::{
    add_trade, all_trades, complete_trade, greatest_trade_id, set_trade_status, submitted_trades,
    trade_by_id,
};
pub use updates::{
    set_cash_type, set_executor, settlement_by_trade, twenty_completed_cash_trades,
    twenty_completed_trades,
};
