//! The records of a brokerage, one for each table, and the parsers of fields.
#![tactic(auto)]

pub mod account;
pub mod acl;
pub mod answer;
pub mod authority;
pub mod band;
pub mod batch_name;
pub mod borrowed;
pub mod broker;
pub mod cash_row;
pub mod cash_type;
pub mod charge;
pub mod charge_amount;
pub mod customer;
pub mod customer_tax;
pub mod exchange;
pub mod executor;
pub mod history_row;
pub mod holding_row;
pub mod key;
pub mod last_trade;
pub mod listing;
pub mod lot_change;
pub mod moved_amount;
pub mod name;
pub mod numbers;
pub mod old_cash_row;
pub mod permission;
pub mod request_row;
pub mod row_number;
pub mod security;
pub mod settlement_row;
pub mod span;
pub mod summary_row;
pub mod symbol;
pub mod tax;
pub mod tax_id;
pub mod tax_status;
pub mod taxes;
pub mod text;
pub mod tier;
pub mod trade_row;
pub mod trade_type;
pub mod volume;
pub mod words;

pub use account::{Account, AccountRow, check_account};
pub use acl::Acl;
pub use answer::Answer;
pub use authority::permitted;
pub use band::{
    Band, are_overlapping_bands, band_contains_quantity, band_for, check_band, overlaps,
};
pub use batch_name::BatchName;
pub use borrowed::borrow_texts;
pub use broker::{Broker, BrokerRow, check_broker};
pub use cash_row::CashRow;
pub use cash_type::CashType;
pub use charge::{Charge, check_charge};
pub use charge_amount::ChargeAmount;
pub use customer::{Customer, check_customer};
pub use customer_tax::{CustomerTax, check_customer_tax};
pub use exchange::Exchange;
pub use executor::Executor;
pub use history_row::HistoryRow;
pub use holding_row::HoldingRow;
pub use key::{Kept, Key};
pub use last_trade::LastTrade;
pub use listing::{Listing, check_security};
pub use lot_change::LotChange;
pub use moved_amount::MovedAmount;
pub use name::Name;
pub use numbers::{
    parse_balance, parse_charge_amount, parse_id, parse_moved_amount, parse_price, parse_qty,
    parse_rate, parse_tax_rate, parse_tax_status,
};
pub use old_cash_row::OldCashRow;
pub use permission::{Permission, check_permission};
pub use request_row::RequestRow;
pub use row_number::RowNumber;
pub use security::Security;
pub use settlement_row::SettlementRow;
pub use span::{Span, parse_stamp};
pub use summary_row::SummaryRow;
pub use symbol::Symbol;
pub use tax::{Tax, check_tax};
pub use tax_id::TaxId;
pub use tax_status::is_taxable_status;
pub use taxes::tax_sum;
pub use text::{Form, Text};
pub use tier::Tier;
pub use trade_row::{TradeRow, is_submitted};
pub use trade_type::parse_type;
pub use volume::Volume;
pub use words::{cash_or_margin_word, lifo_or_fifo_word};
