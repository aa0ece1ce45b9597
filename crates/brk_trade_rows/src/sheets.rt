//! Written by tools/generate/tables.py.
use crate::schema::Schema;
use brk_money::{Day, Stamp};
use brk_ref::{
    AccountRow, Band, BrokerRow, CashRow, Charge, Customer, CustomerTax, HistoryRow, HoldingRow,
    Key, LastTrade, LotChange, OldCashRow, Permission, RequestRow, Security, SettlementRow,
    SummaryRow, Tax, TradeRow,
};

/// The rows of all tables of a desk, each list sorted by key, ascending.
#[derive(Drop)]
pub struct Sheets {
    /// The schema that the tables have.
    pub schema: Schema,
    /// The stamp of the last accepted command.
    pub last: Option<Stamp>,
    /// The keys of the rows of KEPT. The texts of these rows are no part of the sheets.
    pub kept: Vec<Key>,
    pub brokers: Vec<BrokerRow>,
    pub customers: Vec<Customer>,
    pub accounts: Vec<AccountRow>,
    pub permissions: Vec<Permission>,
    pub securities: Vec<Security>,
    pub last_trades: Vec<LastTrade>,
    pub charges: Vec<Charge>,
    pub bands: Vec<Band>,
    pub tax_rates: Vec<Tax>,
    pub customer_taxes: Vec<CustomerTax>,
    pub trades: Vec<TradeRow>,
    pub history: Vec<HistoryRow>,
    pub requests: Vec<RequestRow>,
    pub holdings: Vec<HoldingRow>,
    pub summaries: Vec<SummaryRow>,
    pub holding_history: Vec<LotChange>,
    pub settlements: Vec<SettlementRow>,
    pub cash: Vec<OldCashRow>,
    pub moves: Vec<CashRow>,
    /// The first day of one-day settlement, if one is set (SR_DAY).
    pub rule: Option<Day>,
}
