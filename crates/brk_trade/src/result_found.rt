use brk_money::{Day, MoveId, Rate, TaxRate};
use brk_ref::{AccountRow, BrokerRow, Security, SummaryRow, Tier, TradeRow};

/// The account of a trade with what its customer and its broker add to a result.
#[derive(Drop)]
pub struct TradeParties {
    pub account: AccountRow,
    /// The row of the account's broker.
    pub broker: BrokerRow,
    /// The tier of the account's customer.
    pub tier: Tier,
    /// The sum of the tax rates that the account's customer pays, in hundred-thousandths.
    pub rates: TaxRate,
}

/// The security of a trade with the commission rate of the trade.
#[derive(Drop)]
pub struct TradedSecurity {
    pub security: Security,
    /// The rate of the band of the trade's quantity, in hundredths of a percent, or `None` if there
    /// is no such band.
    pub rate: Option<Rate>,
}

/// The numbers that the settlement and the cash row of a result take from the tables.
#[derive(Clone, Copy)]
pub struct Posting {
    /// The first day whose completions settle after one day (SR_DAY), or `None` if it is not set.
    pub rule: Option<Day>,
    /// The number of the next cash row (CM_ID).
    pub next: MoveId,
}

/// The rows and numbers in the tables that decide on a result of a trade. If a check of the result
/// fails, those that are needed only after it may have any value.
#[derive(Drop)]
pub struct ResultPlanFacts {
    pub trade: TradeRow,
    pub parties: TradeParties,
    /// The summary of the trade's account and security, or `None` if there is none.
    pub summary: Option<SummaryRow>,
    pub listed: TradedSecurity,
    pub posting: Posting,
}
