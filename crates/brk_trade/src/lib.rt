//! Plans of the commands that read lots: orders and results, and the estimates of orders. A plan is
//! the reply and the row changes that a store applies in one transaction; planning returns a plan
//! or a refusal. The other plans are re-exported from `brk_trade_plans`.
#![tactic(auto)]

mod completion;
pub mod estimate;
pub mod order;
pub mod outcome;
pub mod result;
pub mod result_found;
mod settling;

pub use brk_ref::{
    CashRow, CashType, HistoryRow, HoldingRow, LotChange, RequestRow, SettlementRow, SummaryRow,
    TradeRow, is_submitted,
};
pub use brk_trade_plans::{
    CashText, Completed, Estimate, MovementPlanFacts, Ordered, Plan, PriceSpan, Quote, Reference,
    ReferenceFacts, Reply, SettlementText, TextUpdate, first_symbol_price_span,
    has_no_quote_of_symbol, is_triggered_at_price, plan_cancel, plan_feed, plan_move, plan_oneday,
    plan_reference, plan_update,
};
pub use brk_trade_rows::{Amount, BrokerTotals, Change, TradeCount};
pub use estimate::{Terms, estimate_order, tax_on_realised_gain};
pub use order::{OrderAccount, OrderPlanFacts, plan_estimate, plan_order};
pub use outcome::ResultFigures;
pub use result::plan_result;
pub use result_found::{Posting, ResultPlanFacts, TradeParties, TradedSecurity};
