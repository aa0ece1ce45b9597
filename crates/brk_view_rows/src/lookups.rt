//! The views `trades`, `accounttrades` and `symboltrades`: trades with their settlement, cash row
//! and history. The `lookup_` functions look nothing up: the caller passes the trades.

ghost use Rattle.std.specs.Prelude.{◌≡◌, ◌&&◌, ◌==◌, ℕ, Bool, IfOk, List, bytes_eq, filter, flat_map, map, take};
ghost use Rattle.brk_ref.specs.Rows.{abstract_trade_row};
ghost use Rattle.brk_model.specs.Joins.{trade_rows_oldest_first};
ghost use Rattle.brk_model.specs.Lists.{contains_number, sort_by};
ghost use Rattle.brk_model.specs.LookupView.{row_stamp_is_between, trade_lookup_records, trade_lookup_view};
ghost use Rattle.brk_model.specs.Tables.{Tables};
ghost use Rattle.brk_view_rows.specs.Lookup.{AreRowsOfTrade, records_of_looked_up_trade, rows_of_looked_up_trade};
ghost use Rattle.brk_view_rows.specs.Lookup.{table_rows_of_trade, stamped_status_of_typed_history_row, is_older_trade, is_older_status};
ghost use Rattle.brk_view_rows.specs.Views.{records_of_view};
ghost use Rattle.brk_view_rows.specs.declared.view.View.TheVariants as views;

use crate::ordering::{Ranked, sort_by_rank};
use crate::view::View;
use brk_money::{Stamp, Status};
use brk_ref::{CashRow, HistoryRow, SettlementRow, TradeRow};
use std::alloc::{AllocError, Global};

/// A status of a trade and the stamp at which the trade reached it.
#[derive(Clone, Copy)]
pub struct StampedStatus {
    pub stamp: Stamp,
    pub status: Status,
}

impl Ranked for StampedStatus {
    ghost before = { is_older_status };

    /// Ranks by stamp, ascending.
    fn ranks_before(&self, other: &StampedStatus) -> bool {
        self.stamp.get() < other.stamp.get()
    }
}

impl Ranked for TradeRow {
    ghost before = { is_older_trade };

    /// Ranks by stamp, then by id, ascending.
    fn ranks_before(&self, other: &TradeRow) -> bool {
        if self.stamp.get() == other.stamp.get() {
            return self.id.get() < other.id.get();
        }
        self.stamp.get() < other.stamp.get()
    }
}

/// A trade with its settlement, cash row and history.
#[derive(Drop)]
pub struct LookedUp {
    pub trade: TradeRow,
    /// The settlement, or `None` if the trade has none.
    pub settlement: Option<SettlementRow>,
    /// The cash row, or `None` if the trade has none.
    pub cash: Option<CashRow>,
    /// The statuses, the oldest first.
    pub history: Vec<StampedStatus>,
}

fn sorted_statuses(alloc: Global, history: &[HistoryRow]) -> Result<Vec<StampedStatus>, AllocError>
    ensures order { IfOk result (λ moments. moments.items ≡ sort_by is_older_status (map stamped_status_of_typed_history_row history.now)) }
{
    let mut moments = Vec::new(alloc);
    for row in history {
        moments.push(StampedStatus {
            stamp: row.stamp,
            status: row.status,
        })?;
    }
    sort_by_rank(alloc, moments)
}

/// Returns a trade with its rows of other tables and its statuses, sorted by stamp, ascending:
/// those that the model joins if `AreRowsOfTrade` holds of the rows.
#[tactic(auto, using(crate::proofs::Shown::one_shown, crate::proofs::Shown::one_carried))]
pub fn create_looked_up_trade(
    alloc: Global,
    trade: TradeRow,
    settlement: Option<SettlementRow>,
    cash: Option<CashRow>,
    history: &[HistoryRow],
) -> Result<LookedUp, AllocError>
    ensures records { IfOk result (λ found. (t : Tables) → AreRowsOfTrade t trade settlement cash history.now
        → records_of_looked_up_trade found ≡ trade_lookup_records t (abstract_trade_row trade)) }
    ensures rows { IfOk result (λ found. (t : Tables) → AreRowsOfTrade t trade settlement cash history.now
        → rows_of_looked_up_trade found ≡ table_rows_of_trade t (abstract_trade_row trade)) }
{
    let history = sorted_statuses(alloc, history)?;
    Ok(LookedUp {
        trade,
        settlement,
        cash,
        history,
    })
}

/// Returns the trades sorted by the stamp of their current status, then by id, ascending.
#[tactic(auto, using(crate::proofs::Shown::older_shown))]
pub fn sort_oldest_first(alloc: Global, trades: Vec<TradeRow>) -> Result<Vec<TradeRow>, AllocError>
    ensures order { IfOk result (λ ordered. map abstract_trade_row ordered.items ≡ trade_rows_oldest_first (map abstract_trade_row trades.items)) }
{
    sort_by_rank(alloc, trades)
}

/// Returns the view of trades that a query selects by their ids (Trade-Lookup). The caller passes
/// the first 20 in the order of `sort_oldest_first`.
pub fn lookup_ids(trades: Vec<LookedUp>) -> View
    ensures records { records_of_view result ≡ flat_map records_of_looked_up_trade trades.items }
    ensures value { result ≡ views.Lookup trades }
    ensures view { (t : Tables) (ids : List ℕ)
        → map records_of_looked_up_trade trades.items
        ≡ map (trade_lookup_records t) (take 20 (trade_rows_oldest_first (filter (λ row. contains_number row.id ids) t.trades)))
        → records_of_view result ≡ trade_lookup_view t (λ row. contains_number row.id ids) }
{
    View::Lookup(trades)
}

/// Returns the view of an account's trades with a stamp between two stamps, both included
/// (Trade-Lookup). The caller passes the first 20 in the order of `sort_oldest_first`.
pub fn lookup_account(trades: Vec<LookedUp>) -> View
    ensures records { records_of_view result ≡ flat_map records_of_looked_up_trade trades.items }
    ensures value { result ≡ views.Lookup trades }
    ensures view { (t : Tables) (account first last : ℕ)
        → map records_of_looked_up_trade trades.items
        ≡ map (trade_lookup_records t) (take 20 (trade_rows_oldest_first (filter (λ row. (row.account == account)
        && row_stamp_is_between first last row) t.trades)))
        → records_of_view result ≡ trade_lookup_view t (λ row. (row.account == account) && row_stamp_is_between first last row) }
{
    View::Lookup(trades)
}

/// Returns the view of a symbol's trades with a stamp between two stamps, both included
/// (Trade-Lookup). The caller passes the first 20 in the order of `sort_oldest_first`.
pub fn lookup_symbol(trades: Vec<LookedUp>) -> View
    ensures records { records_of_view result ≡ flat_map records_of_looked_up_trade trades.items }
    ensures value { result ≡ views.Lookup trades }
    ensures view { (t : Tables) (symbol : List ℕ) (first last : ℕ)
        → map records_of_looked_up_trade trades.items
        ≡ map (trade_lookup_records t) (take 20 (trade_rows_oldest_first (filter (λ row. bytes_eq row.symbol symbol
        && row_stamp_is_between first last row) t.trades)))
        → records_of_view result ≡ trade_lookup_view t (λ row. bytes_eq row.symbol symbol && row_stamp_is_between first last row) }
{
    View::Lookup(trades)
}
