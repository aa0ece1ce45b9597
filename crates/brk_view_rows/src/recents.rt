//! The view `recent`: the last trades of an account and their statuses.

ghost use Rattle.std.specs.Prelude.{◌≡◌, ◌++◌, ℕ, Err, IfOk, OnErr, flat_map, map};
ghost use Rattle.std.specs.Global.{Vec};
ghost use Rattle.brk_ref.specs.Rows.{abstract_history_row, abstract_trade_row};
ghost use Rattle.brk_ref.specs.declared.history_row.HistoryRow.{HistoryRow};
ghost use Rattle.brk_model.specs.Joins.{history_rows_with_trade_id};
ghost use Rattle.brk_model.specs.Lists.{sort_by};
ghost use Rattle.brk_model.specs.PositionView.{last_ten_trade_rows, recent_trades_view};
ghost use Rattle.brk_model.specs.Tables.{Tables};
ghost use Rattle.brk_money.specs.declared.fault.Fault.TheVariants.{Memory};
ghost use Rattle.brk_view_rows.specs.Recent.{is_newer_status, recent_status_record, recent_trade_record};
ghost use Rattle.brk_view_rows.specs.Views.{records_of_view};
ghost use Rattle.brk_view_rows.specs.declared.view.View.TheVariants as views;

use crate::ordering::{Ranked, sort_by_rank};
use crate::view::View;
use brk_money::Fault;
use brk_ref::{HistoryRow, TradeRow};
use std::alloc::Global;

/// The last trades of an account, and all their statuses with stamps.
#[derive(Drop)]
pub struct Activity {
    /// The trades, the most recent first.
    pub trades: Vec<TradeRow>,
    /// Their statuses, the newest first.
    pub history: Vec<HistoryRow>,
}

impl Ranked for HistoryRow {
    ghost before = { is_newer_status };

    /// Ranks by stamp, then by trade, descending.
    fn ranks_before(&self, other: &HistoryRow) -> bool {
        if self.stamp.get() == other.stamp.get() {
            return self.trade.get() > other.trade.get();
        }
        self.stamp.get() > other.stamp.get()
    }
}

/// Returns the view of an account's last trades (Customer-Position). The caller passes the last
/// ten, the most recent first, and all their TRADE_HISTORY rows, trade by trade, which this
/// function sorts by stamp, then by trade, descending. Fails with `Memory` only.
pub fn recent(alloc: Global, trades: Vec<TradeRow>, history: Vec<HistoryRow>) -> Result<View, Fault>
    ensures records { IfOk result (λ view. records_of_view view
        ≡ map recent_trade_record (map abstract_trade_row trades.items) ++ map recent_status_record (sort_by is_newer_status history.items)) }
    ensures value { IfOk result (λ view. (sorted : Vec HistoryRow)
        × (view ≡ views.Recent (record { trades = trades; history = sorted })) × (sorted.items ≡ sort_by is_newer_status history.items)) }
    // If the trades are the last ten of an account, and the history is their TRADE_HISTORY rows,
    // the view equals the specified view.
    ensures view { IfOk result (λ view. (t : Tables) (account : ℕ)
        → map abstract_trade_row trades.items ≡ last_ten_trade_rows t account
        → map abstract_history_row history.items ≡ flat_map (λ row. history_rows_with_trade_id t row.id) (last_ten_trade_rows t account)
        → records_of_view view ≡ recent_trades_view t account) }
    ensures fault { OnErr result (result ≡ Err Memory) }
{
    let history = sort_by_rank(alloc, history)?;
    Ok(View::Recent(Activity { trades, history }))
}
