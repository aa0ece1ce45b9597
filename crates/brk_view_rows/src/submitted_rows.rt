//! The view `submitted`: the submitted trades, from their rows.

ghost use Rattle.std.specs.Prelude.{◌≡◌, IfOk, OnErr, Err, filter, map};
ghost use Rattle.std.specs.Global.{Vec};
ghost use Rattle.brk_model.specs.Sheets.{tables_sorted_by_key};
ghost use Rattle.brk_model.specs.StatusView.{submitted_trades_view};
ghost use Rattle.brk_model.specs.Tables.{Tables};
ghost use Rattle.brk_money.specs.declared.fault.Fault.TheVariants.{Memory};
ghost use Rattle.brk_ref.specs.Rows.{abstract_trade_row};
ghost use Rattle.brk_view_rows.specs.Views.{records_of_view, has_submitted_status, record_of_submitted_row, submitted_trade_record};
ghost use Rattle.brk_view_rows.specs.declared.view.SubmittedTrade.{SubmittedTrade};
ghost use Rattle.brk_view_rows.specs.declared.view.View.TheVariants as views;

use crate::view::{SubmittedTrade, View};
use brk_money::Fault;
use brk_ref::TradeRow;
use std::alloc::{AllocError, Global};

fn submitted_trade(row: &TradeRow) -> Result<SubmittedTrade, AllocError>
    ensures shown { IfOk result (λ trade. submitted_trade_record trade ≡ record_of_submitted_row (abstract_trade_row row.now)) }
{
    let symbol = row.symbol.clone()?;
    Ok(SubmittedTrade {
        id: row.id,
        kind: row.kind,
        symbol,
        qty: row.qty,
        bid: row.bid,
    })
}

/// Returns the view of the submitted trades (Trade-Order), each row in sequence. The caller passes
/// exactly the rows with the status `Submitted`, sorted by id, ascending. Fails with `Memory` only.
pub fn submitted(alloc: Global, rows: &[TradeRow]) -> Result<View, Fault>
    ensures records { IfOk result (λ view. records_of_view view ≡ map record_of_submitted_row (map abstract_trade_row rows.now)) }
    ensures value { IfOk result (λ view. (trades : Vec SubmittedTrade)
        × (view ≡ views.Submitted trades) × (map submitted_trade_record trades.items ≡ map record_of_submitted_row (map abstract_trade_row rows.now))) }
    // If the rows are the submitted rows of a table, as a store reads them, the view equals the
    // specified view.
    ensures view { IfOk result (λ view. (t : Tables) → map abstract_trade_row rows.now ≡ filter has_submitted_status (tables_sorted_by_key t).trades
        → records_of_view view ≡ submitted_trades_view t) }
    ensures fault { OnErr result (result ≡ Err Memory) }
{
    let mut trades = Vec::new(alloc);
    for row in rows {
        let trade = submitted_trade(row)?;
        trades.push(trade)?;
    }
    Ok(View::Submitted(trades))
}
