//! Theorems: views over the tables and the estimates of the model equal the specified views.
//! Proof-only: there is no code to call.

ghost use Rattle.std.specs.Prelude.{◌≡◌, ◌∷◌, [], filter, map, true};
ghost use Rattle.brk_trade_plans.specs.Replies.{estimate_from_model};
ghost use Rattle.brk_model.specs.Commands.{Estimate};
ghost use Rattle.brk_model.specs.Form.{is_sorted_by_unique_key};
ghost use Rattle.brk_model.specs.Keys.{trade_key};
ghost use Rattle.brk_model.specs.Rows.{estimate_fields};
ghost use Rattle.brk_model.specs.Sheets.{tables_sorted_by_key};
ghost use Rattle.brk_model.specs.StatusView.{submitted_trades_view};
ghost use Rattle.brk_model.specs.Tables.{Tables};
ghost use Rattle.brk_view_rows.specs.Views.{records_of_view, has_submitted_status, record_of_submitted_row};
ghost use Rattle.brk_view_rows.specs.declared.view.View.TheVariants as views;

/// Proves that the TRADE rows with the status `Submitted`, sorted by id, make the view of the
/// submitted trades.
pub fn submitted_row_records_equal_view()
    // For tables whose TRADE rows have different ids and are sorted by id, ascending.
    ensures sorted { (t : Tables) → is_sorted_by_unique_key trade_key t.trades ≡ true
        → map record_of_submitted_row (filter has_submitted_status t.trades) ≡ submitted_trades_view t }
    // For any tables, with the TRADE rows sorted by id, as a store reads them.
    ensures stored { (t : Tables) → map record_of_submitted_row (filter has_submitted_status (tables_sorted_by_key t).trades) ≡ submitted_trades_view t }
{}

/// Proves that the view of an estimate has one record: the seven fields of the estimate.
pub fn estimate_view_is_one_record()
    ensures { (e : Estimate) → records_of_view (views.Estimate (estimate_from_model e)) ≡ estimate_fields e ∷ [] }
{}
