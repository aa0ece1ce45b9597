//! The view `status`: the parties of an account, its customer and its broker, and its last trades.

ghost use Rattle.std.specs.Prelude.{◌≡◌, ◌==◌, ◌∷◌, [], ℕ, filter, flat_map, map, take};
ghost use Rattle.brk_model.specs.Joins.{trade_rows_recent_first, trade_rows_of_account};
ghost use Rattle.brk_model.specs.StatusView.{customer_and_broker_names, record_of_trade_status, trade_status_view};
ghost use Rattle.brk_model.specs.Tables.{Tables};
ghost use Rattle.brk_view_rows.specs.Status.{trade_status_record, party_names_record};
ghost use Rattle.brk_view_rows.specs.Views.{records_of_view};
ghost use Rattle.brk_view_rows.specs.declared.view.View.TheVariants as views;

use crate::view::View;
use brk_ref::{Name, Security, TradeRow};

/// A trade with its security.
#[derive(Drop)]
pub struct TradeStatus {
    pub trade: TradeRow,
    pub security: Security,
}

/// The names of an account's customer and broker, and its last trades, the most recent first.
#[derive(Drop)]
pub struct AccountStatus {
    /// The last and the first name of the account's customer.
    pub last_name: Name,
    pub first_name: Name,
    /// The name of the account's broker.
    pub broker: Name,
    pub trades: Vec<TradeStatus>,
}

/// Returns the view of an account's parties and its last trades (Trade-Status). The caller passes
/// the last fifty trades, sorted by stamp, then by id, descending.
#[tactic(auto, using(crate::proofs::Shown::status_shown))]
pub fn status(account: AccountStatus) -> View
    ensures records { records_of_view result ≡ party_names_record account ∷ map trade_status_record account.trades.items }
    ensures value { result ≡ views.Status account }
    // If the names equal those of the customer and the broker of an account that exists, and the
    // trades are its last fifty with their securities, the view equals the specified view.
    ensures view { (t : Tables) (id : ℕ)
        → flat_map (customer_and_broker_names t) (filter (λ a. a.id == id) t.accounts) ≡ party_names_record account ∷ []
        → map trade_status_record account.trades.items ≡ map (record_of_trade_status t) (take 50 (trade_rows_recent_first (trade_rows_of_account t id)))
        → records_of_view result ≡ trade_status_view t id }
{
    View::Status(account)
}
