//! Theorems: sorting the tables by key changes no view of accounts, and so the view of no query.

ghost use Rattle.std.specs.Prelude.{◌≡◌, ℕ, Bool};
ghost use Rattle.brk_model.specs.Base.{Base};
ghost use Rattle.brk_model.specs.PositionView.{customer_position_view, recent_trades_view};
ghost use Rattle.brk_model.specs.Queries.{Query};
ghost use Rattle.brk_model.specs.Records.{Customer};
ghost use Rattle.brk_model.specs.Sheets.{sheets};
ghost use Rattle.brk_model.specs.StatusView.{trade_status_view};
ghost use Rattle.brk_model.specs.Tables.{tables_of_base};
ghost use Rattle.brk_model.specs.Views.{view_of_tables};
ghost use Rattle.brk_audit_theorems.specs.Sound.{AuditInvariant};
ghost use Rattle.brk_trade_books.specs.Books.{BooksInvariant};

/// Proves that sorting the tables by key does not change the view of the balances and market values
/// of customers' accounts.
#[tactic(auto, using(crate::proofs::Worths::same_position))]
pub fn sorting_tables_preserves_account_value_view()
    ensures { (base : Base) (test : Customer → Bool) → BooksInvariant base
        → customer_position_view (sheets base) test ≡ customer_position_view (tables_of_base base) test }
{}

/// Proves that sorting the tables by key does not change the view of an account's 10 most recent
/// trades and of their status changes.
#[tactic(auto, using(crate::proofs::RecentRows::same_recent))]
pub fn sorting_tables_preserves_recent_view()
    ensures { (base : Base) (account : ℕ) → BooksInvariant base → AuditInvariant base
        → recent_trades_view (sheets base) account ≡ recent_trades_view (tables_of_base base) account }
{}

/// Proves that sorting the tables by key does not change the view of an account's names and of its
/// 50 most recent trades.
#[tactic(auto, using(crate::proofs::StatusRows::same_status_view))]
pub fn sorting_tables_preserves_status_view()
    ensures { (base : Base) (account : ℕ) → BooksInvariant base → trade_status_view (sheets base) account ≡ trade_status_view (tables_of_base base) account }
{}

/// Proves that sorting the tables by key does not change the view of any query.
#[tactic(auto, using(crate::proofs::AllViews::same_view_of))]
pub fn sorting_tables_preserves_all_views()
    ensures { (base : Base) (query : Query) → BooksInvariant base → AuditInvariant base
        → view_of_tables (sheets base) query ≡ view_of_tables (tables_of_base base) query }
{}
