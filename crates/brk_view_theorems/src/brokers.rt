//! Theorems: the totals that the explanation of a broker prints.

ghost use Rattle.std.specs.Prelude.{◌≡◌, ◌==◌, ℕ, Some, find};
ghost use Rattle.brk_model.specs.Base.{Base};
ghost use Rattle.brk_model.specs.Sheets.{sheets};
ghost use Rattle.brk_model.specs.Tables.{BrokerRow};
ghost use Rattle.brk_trade_books.specs.Books.{BooksInvariant};
ghost use Rattle.brk_view_theorems.specs.Brokers.{PrintedBrokerMatchesTotals};

/// Proves that a broker's printed commissions sum to its commission total, and that its printed
/// trades are as many as its trade count.
pub fn printed_commissions_match_broker_totals()
    ensures { (base : Base) (id : ℕ) (b : BrokerRow) → BooksInvariant base → find (λ r. r.id == id) (sheets base).brokers ≡ Some b
        → PrintedBrokerMatchesTotals base b }
{}
