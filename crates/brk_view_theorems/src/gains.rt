//! Theorems: the totals that the explanation of a holding prints.

ghost use Rattle.std.specs.Prelude.{◌≡◌, ℕ, Some, is_some, true};
ghost use Rattle.brk_money.specs.Spelling.{Text};
ghost use Rattle.brk_model.specs.Base.{Base, account_with_id, completed_trades, is_completed, security_with_symbol, trade_with_id};
ghost use Rattle.brk_model.specs.Derived.{holding_summary_quantity};
ghost use Rattle.brk_model.specs.Records.{Trade};
ghost use Rattle.brk_model.specs.Sheets.{sheets};
ghost use Rattle.brk_model_explain.specs.Holdings.{summary_quantity_in_symbol};
ghost use Rattle.brk_trade_books.specs.Books.{BooksInvariant};
ghost use Rattle.brk_view_theorems.specs.Gains.{PrintedHoldingMatchesDeals, LotChangesSumToQuantity};

/// Proves that a holding's printed gain, cost basis and shares follow from its deals, and that a
/// trade's lot changes sum to its signed quantity.
pub fn printed_gains_match_the_deals()
    ensures holding { (base : Base) (account : ℕ) (symbol : Text) → BooksInvariant base → PrintedHoldingMatchesDeals base account symbol }
    ensures trade { (base : Base) (t : Trade) → BooksInvariant base → trade_with_id base t.id ≡ Some t → is_completed t ≡ true
        → LotChangesSumToQuantity base t }
    ensures quantity { (base : Base) (account : ℕ) (symbol : Text) → BooksInvariant base → is_some (account_with_id base account) ≡ true
        → is_some (security_with_symbol base symbol) ≡ true
        → summary_quantity_in_symbol (sheets base) account symbol ≡ holding_summary_quantity (completed_trades base) account symbol }
{}
