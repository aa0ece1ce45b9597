//! Theorems: the settlement of a completed trade, as its explanation prints it.

ghost use Rattle.std.specs.Prelude.{◌≡◌, Some, true};
ghost use Rattle.brk_model.specs.Base.{Base, is_completed, trade_with_id};
ghost use Rattle.brk_model.specs.Records.{Trade};
ghost use Rattle.brk_trade_books.specs.Books.{BooksInvariant};
ghost use Rattle.brk_view_theorems.specs.Equations.{PrintedSettlementMatchesBase};

/// Proves that a completed trade's printed settlement, due day, and tax and commission at current
/// rates equal those that the model computes from the base.
pub fn printed_settlements_match_the_base()
    ensures { (base : Base) (t : Trade) → BooksInvariant base → trade_with_id base t.id ≡ Some t → is_completed t ≡ true → PrintedSettlementMatchesBase base t }
{}
