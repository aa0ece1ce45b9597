//! Theorems: the lots that a completed trade closed, as its explanation lists them.

ghost use Rattle.std.specs.Prelude.{◌≡◌, Some, true};
ghost use Rattle.brk_model.specs.Base.{Base, is_completed, trade_with_id};
ghost use Rattle.brk_model.specs.Records.{Trade};
ghost use Rattle.brk_trade_books.specs.Books.{BooksInvariant};
ghost use Rattle.brk_view_theorems.specs.Closings.{PrintedClosingsMatchDeal};

/// Proves that the printed closings and the opened lot of a completed trade have the values, the
/// gain and the shares of its deal.
pub fn printed_closings_match_the_deal()
    ensures { (base : Base) (t : Trade) → BooksInvariant base → trade_with_id base t.id ≡ Some t → is_completed t ≡ true → PrintedClosingsMatchDeal base t }
{}
