//! Theorems: the explanation of a trade prints the figures of the reply to its result.

ghost use Rattle.std.specs.Prelude.{◌≡◌, ℕ, Ok, Option, Some};
ghost use Rattle.brk_model.specs.Base.{Base, trade_with_id};
ghost use Rattle.brk_model.specs.Commands.{CompleteTrade, CompletedTrade, Completion, Done};
ghost use Rattle.brk_model.specs.Keyed.{keyed_step};
ghost use Rattle.brk_model.specs.Records.{Key, Trade};
ghost use Rattle.brk_model.specs.Step.{step};
ghost use Rattle.brk_trade_books.specs.Books.{BooksInvariant};
ghost use Rattle.brk_view_theorems.specs.ReplyFigures.{PrintsReplyFigures};

/// Proves that after an accepted result, with or without a key, the explanation of the trade prints
/// the figures of the reply.
pub fn explanations_print_reply_figures()
    ensures result { (base after : Base) (now id price stamp : ℕ) (c : Completion) → BooksInvariant base
        → step base now (CompleteTrade id price) ≡ Ok (CompletedTrade stamp c, after)
        → (u : Trade) × (trade_with_id after id ≡ Some u) × PrintsReplyFigures after u c }
    ensures called { (base after : Base) (now id price stamp : ℕ) (key : Option Key) (c : Completion) → BooksInvariant base
        → keyed_step base now (CompleteTrade id price) key ≡ (Done (CompletedTrade stamp c), after)
        → (u : Trade) × (trade_with_id after id ≡ Some u) × PrintsReplyFigures after u c }
{}
