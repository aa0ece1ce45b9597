//! Theorems: no run of calls changes the figures in the explanation of a completed trade.

ghost use Rattle.std.specs.Prelude.{◌≡◌, ℕ, List, Some, true};
ghost use Rattle.brk_model.specs.Base.{Base, is_completed, trade_with_id};
ghost use Rattle.brk_model.specs.Records.{Trade};
ghost use Rattle.brk_model.specs.Run.{Call, Outcome, Run};
ghost use Rattle.brk_trade_books.specs.Books.{BooksInvariant};
ghost use Rattle.brk_view_theorems.specs.UnchangedFigures.{PrintsSameFigures};

/// Proves that the explanation of a completed trade prints the same figures (`PrintsSameFigures`)
/// before and after any run of calls.
pub fn runs_preserve_explained_figures()
    ensures { (base later : Base) (calls : List (ℕ × Call)) (outcomes : List Outcome) (t : Trade) → BooksInvariant base → Run base calls outcomes later
        → trade_with_id base t.id ≡ Some t → is_completed t ≡ true → (u : Trade) × (trade_with_id later t.id ≡ Some u) × PrintsSameFigures base later t u }
{}
