//! Theorems: the checks and the row changes of cancels and feeds from the tables implement their
//! commands, in a base that satisfies the books invariant and at a clock reading of at most the
//! greatest stamp. Also, for any command, that a refused one returns its refusal.

ghost use Rattle.std.specs.Prelude.{◌+◌, ◌≡◌, ◌≤◌, ℕ, Err, List, None, Some, is_some, true};
ghost use Rattle.std.specs.List.{AllByRecursion};
ghost use Rattle.brk_money.specs.Moments.{greatest_stamp, stamp_after};
ghost use Rattle.brk_money.specs.Spelling.{Text};
ghost use Rattle.brk_money.specs.declared.refusal.Refusal.{Refusal};
ghost use Rattle.brk_model.specs.Base.{Base, security_with_symbol};
ghost use Rattle.brk_model.specs.Commands.{CancelTrade, CanceledTrade, Command, FeedTicks, Tick, Ticked};
ghost use Rattle.brk_model.specs.Joins.{trade_row_with_id};
ghost use Rattle.brk_model.specs.Sheets.{sheets};
ghost use Rattle.brk_model.specs.Step.{step};
ghost use Rattle.brk_model.specs.Tests.{first_refusal, refusal_of_command};
ghost use Rattle.brk_trade_books.specs.Books.{BooksInvariant};
ghost use Rattle.brk_trade_books.specs.Steps.{IsAcceptedWithEffect};
ghost use Rattle.brk_trade_books.specs.TradeReads.{volume_of_symbol};
ghost use Rattle.brk_trade_theorems.specs.TradeTests.{cancel_checks_on_trade_row, feed_checks_on_tables};
ghost use Rattle.brk_trade_books.specs.Ticks.{tick_quantity_sum_of_symbol};
ghost use Rattle.brk_trade_books.specs.Trading.{tables_after_cancel, trade_ids_triggered_by_feed, tables_after_feed};

/// Proves that the model's step returns the refusal of the first check that fails.
pub fn refused_commands_return_their_refusal()
    ensures { (base : Base) (now : ℕ) (command : Command) (refusal : Refusal) → refusal_of_command base now command ≡ Some refusal
        → step base now command ≡ Err refusal }
{}

/// Proves that a cancel is refused by its row as in the model, and otherwise changes the tables by
/// `tables_after_cancel`.
pub fn cancels_change_tables_as_specified()
    ensures first { (base : Base) (now id : ℕ) → BooksInvariant base → now ≤ greatest_stamp
        → first_refusal (cancel_checks_on_trade_row (trade_row_with_id (sheets base) id) (sheets base).last now)
        ≡ refusal_of_command base now (CancelTrade id) }
    ensures done { (base : Base) (now id stamp : ℕ) → BooksInvariant base → now ≤ greatest_stamp
        → first_refusal (cancel_checks_on_trade_row (trade_row_with_id (sheets base) id) (sheets base).last now) ≡ None
        → stamp_after (sheets base).last now ≡ Some stamp
        → IsAcceptedWithEffect base now (CancelTrade id) stamp (CanceledTrade stamp) (tables_after_cancel stamp id) }
{}

/// Proves that a feed is refused by last trades as in the model, and otherwise changes the tables
/// by `tables_after_feed`.
pub fn feeds_change_tables_as_specified()
    ensures first { (base : Base) (now : ℕ) (ticks : List Tick) → BooksInvariant base → now ≤ greatest_stamp
        → first_refusal (feed_checks_on_tables (sheets base) ticks (sheets base).last now) ≡ refusal_of_command base now (FeedTicks ticks) }
    ensures done { (base : Base) (now : ℕ) (ticks : List Tick) (stamp : ℕ) → BooksInvariant base → now ≤ greatest_stamp
        → first_refusal (feed_checks_on_tables (sheets base) ticks (sheets base).last now) ≡ None → stamp_after (sheets base).last now ≡ Some stamp
        → IsAcceptedWithEffect base now (FeedTicks ticks) stamp (Ticked stamp (trade_ids_triggered_by_feed stamp ticks (sheets base)))
        (tables_after_feed stamp ticks) }
{}

/// Proves that a feed of listed symbols adds the quantities of a symbol's ticks to its volume.
pub fn feeds_add_tick_quantities_to_volumes()
    ensures { (base : Base) (stamp : ℕ) (ticks : List Tick) (symbol : Text) → BooksInvariant base
        → AllByRecursion (λ tick. is_some (security_with_symbol base tick.symbol) ≡ true) ticks → is_some (security_with_symbol base symbol) ≡ true
        → volume_of_symbol (tables_after_feed stamp ticks (sheets base)) symbol
        ≡ volume_of_symbol (sheets base) symbol + tick_quantity_sum_of_symbol symbol ticks }
{}
