//! Theorems about bases that satisfy the books invariant, such as the empty base, and about any run
//! of calls from one.

ghost use Rattle.std.specs.Prelude.{◌+ℤ◌, ◌≡◌, [], ℕ, List, None, Option, Some, map};
ghost use Rattle.brk_lots.specs.Books.{deal_quantity_sum, realised_gain_sum, cost_basis_of_lots, lot_quantity_sum, purchase_value_minus_sale_value};
ghost use Rattle.brk_lots.specs.Chains.{IsLotHistory, changes_of_lot};
ghost use Rattle.brk_lots.specs.Lots.{abstract_lot, shares_of_lots};
ghost use Rattle.brk_lots.specs.Position.{IsPosition};
ghost use Rattle.brk_money.specs.Spelling.{Text};
ghost use Rattle.brk_model.specs.Base.{Base, completed_trades, empty_base, trade_with_id};
ghost use Rattle.brk_model.specs.Commands.{Command, CompleteTrade, Done, Reply};
ghost use Rattle.brk_model.specs.Derived.{deals_of_position, shares_of_position};
ghost use Rattle.brk_model.specs.Keyed.{keyed_step};
ghost use Rattle.brk_model.specs.Records.{Key, Trade};
ghost use Rattle.brk_model.specs.Run.{Call, Outcome, Run};
ghost use Rattle.brk_model.specs.Shares.{lot_quantity, lots_of_shares, replay};
ghost use Rattle.brk_model.specs.Sheets.{sheets};
ghost use Rattle.brk_model.specs.Tests.{refusal_of_command};
ghost use Rattle.brk_trade_books.specs.Books.{BooksInvariant};
ghost use Rattle.brk_trade_books.specs.Steps.{PreservesBooksInvariant, base_after_command};
ghost use Rattle.brk_trade_books.specs.Runs.{TradeRowHasTax, CompletedTradeHasTax, IsRunWithSumsAndTaxes, RecordsTaxesOfResults, tax_at_completion};
ghost use Rattle.brk_trade_books.specs.Sums.{TableSumsMatchTheirRows};
ghost use Rattle.brk_trade_books.specs.TradeReads.{lots_of_position};

/// Proves that every accepted command and every run preserves the invariant.
pub fn runs_preserve_books_invariant()
    ensures command { (base : Base) (now : ℕ) (command : Command) → PreservesBooksInvariant base now command }
    ensures run { (base : Base) (calls : List (ℕ × Call)) (outcomes : List Outcome) (after : Base)
        → BooksInvariant base → Run base calls outcomes after → BooksInvariant after }
    ensures first { (calls : List (ℕ × Call)) (outcomes : List Outcome) (after : Base)
        → Run empty_base calls outcomes after → BooksInvariant after }
{}

/// Proves that lots have the shares that replaying the completed trades yields, and that their
/// changes form chains (`IsLotHistory`).
pub fn lots_match_replayed_shares()
    ensures position { (base after : Base) (calls : List (ℕ × Call)) (outcomes : List Outcome) (account : ℕ) (symbol : Text)
        → BooksInvariant base → Run base calls outcomes after → IsPosition (lots_of_position (sheets after) account symbol) }
    ensures shares { (base after : Base) (calls : List (ℕ × Call)) (outcomes : List Outcome) (account : ℕ) (symbol : Text)
        → BooksInvariant base → Run base calls outcomes after
        → shares_of_lots (lots_of_position (sheets after) account symbol) ≡ replay (deals_of_position (completed_trades after) account symbol) }
    ensures lots { (base after : Base) (calls : List (ℕ × Call)) (outcomes : List Outcome) (account : ℕ) (symbol : Text)
        → BooksInvariant base → Run base calls outcomes after
        → map abstract_lot (lots_of_position (sheets after) account symbol) ≡ lots_of_shares (shares_of_position (completed_trades after) account symbol) }
    ensures histories { (base after : Base) (calls : List (ℕ × Call)) (outcomes : List Outcome) (account : ℕ) (symbol : Text) (lot : ℕ)
        → BooksInvariant base → Run base calls outcomes after
        → IsLotHistory (changes_of_lot lot (deals_of_position (completed_trades after) account symbol) [])
        (lot_quantity (replay (deals_of_position (completed_trades after) account symbol)) lot) }
{}

/// Proves that lots sum to purchases minus sales, and their cost basis to purchases minus sales in
/// value plus realised gains.
pub fn lot_sums_match_deals()
    ensures quantities { (base after : Base) (calls : List (ℕ × Call)) (outcomes : List Outcome) (account : ℕ) (symbol : Text)
        → BooksInvariant base → Run base calls outcomes after
        → lot_quantity_sum (lots_of_position (sheets after) account symbol) ≡ deal_quantity_sum (deals_of_position (completed_trades after) account symbol) }
    ensures costs { (base after : Base) (calls : List (ℕ × Call)) (outcomes : List Outcome) (account : ℕ) (symbol : Text)
        → BooksInvariant base → Run base calls outcomes after
        → cost_basis_of_lots (lots_of_position (sheets after) account symbol)
        ≡ realised_gain_sum (deals_of_position (completed_trades after) account symbol) []
        +ℤ purchase_value_minus_sale_value (deals_of_position (completed_trades after) account symbol) }
{}

/// Proves that broker totals, balances, summaries and lot histories match the rows that they count.
pub fn table_sums_match_their_rows()
    ensures base { (base : Base) → BooksInvariant base → TableSumsMatchTheirRows (sheets base) }
    ensures run { (base after : Base) (calls : List (ℕ × Call)) (outcomes : List Outcome)
        → BooksInvariant base → Run base calls outcomes after → TableSumsMatchTheirRows (sheets after) }
{}

/// Proves that a result records the tax on the gain of exactly the shares that it closes, and that
/// runs preserve this tax.
pub fn results_are_taxed_on_closed_shares()
    // An accepted result records the tax, as a command and as a call with or without a key.
    ensures taxed { (base : Base) (now id price : ℕ) (t : Trade)
        → BooksInvariant base → trade_with_id base id ≡ Some t → refusal_of_command base now (CompleteTrade id price) ≡ None
        → CompletedTradeHasTax id (tax_at_completion base now price t) (base_after_command base now (CompleteTrade id price)) }
    ensures called { (base after : Base) (now id price : ℕ) (key : Option Key) (reply : Reply)
        → BooksInvariant base → keyed_step base now (CompleteTrade id price) key ≡ (Done reply, after)
        → (t : Trade) × (trade_with_id base id ≡ Some t) × CompletedTradeHasTax id (tax_at_completion base now price t) after }

    // Any run preserves the tax, and the row of the trade has it.
    ensures preserved { (base : Base) (calls : List (ℕ × Call)) (outcomes : List Outcome) (after : Base) (id tax : ℕ)
        → BooksInvariant base → Run base calls outcomes after → CompletedTradeHasTax id tax base → CompletedTradeHasTax id tax after }
    ensures row { (base : Base) (id tax : ℕ) → CompletedTradeHasTax id tax base → TradeRowHasTax (sheets base) id tax }

    // After a run, the rows have the taxes of all its results.
    ensures run { (base after : Base) (calls : List (ℕ × Call)) (outcomes : List Outcome)
        → BooksInvariant base → Run base calls outcomes after → RecordsTaxesOfResults (sheets after) base calls outcomes }
{}

/// Proves for a run at once the invariant, the sums in the tables and the taxes of results.
pub fn runs_preserve_sums_and_taxes()
    ensures run { (base after : Base) (calls : List (ℕ × Call)) (outcomes : List Outcome)
        → BooksInvariant base → Run base calls outcomes after → IsRunWithSumsAndTaxes base calls outcomes after }
    ensures first { (after : Base) (calls : List (ℕ × Call)) (outcomes : List Outcome)
        → Run empty_base calls outcomes after → IsRunWithSumsAndTaxes empty_base calls outcomes after }
{}
