//! Theorems: the balances that explanations print.

ghost use Rattle.std.specs.Prelude.{◌≡◌, ℕ, None, Some, true};
ghost use Rattle.brk_model.specs.Base.{Base, is_completed, trade_with_id};
ghost use Rattle.brk_model.specs.Commands.{CompleteTrade};
ghost use Rattle.brk_model.specs.Joins.{account_row_with_id};
ghost use Rattle.brk_model.specs.Records.{Trade};
ghost use Rattle.brk_model.specs.Sheets.{sheets};
ghost use Rattle.brk_model.specs.Tables.{AccountRow};
ghost use Rattle.brk_model.specs.Tests.{refusal_of_command};
ghost use Rattle.brk_trade_books.specs.Books.{BooksInvariant};
ghost use Rattle.brk_view_theorems.specs.Balances.{PrintedAccountMatchesBase, PrintedBalancesMatchBase, RunsPreservePrintedBalanceAfterTrade};

/// Proves that the printed balances of accounts and trades follow from the postings, and that no
/// later run changes the balance printed after a trade.
pub fn printed_balances_match_the_base()
    ensures account { (base : Base) (id : ℕ) (r : AccountRow) → BooksInvariant base → account_row_with_id (sheets base) id ≡ Some r
        → PrintedAccountMatchesBase base r }
    ensures trade { (base : Base) (t : Trade) → BooksInvariant base → trade_with_id base t.id ≡ Some t → is_completed t ≡ true
        → PrintedBalancesMatchBase base t }
    ensures stays { (base : Base) (now id price : ℕ) (t : Trade) → BooksInvariant base → trade_with_id base id ≡ Some t
        → refusal_of_command base now (CompleteTrade id price) ≡ None
        → RunsPreservePrintedBalanceAfterTrade base now id price }
{}
