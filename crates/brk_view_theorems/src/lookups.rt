//! Theorems about the views of trades that are looked up, and of the lots that a trade touched; and
//! about the rows that are read for views: unique by key, and complete if read key by key.

ghost use Rattle.std.specs.Prelude.{◌≡◌, ◌==◌, ℕ, Bool, List, filter, find, flat_map, map, option_to_list, true};
ghost use Rattle.brk_model.specs.Base.{Base};
ghost use Rattle.brk_model.specs.Joins.{trade_rows_oldest_first};
ghost use Rattle.brk_model.specs.Lists.{all_distinct, contains_number};
ghost use Rattle.brk_model.specs.LookupView.{is_cash_row_of_trade, trade_touches_lot, trade_lookup_view, touched_lots_of_oldest_trade};
ghost use Rattle.brk_model.specs.Sheets.{sheets};
ghost use Rattle.brk_model.specs.Tables.{TradeRow, tables_of_base};
ghost use Rattle.brk_audit_theorems.specs.Sound.{AuditInvariant};
ghost use Rattle.brk_trade_books.specs.Books.{BooksInvariant};

/// Proves that sorting the tables by key does not change the view of the 20 oldest trades that pass
/// a test.
#[tactic(auto, using(crate::proofs::LookupRows::same_lookup))]
pub fn sorting_tables_preserves_lookup_view()
    ensures { (base : Base) (test : TradeRow → Bool) → BooksInvariant base → AuditInvariant base
        → trade_lookup_view (sheets base) test ≡ trade_lookup_view (tables_of_base base) test }
{}

/// Proves that sorting the tables by key does not change the view of the lots that an account's
/// oldest trade from a stamp on touched.
#[tactic(auto, using(crate::proofs::TouchRows::same_lots))]
pub fn sorting_tables_preserves_lots_view()
    ensures { (base : Base) (account first : ℕ) → BooksInvariant base → AuditInvariant base
        → touched_lots_of_oldest_trade (sheets base) account first ≡ touched_lots_of_oldest_trade (tables_of_base base) account first }
{}

/// Proves that settlements and cash rows are unique by trade, and accounts and customers by id.
#[tactic(auto, using(crate::proofs::FoundRows::rows_alone))]
pub fn rows_with_a_key_are_unique()
    ensures settlements { (base : Base) (trade : ℕ) → BooksInvariant base → AuditInvariant base
        → option_to_list (find (λ s. s.trade == trade) (sheets base).settlements) ≡ filter (λ s. s.trade == trade) (sheets base).settlements }
    ensures cash { (base : Base) (trade : ℕ) → BooksInvariant base → AuditInvariant base
        → option_to_list (find (is_cash_row_of_trade trade) (sheets base).moves) ≡ filter (is_cash_row_of_trade trade) (sheets base).moves }
    ensures accounts { (base : Base) (id : ℕ) → BooksInvariant base → AuditInvariant base
        → option_to_list (find (λ a. a.id == id) (sheets base).accounts) ≡ filter (λ a. a.id == id) (sheets base).accounts }
    ensures customers { (base : Base) (id : ℕ) → BooksInvariant base → AuditInvariant base
        → option_to_list (find (λ c. c.id == id) (sheets base).customers) ≡ filter (λ c. c.id == id) (sheets base).customers }
{}

/// Proves that trades read one by one by distinct ids, and then sorted by stamp and id, are all
/// trades with these ids.
#[tactic(auto, using(crate::proofs::FoundRows::trades_by_id))]
pub fn trades_read_by_ids_are_complete()
    ensures { (base : Base) (ids : List ℕ) → BooksInvariant base → AuditInvariant base → all_distinct ids ≡ true
        → trade_rows_oldest_first (flat_map (λ id. option_to_list (find (λ t. t.id == id) (sheets base).trades)) ids)
        ≡ trade_rows_oldest_first (filter (λ t. contains_number t.id ids) (sheets base).trades) }
{}

/// Proves that the rows of HOLDING_HISTORY read lot by lot, for the lots that a trade touched, are
/// all rows of these lots, in order.
#[tactic(auto, using(crate::proofs::TouchRows::touched_by_lot))]
pub fn lot_changes_read_by_lot_are_complete()
    ensures { (base : Base) (trade : ℕ) → BooksInvariant base → AuditInvariant base
        → flat_map (λ lot. filter (λ r. r.lot == lot) (sheets base).holding_history)
        (map (λ r. r.lot) (filter (λ r. r.trade == trade) (sheets base).holding_history))
        ≡ filter (λ r. trade_touches_lot (sheets base) trade r.lot) (sheets base).holding_history }
{}
