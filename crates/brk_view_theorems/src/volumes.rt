//! Theorems about the view of brokers' pending requests.

ghost use Rattle.std.specs.Prelude.{◌≡◌, ◌&&◌, List, bytes_eq, filter, flat_map, length, nat_lt};
ghost use Rattle.std.specs.List.{list_any};
ghost use Rattle.brk_money.specs.Spelling.{Text};
ghost use Rattle.brk_model.specs.Base.{Base};
ghost use Rattle.brk_model.specs.Lists.{distinct_texts, sort_by};
ghost use Rattle.brk_model.specs.Sheets.{sheets};
ghost use Rattle.brk_model.specs.Tables.{tables_of_base};
ghost use Rattle.brk_model.specs.VolumeView.{is_before_by_volume, sector_requests_of_broker, broker_volume_view};
ghost use Rattle.brk_audit_theorems.specs.Sound.{AuditInvariant};
ghost use Rattle.brk_trade_books.specs.Books.{BooksInvariant};

/// Proves that sorting the tables by key does not change the view of the brokers with pending
/// requests in a sector.
#[tactic(auto, using(crate::proofs::VolumeRows::same_volumes))]
pub fn sorting_tables_preserves_volume_view()
    ensures { (base : Base) (sector : Text) (names : List Text) → BooksInvariant base → AuditInvariant base
        → broker_volume_view (sheets base) sector names ≡ broker_volume_view (tables_of_base base) sector names }
{}

/// Proves that brokers with pending requests in a sector, read by distinct names and sorted, are
/// all such brokers with these names.
#[tactic(auto, using(crate::proofs::VolumeRows::brokers_by_name))]
pub fn brokers_read_by_name_are_complete()
    ensures { (base : Base) (sector : Text) (names : List Text) → BooksInvariant base → AuditInvariant base → distinct_texts names ≡ names
        → sort_by (is_before_by_volume (sheets base) sector)
        (flat_map (λ name. filter (λ b. nat_lt 0 (length (sector_requests_of_broker (sheets base) sector b.id)))
        (filter (λ b. bytes_eq b.name name) (sheets base).brokers)) names)
        ≡ sort_by (is_before_by_volume (sheets base) sector)
        (filter (λ b. list_any (bytes_eq b.name) names && nat_lt 0 (length (sector_requests_of_broker (sheets base) sector b.id))) (sheets base).brokers) }
{}
