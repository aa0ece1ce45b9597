//! Theorems: lookups in the tables of a base return the values that the model finds in the base,
//! which must satisfy the books invariant where a clause names it.

ghost use Rattle.std.specs.Prelude.{◌&&◌, ◌+ℤ◌, ◌≡◌, ◌==◌, ℕ, List, Some, bytes_eq, false, filter, find, flat_map};
ghost use Rattle.std.specs.Prelude.{is_none, is_some, length, map, option_map, pos, sum_by, true};
ghost use Rattle.std.specs.List.{list_any};
ghost use Rattle.brk_money.specs.Kinds.{is_same_trade_type};
ghost use Rattle.brk_money.specs.Spelling.{Text};
ghost use Rattle.brk_money.specs.declared.trade_type.TradeType.{TradeType};
ghost use Rattle.brk_lots.specs.Lots.{shares_of_lots};
ghost use Rattle.brk_lots.specs.Position.{AreOpenedBeforeStamp, AreOpenedByOtherTrades, IsPosition};
ghost use Rattle.brk_model.specs.Base as base_spec;
ghost use Rattle.brk_model.specs.Base.{Base, account_with_id, commission_band_for_quantity, broker_with_id, charge_for_type_and_tier, completed_trades};
ghost use Rattle.brk_model.specs.Base.{customer_with_id, is_completed, security_with_symbol, tax_rate_record_with_id, trade_with_id};
ghost use Rattle.brk_model.specs.Commands.{Tick};
ghost use Rattle.brk_model.specs.Derived.{postings_of_base, shares_of_position, holding_summary_quantity};
ghost use Rattle.brk_model.specs.Feed.{is_triggered_by_tick};
ghost use Rattle.brk_model.specs.Joins.{account_row_with_id, trade_row_with_id, cash_move_rows_of_account};
ghost use Rattle.brk_model.specs.Keyed.{stored_row_with_key};
ghost use Rattle.brk_model.specs.Lists.{all_distinct, total_by};
ghost use Rattle.brk_model.specs.Orders.{assets_of_account, is_customer_or_has_permission};
ghost use Rattle.brk_model.specs.PositionView.{market_value_of_account_row};
ghost use Rattle.brk_model.specs.Records.{Band, Customer, Executor, Key, Trade};
ghost use Rattle.brk_model.specs.Sheets.{sheets};
ghost use Rattle.brk_model.specs.Tests.{bands_overlap, stamp_of_next_command};
ghost use Rattle.brk_model.specs.Tables.{AccountRow, BrokerRow, Tables, account_row, broker_row, last_trade_row, security_row, trade_row};
ghost use Rattle.brk_model.specs.Ways.{is_strictly_ascending};
ghost use Rattle.brk_ref.specs.Records.{abstract_tax_rate};
ghost use Rattle.brk_ref.specs.declared.tax.Tax.{Tax};
ghost use Rattle.brk_trade_books.specs.Books.{BooksInvariant};
ghost use Rattle.brk_trade_books.specs.Reads.{account_count_of_customer, overlaps_some_band, contains_customer_with_tax_id};
ghost use Rattle.brk_trade_books.specs.Reads.{customer_tax_rate_sum, tax_rate_with_id};
ghost use Rattle.brk_trade_books.specs.Sums.{completed_trade_rows_of_broker};
ghost use Rattle.brk_trade_books.specs.TradeReads.{commission_band_of_quantity, last_cash_row_number_or_zero};
ghost use Rattle.brk_trade_books.specs.TradeReads.{trade_id_in_last_row_or_zero, shares_of_lot_row};
ghost use Rattle.brk_trade_books.specs.TradeReads.{holding_rows_of_position, permission_list_for_tax_id, permissions_of_account, lots_of_position};
ghost use Rattle.brk_trade_books.specs.TradeReads.{summary_row_if_nonzero, summary_quantity_or_zero, summary_row_of_position};
ghost use Rattle.brk_trade_books.specs.Trading.{trade_ids_triggered_by_tick};

/// Proves that the first broker, customer, account or tax rate with an id in the tables is the
/// first in the base.
pub fn rows_by_id_match_records()
    ensures broker { (base : Base) (id : ℕ)
        → find (λ r. r.id == id) (sheets base).brokers ≡ option_map (broker_row base.accounts (completed_trades base)) (broker_with_id base id) }
    ensures customer { (base : Base) (id : ℕ) → find (λ r. r.id == id) (sheets base).customers ≡ customer_with_id base id }
    ensures account { (base : Base) (id : ℕ)
        → find (λ r. r.id == id) (sheets base).accounts ≡ option_map (account_row base.accounts (postings_of_base base)) (account_with_id base id) }
    ensures tax_rate { (base : Base) (id : ℕ) → find (λ r. r.id == id) (sheets base).tax_rates ≡ tax_rate_record_with_id base id }
{}

/// Proves that the first permission, security, last trade, charge or customer's tax with a key in
/// the tables is the first in the base.
pub fn rows_by_key_match_records()
    // Permissions by account and tax id.
    ensures permission { (base : Base) (account : ℕ) (tax_id : Text)
        → find (λ r. (r.account == account) && bytes_eq r.tax_id tax_id) (sheets base).permissions
        ≡ find (λ p. (p.account == account) && bytes_eq p.tax_id tax_id) base.permissions }

    // Securities and last trades by symbol.
    ensures security { (base : Base) (symbol : Text)
        → find (λ r. bytes_eq r.symbol symbol) (sheets base).securities ≡ option_map security_row (security_with_symbol base symbol) }
    ensures last_trade { (base : Base) (symbol : Text)
        → find (λ r. bytes_eq r.symbol symbol) (sheets base).last_trades ≡ option_map last_trade_row (security_with_symbol base symbol) }

    // Charges by trade type and tier, and the taxes of customers by customer and tax rate.
    ensures charge { (base : Base) (kind : TradeType) (tier : ℕ)
        → find (λ r. is_same_trade_type r.kind kind && (r.tier == tier)) (sheets base).charges ≡ charge_for_type_and_tier base kind tier }
    ensures customer_tax { (base : Base) (customer tax : ℕ)
        → find (λ r. (r.customer == customer) && (r.tax == tax)) (sheets base).customer_taxes
        ≡ find (λ x. (x.customer == customer) && (x.tax == tax)) base.customer_taxes }
{}

/// Proves that a band overlaps one in the tables exactly if it overlaps one in the base.
pub fn band_overlaps_match_the_base()
    ensures { (base : Base) (b : Band) → overlaps_some_band (sheets base) b ≡ list_any (bands_overlap b) base.bands }
{}

/// Proves that the rates of a customer's taxes sum to the customer's sum in the tables.
pub fn tax_rates_sum_to_customer_rates()
    ensures { (t : Tables) (customer : ℕ) (taxes : List Tax)
        → map (λ tax. Some (abstract_tax_rate tax)) taxes ≡ map (λ r. tax_rate_with_id t r.tax) (filter (λ r. r.customer == customer) t.customer_taxes)
        → sum_by (λ tax. tax.rate) taxes ≡ customer_tax_rate_sum t customer }
{}

/// Proves that a customer's tax rates have one sum in the tables and in the base.
pub fn customer_tax_rate_sums_match_the_base()
    ensures { (base : Base) (customer : ℕ) → customer_tax_rate_sum (sheets base) customer ≡ base_spec.tax_rate_sum_of_customer base customer }
{}

/// Proves that a tax id is in use in the tables exactly if it is in the base.
pub fn tax_ids_match_the_base()
    ensures { (base : Base) (tax_id : Text) → contains_customer_with_tax_id (sheets base) tax_id ≡ list_any (λ c. bytes_eq c.tax_id tax_id) base.customers }
{}

/// Proves that a customer has as many accounts in the tables as in the base.
pub fn account_counts_match_the_base()
    ensures { (base : Base) (customer : ℕ) → account_count_of_customer (sheets base) customer ≡ length (filter (λ a. a.customer == customer) base.accounts) }
{}

/// Proves that the last stamp in the tables equals the base's.
pub fn last_stamp_matches_the_base()
    ensures { (base : Base) → (sheets base).last ≡ base.last }
{}

/// Proves that the first row of KEPT with a key is the first stored in the base.
pub fn stored_replies_match_the_base()
    ensures { (base : Base) (key : Key)
        → find (λ k. bytes_eq k.key.batch key.batch && (k.key.n == key.n)) (sheets base).kept ≡ stored_row_with_key base key }
{}

/// Proves that the first row of TRADE with an id equals the row of the base's first such trade.
pub fn trade_rows_match_trades()
    ensures { (base : Base) (id : ℕ) → trade_row_with_id (sheets base) id ≡ option_map trade_row (trade_with_id base id) }
{}

/// Proves that the id in the last row of TRADE, or 0, is the number of trades.
pub fn trade_id_in_last_row_is_trade_count()
    ensures { (base : Base) → BooksInvariant base → trade_id_in_last_row_or_zero (sheets base) ≡ length base.trades }
{}

/// Proves that the last number in CASH_MOVE counts the postings, and the rows without a trade the
/// movements.
pub fn cash_row_counts_match_the_base()
    ensures rows { (base : Base) → last_cash_row_number_or_zero (sheets base) ≡ length (postings_of_base base) }
    ensures movements { (base : Base) → length (filter (λ r. is_none r.trade) (sheets base).moves) ≡ length base.movements }
{}

/// Proves that a tick triggers the requests of exactly the trades that it triggers, in ascending
/// order.
pub fn triggered_requests_match_trades()
    ensures trades { (base : Base) (tick : Tick) → BooksInvariant base
        → trade_ids_triggered_by_tick tick (sheets base) ≡ map (λ t. t.id) (filter (is_triggered_by_tick tick) base.trades) }
    ensures ascending { (base : Base) (tick : Tick) → BooksInvariant base → is_strictly_ascending (trade_ids_triggered_by_tick tick (sheets base)) ≡ true }
{}

/// Proves that no two requests belong to the same trade.
pub fn requests_belong_to_distinct_trades()
    ensures { (base : Base) → BooksInvariant base → all_distinct (map (λ r. r.trade) (sheets base).requests) ≡ true }
{}

/// Proves that the permission for an executor's tax id decides as all permissions of the account in
/// the base do.
pub fn permission_by_tax_id_matches_the_base()
    ensures { (base : Base) (account : ℕ) (c : Customer) (e : Executor) → BooksInvariant base
        → is_customer_or_has_permission c (permission_list_for_tax_id (sheets base) account e.tax_id) e
        ≡ is_customer_or_has_permission c (filter (λ p. p.account == account) base.permissions) e }
{}

/// Proves that the permissions of an account in the tables decide as those in the base do.
pub fn account_permissions_match_the_base()
    ensures { (base : Base) (account : ℕ) (c : Customer) (e : Executor)
        → is_customer_or_has_permission c (permissions_of_account (sheets base) account) e
        ≡ is_customer_or_has_permission c (filter (λ p. p.account == account) base.permissions) e }
{}

/// Proves that a quantity has one commission band, or none, in the tables and in the base.
pub fn commission_bands_match_the_base()
    ensures { (base : Base) (tier : ℕ) (kind : TradeType) (exchange : Text) (qty : ℕ) → BooksInvariant base
        → commission_band_of_quantity (sheets base) tier kind exchange qty ≡ commission_band_for_quantity base tier kind exchange qty }
{}

/// Proves that an account's assets are its balance plus its summaries at last prices, in cents.
pub fn assets_equal_balance_plus_holdings()
    ensures { (base : Base) (id : ℕ) (r : AccountRow) → BooksInvariant base → account_row_with_id (sheets base) id ≡ Some r
        → r.balance +ℤ market_value_of_account_row (sheets base) r ≡ assets_of_account base id }
{}

/// Proves that the lots of an account in a symbol, the oldest first, have the shares of the base.
pub fn lot_shares_match_the_base()
    ensures { (base : Base) (account : ℕ) (symbol : Text) → BooksInvariant base
        → flat_map shares_of_lot_row (holding_rows_of_position (sheets base) account symbol) ≡ shares_of_position (completed_trades base) account symbol }
{}

/// Proves that the lots of an account in a symbol form a position, opened before the next stamp and
/// by no uncompleted trade.
pub fn lots_form_a_position()
    ensures position { (base : Base) (account : ℕ) (symbol : Text) → BooksInvariant base → IsPosition (lots_of_position (sheets base) account symbol) }
    ensures shares { (base : Base) (account : ℕ) (symbol : Text) → BooksInvariant base
        → shares_of_lots (lots_of_position (sheets base) account symbol) ≡ shares_of_position (completed_trades base) account symbol }
    ensures later { (base : Base) (now account : ℕ) (symbol : Text) → BooksInvariant base
        → AreOpenedBeforeStamp (stamp_of_next_command base now) (lots_of_position (sheets base) account symbol) }
    ensures fresh { (base : Base) (id account : ℕ) (symbol : Text) (t : Trade) → BooksInvariant base → trade_with_id base id ≡ Some t → is_completed t ≡ false
        → AreOpenedByOtherTrades id (lots_of_position (sheets base) account symbol) }
{}

/// Proves that a summary has the quantity of the base, and no row if that is 0.
pub fn summary_rows_match_the_base()
    ensures row { (base : Base) (account : ℕ) (symbol : Text) → BooksInvariant base → is_some (account_with_id base account) ≡ true
        → is_some (security_with_symbol base symbol) ≡ true
        → summary_row_of_position (sheets base) account symbol
        ≡ summary_row_if_nonzero account symbol (holding_summary_quantity (completed_trades base) account symbol) }
    ensures number { (base : Base) (account : ℕ) (symbol : Text) → BooksInvariant base → is_some (account_with_id base account) ≡ true
        → is_some (security_with_symbol base symbol) ≡ true
        → summary_quantity_or_zero (summary_row_of_position (sheets base) account symbol) ≡ holding_summary_quantity (completed_trades base) account symbol }
{}

/// Proves that a balance is the opening balance plus the amounts of the account's cash rows.
pub fn balances_equal_opening_plus_cash_rows()
    ensures { (base : Base) (id : ℕ) (r : AccountRow) → BooksInvariant base → account_row_with_id (sheets base) id ≡ Some r
        → r.balance ≡ r.opening +ℤ total_by (λ r. r.amount) (cash_move_rows_of_account (sheets base) id) }
{}

/// Proves that a broker's totals count the completed trades and sum their commissions, in cents.
pub fn broker_totals_equal_trade_sums()
    ensures trades { (base : Base) (id : ℕ) (r : BrokerRow) → BooksInvariant base → find (λ r. r.id == id) (sheets base).brokers ≡ Some r
        → r.trades ≡ pos (length (completed_trade_rows_of_broker (sheets base) id)) }
    ensures commissions { (base : Base) (id : ℕ) (r : BrokerRow) → BooksInvariant base → find (λ r. r.id == id) (sheets base).brokers ≡ Some r
        → r.commissions ≡ sum_by (λ t. t.commission) (completed_trade_rows_of_broker (sheets base) id) }
{}
