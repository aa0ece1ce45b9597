//! Theorems: the tables of the empty base have no rows; and a command that a base accepts changes
//! only its own rows of the tables and the last stamp, if the base satisfies the books invariant.

ghost use Rattle.std.specs.Prelude.{◌≡◌, ℕ, List, None, Some, not};
ghost use Rattle.std.specs.List.{AllByRecursion};
ghost use Rattle.brk_money.specs.Kinds.{is_market_type};
ghost use Rattle.brk_money.specs.OrderTypes.{trade_type_of_order_type};
ghost use Rattle.brk_model.specs.Base.{Base, broker_id_of_account, completed_trades, empty_base, trade_with_id};
ghost use Rattle.brk_model.specs.Commands.{AddAccount, AddBand, AddBroker, AddCharge, AddCustomer, AddCustomerTax, AddPermission};
ghost use Rattle.brk_model.specs.Commands.{AddSecurity, AddTaxRate, CancelTrade, Command, CompleteTrade, DepositCash, FeedTicks};
ghost use Rattle.brk_model.specs.Commands.{Listing, Order, PlaceOrder, Reply, SetOneDay, Tick, WithdrawCash};
ghost use Rattle.brk_model.specs.Derived.{due_day};
ghost use Rattle.brk_model.specs.Feed.{triggered_trade_ids};
ghost use Rattle.brk_model.specs.Keyed.{base_with_stored_reply, stored_row_with_key};
ghost use Rattle.brk_model.specs.Movements.{deposit_movement, withdrawal_movement};
ghost use Rattle.brk_model.specs.Orders.{trade_of_order};
ghost use Rattle.brk_model.specs.Records.{Account, Band, Broker, Charge, Customer, CustomerTax, Key, Permission, TaxRate, Trade};
ghost use Rattle.brk_model.specs.Sheets.{sheets};
ghost use Rattle.brk_model.specs.Tables.{tables_without_rows, trade_row};
ghost use Rattle.brk_model.specs.Tests.{stamp_of_next_command, refusal_of_command};
ghost use Rattle.brk_trade_rows.specs.Changes.{tables_with_account, tables_with_band, tables_with_broker, tables_with_charge};
ghost use Rattle.brk_trade_rows.specs.Changes.{tables_with_customer, tables_with_customer_tax, tables_with_stored_reply, tables_with_permission};
ghost use Rattle.brk_trade_rows.specs.Changes.{tables_with_one_day_settlement_start, tables_with_tax_rate};
ghost use Rattle.brk_trade_books.specs.Books.{BooksInvariant};
ghost use Rattle.brk_trade_books.specs.Steps.{HasTableEffect, stored_reply_row, tables_with_listing};
ghost use Rattle.brk_trade_books.specs.Movements.{tables_after_movement};
ghost use Rattle.brk_trade_books.specs.Results.{tables_after_result, result_rows_of_trade};
ghost use Rattle.brk_trade_books.specs.Trading.{tables_after_cancel, trade_ids_triggered_by_feed, tables_after_feed, tables_after_order};

/// Proves that the tables of the empty base have no rows, no last stamp and no day of one-day
/// settlement.
pub fn empty_base_has_no_rows()
    ensures { sheets empty_base ≡ tables_without_rows }
{}

/// Proves that a record of reference data adds one row, or two for a security.
pub fn reference_records_add_only_their_rows()
    // Brokers, customers, accounts and permissions.
    ensures broker { (base : Base) (now : ℕ) (b : Broker) → HasTableEffect base now (AddBroker b) (tables_with_broker b) }
    ensures customer { (base : Base) (now : ℕ) (c : Customer) → HasTableEffect base now (AddCustomer c) (tables_with_customer c) }
    ensures account { (base : Base) (now : ℕ) (a : Account) → HasTableEffect base now (AddAccount a) (tables_with_account a) }
    ensures permission { (base : Base) (now : ℕ) (p : Permission) → HasTableEffect base now (AddPermission p) (tables_with_permission p) }

    // Securities, charges and commission bands.
    ensures security { (base : Base) (now : ℕ) (l : Listing)
        → HasTableEffect base now (AddSecurity l) (tables_with_listing (stamp_of_next_command base now) l) }
    ensures charge { (base : Base) (now : ℕ) (c : Charge) → HasTableEffect base now (AddCharge c) (tables_with_charge c) }
    ensures band { (base : Base) (now : ℕ) (b : Band) → HasTableEffect base now (AddBand b) (tables_with_band b) }

    // Tax rates and the taxes of customers.
    ensures tax_rate { (base : Base) (now : ℕ) (r : TaxRate) → HasTableEffect base now (AddTaxRate r) (tables_with_tax_rate r) }
    ensures customer_tax { (base : Base) (now : ℕ) (x : CustomerTax) → HasTableEffect base now (AddCustomerTax x) (tables_with_customer_tax x) }
{}

/// Proves that an order adds rows of TRADE and TRADE_HISTORY and, if it is pending, of
/// TRADE_REQUEST.
pub fn orders_change_only_their_rows()
    ensures { (base : Base) (now : ℕ) (o : Order)
        → HasTableEffect base now (PlaceOrder o)
        (tables_after_order (trade_row (trade_of_order base (stamp_of_next_command base now) o))
        (not (is_market_type (trade_type_of_order_type o.order_type))) (broker_id_of_account base o.account)) }
{}

/// Proves that a cancel changes the row of its trade, adds to the history and deletes the request.
pub fn cancels_change_only_their_rows()
    ensures { (base : Base) (now id : ℕ) → HasTableEffect base now (CancelTrade id) (tables_after_cancel (stamp_of_next_command base now) id) }
{}

/// Proves that a feed changes last trades and submits, tick by tick, the trades that the model
/// triggers.
pub fn feeds_change_only_their_rows()
    ensures rows { (base : Base) (now : ℕ) (ticks : List Tick)
        → HasTableEffect base now (FeedTicks ticks) (tables_after_feed (stamp_of_next_command base now) ticks) }
    ensures triggered { (base : Base) (now : ℕ) (ticks : List Tick) → BooksInvariant base → refusal_of_command base now (FeedTicks ticks) ≡ None
        → triggered_trade_ids (stamp_of_next_command base now) base ticks ≡ trade_ids_triggered_by_feed (stamp_of_next_command base now) ticks (sheets base) }
{}

/// Proves that a result changes only rows of its trade, lots, summary, broker, settlement and cash.
pub fn results_change_only_their_rows()
    ensures { (base : Base) (now id price : ℕ) (t : Trade) → trade_with_id base id ≡ Some t
        → HasTableEffect base now (CompleteTrade id price) (tables_after_result (result_rows_of_trade base (stamp_of_next_command base now) price t)) }
{}

/// Proves that a movement adds the next cash row and sets the account's balance.
pub fn movements_change_only_their_rows()
    ensures deposit { (base : Base) (now account amount : ℕ)
        → HasTableEffect base now (DepositCash account amount)
        (tables_after_movement base (deposit_movement (stamp_of_next_command base now) account amount)) }
    ensures withdrawal { (base : Base) (now account amount : ℕ)
        → HasTableEffect base now (WithdrawCash account amount)
        (tables_after_movement base (withdrawal_movement (stamp_of_next_command base now) account amount)) }
{}

/// Proves that the first day of one-day settlement changes no other row and no due day of a
/// completed trade.
pub fn one_day_settlement_start_changes_only_its_row()
    ensures row { (base : Base) (now day : ℕ) → HasTableEffect base now (SetOneDay day) (tables_with_one_day_settlement_start day) }
    ensures due_days { (base : Base) (now day : ℕ) → BooksInvariant base → refusal_of_command base now (SetOneDay day) ≡ None
        → AllByRecursion (λ t. due_day (Some day) t ≡ due_day base.rule t) (completed_trades base) }
{}

/// Proves that a reply stored under a new key adds one row of KEPT.
pub fn stored_replies_add_only_one_row()
    ensures { (base : Base) (key : Key) (command : Command) (reply : Reply) → stored_row_with_key base key ≡ None
        → sheets (base_with_stored_reply (Some key) command reply base) ≡ tables_with_stored_reply (stored_reply_row key command reply) (sheets base) }
{}
