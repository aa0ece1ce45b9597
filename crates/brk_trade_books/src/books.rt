//! Theorems: commands preserve the books invariant.

ghost use Rattle.std.specs.Prelude.{ℕ, List, Option};
ghost use Rattle.brk_model.specs.Base.{Base, empty_base};
ghost use Rattle.brk_model.specs.Commands.{AddAccount, AddBand, AddBroker, AddCharge, AddCustomer, AddCustomerTax, AddPermission};
ghost use Rattle.brk_model.specs.Commands.{AddSecurity, AddTaxRate, CancelTrade, Command, CompleteTrade, FeedTicks, Listing};
ghost use Rattle.brk_model.specs.Commands.{Order, PlaceOrder, Reply, Tick, DepositCash, SetOneDay, WithdrawCash};
ghost use Rattle.brk_model.specs.Keyed.{base_with_stored_reply};
ghost use Rattle.brk_model.specs.Records.{Account, Band, Broker, Charge, Customer, CustomerTax, Key, Permission, TaxRate};
ghost use Rattle.brk_trade_books.specs.Books.{BooksInvariant};
ghost use Rattle.brk_trade_books.specs.Steps.{PreservesBooksInvariant};

/// Proves that the empty base satisfies the books invariant.
pub fn empty_base_satisfies_books_invariant()
    ensures { BooksInvariant empty_base }
{}

/// Proves that an accepted record of reference data preserves the invariant.
pub fn reference_records_preserve_books_invariant()
    // Brokers, customers, accounts and permissions.
    ensures broker { (base : Base) (now : ℕ) (b : Broker) → PreservesBooksInvariant base now (AddBroker b) }
    ensures customer { (base : Base) (now : ℕ) (c : Customer) → PreservesBooksInvariant base now (AddCustomer c) }
    ensures account { (base : Base) (now : ℕ) (a : Account) → PreservesBooksInvariant base now (AddAccount a) }
    ensures permission { (base : Base) (now : ℕ) (p : Permission) → PreservesBooksInvariant base now (AddPermission p) }

    // Securities, charges and commission bands.
    ensures security { (base : Base) (now : ℕ) (l : Listing) → PreservesBooksInvariant base now (AddSecurity l) }
    ensures charge { (base : Base) (now : ℕ) (c : Charge) → PreservesBooksInvariant base now (AddCharge c) }
    ensures band { (base : Base) (now : ℕ) (b : Band) → PreservesBooksInvariant base now (AddBand b) }

    // Tax rates and the taxes of customers.
    ensures tax_rate { (base : Base) (now : ℕ) (r : TaxRate) → PreservesBooksInvariant base now (AddTaxRate r) }
    ensures customer_tax { (base : Base) (now : ℕ) (x : CustomerTax) → PreservesBooksInvariant base now (AddCustomerTax x) }
{}

/// Proves that an accepted order preserves the invariant.
pub fn orders_preserve_books_invariant()
    ensures { (base : Base) (now : ℕ) (o : Order) → PreservesBooksInvariant base now (PlaceOrder o) }
{}

/// Proves that an accepted cancel preserves the invariant.
pub fn cancels_preserve_books_invariant()
    ensures { (base : Base) (now id : ℕ) → PreservesBooksInvariant base now (CancelTrade id) }
{}

/// Proves that an accepted feed preserves the invariant.
pub fn feeds_preserve_books_invariant()
    ensures { (base : Base) (now : ℕ) (ticks : List Tick) → PreservesBooksInvariant base now (FeedTicks ticks) }
{}

/// Proves that an accepted result preserves the invariant.
pub fn results_preserve_books_invariant()
    ensures { (base : Base) (now id price : ℕ) → PreservesBooksInvariant base now (CompleteTrade id price) }
{}

/// Proves that an accepted movement, or first day of one-day settlement, preserves the invariant.
pub fn movements_and_oneday_preserve_books_invariant()
    ensures deposit { (base : Base) (now account amount : ℕ) → PreservesBooksInvariant base now (DepositCash account amount) }
    ensures withdrawal { (base : Base) (now account amount : ℕ) → PreservesBooksInvariant base now (WithdrawCash account amount) }
    ensures one_day { (base : Base) (now day : ℕ) → PreservesBooksInvariant base now (SetOneDay day) }
{}

/// Proves that a reply stored under a key preserves the invariant.
pub fn stored_replies_preserve_books_invariant()
    ensures { (base : Base) (key : Option Key) (command : Command) (reply : Reply) → BooksInvariant base
        → BooksInvariant (base_with_stored_reply key command reply base) }
{}
