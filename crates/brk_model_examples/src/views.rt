//! The views (Customer-Position, Trade-Status, Trade-Lookup by name only).
#![tactic(auto, unfolding(crate::proofs::OnLiterals::model_on_literals))]

ghost use Rattle.std.specs.Prelude.{◌≡◌, ◌∷◌, [], Ok, Err, codes};
ghost use Rattle.brk_money.specs.declared.refusal.Refusal.TheVariants.{BadText, NoCustomer, NoTrade, NotPermitted};
ghost use Rattle.brk_model_examples.specs.Batches.{view_by_name_and_arguments};
ghost use Rattle.brk_model_examples.specs.Trading.{base_after_first_purchase, base_after_two_purchases, base_after_fifo_sale};

/// Shows the views `customer` and `taxid` of a customer with one account: the id, the balance and
/// the market value of the account. The view `customer` of an unknown id is refused with
/// `NoCustomer`.
pub fn customer_views_return_account_values()
    ensures by_id { view_by_name_and_arguments base_after_fifo_sale (codes "customer") (codes "10" ∷ [])
        ≡ Ok ((codes "100" ∷ codes "8403.40" ∷ codes "1500.00" ∷ [])
        ∷ []) }
    ensures by_tax_id { view_by_name_and_arguments base_after_fifo_sale (codes "taxid") (codes "T10" ∷ [])
        ≡ Ok ((codes "100" ∷ codes "8403.40" ∷ codes "1500.00" ∷ [])
        ∷ []) }
    ensures unknown { view_by_name_and_arguments base_after_fifo_sale (codes "customer") (codes "11" ∷ [])
        ≡ Err NoCustomer }
{}

/// Shows the view `recent` of an account with one trade: the trade, and its status changes, the
/// most recent first.
pub fn recent_view_returns_trades_and_history()
    ensures { view_by_name_and_arguments base_after_first_purchase (codes "recent") (codes "100" ∷ [])
        ≡ Ok ((codes "trade" ∷ codes "1" ∷ codes "ABC" ∷ codes "100" ∷ [])
        ∷ (codes "history" ∷ codes "1" ∷ codes "Completed" ∷ codes "1709251200017" ∷ [])
        ∷ (codes "history" ∷ codes "1" ∷ codes "Submitted" ∷ codes "1709251200016" ∷ [])
        ∷ []) }
{}

/// Shows the view `status` of an account: its customer and broker, and its trades, the most recent
/// first.
pub fn status_view_returns_trades_of_account()
    ensures { view_by_name_and_arguments base_after_fifo_sale (codes "status") (codes "100" ∷ [])
        ≡ Ok ((codes "Lee" ∷ codes "Ann" ∷ codes "Bo" ∷ [])
        ∷ (codes "3" ∷ codes "1709251200021" ∷ codes "Completed" ∷ codes "Market-Sell" ∷ codes "ABC" ∷ codes "150" ∷ codes "Ann Lee" ∷ codes "5.00"
        ∷ codes "Acme" ∷ codes "NYSE" ∷ [])
        ∷ (codes "2" ∷ codes "1709251200019" ∷ codes "Completed" ∷ codes "Market-Buy" ∷ codes "ABC" ∷ codes "200" ∷ codes "Ann Lee" ∷ codes "5.00"
        ∷ codes "Acme" ∷ codes "NYSE" ∷ [])
        ∷ (codes "1" ∷ codes "1709251200017" ∷ codes "Completed" ∷ codes "Market-Buy" ∷ codes "ABC" ∷ codes "100" ∷ codes "Ann Lee" ∷ codes "5.00"
        ∷ codes "Acme" ∷ codes "NYSE" ∷ [])
        ∷ []) }
{}

/// Shows that the views `trades`, `accounttrades` and `symboltrades` return one trade with its
/// settlement, its cash row and its status changes. The view `trades` is refused with `NoTrade` for
/// an unknown id, and with `BadText` for a repeated id.
pub fn lookup_views_return_trade_with_details()
    ensures by_id { view_by_name_and_arguments base_after_fifo_sale (codes "trades") (codes "3" ∷ [])
        ≡ Ok ((codes "trade" ∷ codes "3" ∷ codes "1709251200021" ∷ codes "CMPT" ∷ codes "TMS" ∷ codes "ABC" ∷ codes "150" ∷ codes "10.00" ∷ codes "Ann Lee"
        ∷ codes "13.00" ∷ codes "5.00" ∷ codes "19.50" ∷ codes "68.00" ∷ codes "cash" ∷ codes "fifo" ∷ [])
        ∷ (codes "settlement" ∷ codes "Cash Account" ∷ codes "2024-03-03" ∷ codes "1857.50" ∷ [])
        ∷ (codes "cash" ∷ codes "1709251200021" ∷ codes "1857.50" ∷ codes "Market-Sell 150 shares of Acme" ∷ [])
        ∷ (codes "history" ∷ codes "1709251200020" ∷ codes "SBMT" ∷ [])
        ∷ (codes "history" ∷ codes "1709251200021" ∷ codes "CMPT" ∷ [])
        ∷ []) }
    ensures by_account { view_by_name_and_arguments base_after_fifo_sale (codes "accounttrades")
        (codes "100" ∷ codes "1709251200021" ∷ codes "1709251200021" ∷ [])
        ≡ Ok ((codes "trade" ∷ codes "3" ∷ codes "1709251200021" ∷ codes "CMPT" ∷ codes "TMS" ∷ codes "ABC" ∷ codes "150" ∷ codes "10.00" ∷ codes "Ann Lee"
        ∷ codes "13.00" ∷ codes "5.00" ∷ codes "19.50" ∷ codes "68.00" ∷ codes "cash" ∷ codes "fifo" ∷ [])
        ∷ (codes "settlement" ∷ codes "Cash Account" ∷ codes "2024-03-03" ∷ codes "1857.50" ∷ [])
        ∷ (codes "cash" ∷ codes "1709251200021" ∷ codes "1857.50" ∷ codes "Market-Sell 150 shares of Acme" ∷ [])
        ∷ (codes "history" ∷ codes "1709251200020" ∷ codes "SBMT" ∷ [])
        ∷ (codes "history" ∷ codes "1709251200021" ∷ codes "CMPT" ∷ [])
        ∷ []) }
    ensures by_symbol { view_by_name_and_arguments base_after_fifo_sale (codes "symboltrades")
        (codes "ABC" ∷ codes "1709251200021" ∷ codes "1709251200021" ∷ [])
        ≡ Ok ((codes "trade" ∷ codes "3" ∷ codes "1709251200021" ∷ codes "CMPT" ∷ codes "TMS" ∷ codes "ABC" ∷ codes "150" ∷ codes "10.00" ∷ codes "Ann Lee"
        ∷ codes "13.00" ∷ codes "5.00" ∷ codes "19.50" ∷ codes "68.00" ∷ codes "cash" ∷ codes "fifo" ∷ [])
        ∷ (codes "settlement" ∷ codes "Cash Account" ∷ codes "2024-03-03" ∷ codes "1857.50" ∷ [])
        ∷ (codes "cash" ∷ codes "1709251200021" ∷ codes "1857.50" ∷ codes "Market-Sell 150 shares of Acme" ∷ [])
        ∷ (codes "history" ∷ codes "1709251200020" ∷ codes "SBMT" ∷ [])
        ∷ (codes "history" ∷ codes "1709251200021" ∷ codes "CMPT" ∷ [])
        ∷ []) }
    ensures unknown { view_by_name_and_arguments base_after_fifo_sale (codes "trades") (codes "9" ∷ [])
        ≡ Err NoTrade }
    ensures twice { view_by_name_and_arguments base_after_fifo_sale (codes "trades") (codes "3" ∷ codes "3" ∷ [])
        ≡ Err BadText }
{}

/// Shows the view `lots` of an account: the id of its oldest trade with a stamp of at least the
/// given one, and the changes, by any trade, of the lots that this trade touched, sorted by stamp,
/// then by lot, both ascending. The view is empty if there is no such trade.
pub fn lots_view_returns_changes_of_touched_lots()
    ensures last { view_by_name_and_arguments base_after_fifo_sale (codes "lots") (codes "100" ∷ codes "1709251200021" ∷ [])
        ≡ Ok ((codes "3" ∷ [])
        ∷ (codes "1" ∷ codes "1" ∷ codes "0" ∷ codes "100" ∷ [])
        ∷ (codes "2" ∷ codes "2" ∷ codes "0" ∷ codes "200" ∷ [])
        ∷ (codes "1" ∷ codes "3" ∷ codes "100" ∷ codes "0" ∷ [])
        ∷ (codes "2" ∷ codes "3" ∷ codes "200" ∷ codes "150" ∷ [])
        ∷ []) }
    ensures first { view_by_name_and_arguments base_after_fifo_sale (codes "lots") (codes "100" ∷ codes "0" ∷ [])
        ≡ Ok ((codes "1" ∷ [])
        ∷ (codes "1" ∷ codes "1" ∷ codes "0" ∷ codes "100" ∷ [])
        ∷ (codes "1" ∷ codes "3" ∷ codes "100" ∷ codes "0" ∷ [])
        ∷ []) }
    ensures none { view_by_name_and_arguments base_after_fifo_sale (codes "lots") (codes "100" ∷ codes "1709251200022" ∷ [])
        ≡ Ok ([]) }
{}

/// Shows the figures that the view `estimate` returns for a sale, and that the view is refused with
/// `NotPermitted` if the executor has another tax id than the customer and no permission.
pub fn estimate_returns_order_figures()
    ensures numbers { view_by_name_and_arguments base_after_two_purchases (codes "estimate")
        (codes "100" ∷ codes "TMS" ∷ codes "ABC" ∷ codes "150" ∷ [] ∷ codes "cash" ∷ codes "fifo" ∷ codes "Ann" ∷ codes "Lee" ∷ codes "T10" ∷ [])
        ≡ Ok ((codes "10.00" ∷ codes "1610.00" ∷ codes "1500.00" ∷ codes "0.00" ∷ codes "15.00" ∷ codes "5.00" ∷ codes "9545.90" ∷ [])
        ∷ []) }
    ensures refused { view_by_name_and_arguments base_after_two_purchases (codes "estimate")
        (codes "100" ∷ codes "TMS" ∷ codes "ABC" ∷ codes "150" ∷ [] ∷ codes "cash" ∷ codes "fifo" ∷ codes "Ann" ∷ codes "Lee" ∷ codes "T11" ∷ [])
        ≡ Err NotPermitted }
{}
