//! Deposits and withdrawals.
#![tactic(auto, unfolding(crate::proofs::OnLiterals::model_on_literals))]

ghost use Rattle.std.specs.Prelude.{◌≡◌, ◌∷◌, [], ℕ, ℤ, Ok, map, pos, negsuc, codes};
ghost use Rattle.brk_model.specs.Tables.{tables_of_base};
ghost use Rattle.brk_model.specs.Statement.{statement};
ghost use Rattle.brk_model_examples.specs.Batches.{base_after_batch, BatchOutputsLines, text_with_line_ends, base_without_stored_replies};
ghost use Rattle.brk_model_examples.specs.Batches.{view_by_name_and_arguments};
ghost use Rattle.brk_model_examples.specs.Moving.{base_after_sale_and_movements};
ghost use Rattle.brk_model_examples.specs.Setting.{setting_base};
ghost use Rattle.brk_model_examples.specs.Trading.{base_after_fifo_sale};

/// Shows that a balance may fall below 0 and rise to its limit, and that a deposit that would raise
/// it above the limit is refused with `Range` (14). A withdrawal of 0.00 is refused with `BadText`
/// (18), and a deposit to an account that does not exist with `NoAccount` (1). The reply to a
/// movement has the number of its cash row, which follows the numbers of the earlier cash rows.
/// Shows also the base after the first two movements, without stored replies.
pub fn movements_respect_balance_limit()
    ensures lines { BatchOutputsLines base_after_fifo_sale
        (codes "deposit,100,100.00"
        ∷ codes "withdraw,100,9000.00"
        ∷ codes "withdraw,100,0.00"
        ∷ codes "deposit,109,1.00"
        ∷ codes "deposit,100,1000000000000000.00"
        ∷ codes "deposit,100,496.61"
        ∷ codes "deposit,100,496.60" ∷ [])
        (codes "1,ok,1709251200022,4,8503.40"
        ∷ codes "2,ok,1709251200023,5,-496.60"
        ∷ codes "3,no,18"
        ∷ codes "4,no,1"
        ∷ codes "5,ok,1709251200024,6,999999999999503.40"
        ∷ codes "6,no,14,balance"
        ∷ codes "7,ok,1709251200025,7,1000000000000000.00"
        ∷ codes "end,4,0,3" ∷ []) }
    ensures base { base_without_stored_replies (base_after_batch base_after_fifo_sale (codes "deposit,100,100.00" ∷ codes "withdraw,100,9000.00" ∷ []))
        ≡ base_after_sale_and_movements }
{}

/// Shows that the cash rows of movements after trades follow the cash rows of the trades, in
/// CASH_MOVE and in the statement, that the balance includes all of these cash rows, and that
/// CASH_TRANSACTION has no row. Of the cash rows, the lookup of a trade returns only that of the
/// trade, and `uptext` does not change the text of the cash row of a movement.
pub fn cash_rows_of_movements_follow_those_of_trades()
    ensures numbers { map {B = ℕ} (λ row. row.id) (tables_of_base base_after_sale_and_movements).moves ≡ 1 ∷ 2 ∷ 3 ∷ 4 ∷ 5 ∷ [] }
    ensures amounts { map {B = ℤ} (λ row. row.amount) (tables_of_base base_after_sale_and_movements).moves
        ≡ negsuc 102509 ∷ negsuc 242899 ∷ pos 185750 ∷ pos 10000 ∷ negsuc 899999 ∷ [] }
    ensures balances { map {B = ℤ} (λ row. row.balance) (tables_of_base base_after_sale_and_movements).accounts ≡ negsuc 49659 ∷ [] }
    ensures no_cash_transactions { (tables_of_base base_after_sale_and_movements).cash ≡ [] }
    ensures statement { statement (tables_of_base base_after_sale_and_movements) 100 19783 19813 ≡ Ok (text_with_line_ends (codes "Statement of account 100"
        ∷ codes "Main"
        ∷ codes "From 2024-03-01 to 2024-03-31"
        ∷ codes "Opening                  10000.00"
        ∷ codes "2024-03-01               -1025.10 Market-Buy 100 shares of Acme"
        ∷ codes "2024-03-01               -2429.00 Market-Buy 200 shares of Acme"
        ∷ codes "2024-03-01                1857.50 Market-Sell 150 shares of Acme"
        ∷ codes "2024-03-01                 100.00 Deposit"
        ∷ codes "2024-03-01               -9000.00 Withdrawal"
        ∷ codes "Closing                   -496.60"
        ∷ codes "ABC                         2         150      12.00"
        ∷ codes "Holdings                  1500.00"
        ∷ codes "Cash rows 5, lots 1" ∷ [])) }
    ensures trade_lookup { view_by_name_and_arguments base_after_sale_and_movements (codes "trades") (codes "3" ∷ [])
        ≡ Ok ((codes "trade" ∷ codes "3" ∷ codes "1709251200021" ∷ codes "CMPT" ∷ codes "TMS" ∷ codes "ABC" ∷ codes "150" ∷ codes "10.00" ∷ codes "Ann Lee"
        ∷ codes "13.00" ∷ codes "5.00" ∷ codes "19.50" ∷ codes "68.00" ∷ codes "cash" ∷ codes "fifo" ∷ [])
        ∷ (codes "settlement" ∷ codes "Cash Account" ∷ codes "2024-03-03" ∷ codes "1857.50" ∷ [])
        ∷ (codes "cash" ∷ codes "1709251200021" ∷ codes "1857.50" ∷ codes "Market-Sell 150 shares of Acme" ∷ [])
        ∷ (codes "history" ∷ codes "1709251200020" ∷ codes "SBMT" ∷ [])
        ∷ (codes "history" ∷ codes "1709251200021" ∷ codes "CMPT" ∷ [])
        ∷ []) }
    ensures names_after_update { map (λ row. row.name) (tables_of_base (base_after_batch base_after_sale_and_movements
        (codes "uptext,ABC,0,253402300799999" ∷ []))).moves
        ≡ codes "Market-Buy 100 Shares of Acme" ∷ codes "Market-Buy 200 Shares of Acme" ∷ codes "Market-Sell 150 Shares of Acme" ∷ codes "Deposit"
        ∷ codes "Withdrawal" ∷ [] }
{}

/// Shows that a movement before the first trade has the first cash row, and the trade the second.
pub fn movement_before_trades_has_first_cash_row()
    ensures { map {B = ℤ} (λ row. row.amount) (tables_of_base (base_after_batch setting_base
        (codes "deposit,100,100.00"
        ∷ codes "order,100,TMB,ABC,100,,cash,fifo,Ann,Lee,T10"
        ∷ codes "result,1,10.10" ∷ []))).moves ≡ pos 10000 ∷ negsuc 102509 ∷ [] }
{}

/// Shows that a movement is refused with `BadText` (18) if its amount is malformed, out of range or
/// missing, or if its account is 0.
pub fn malformed_movements_are_refused()
    ensures { BatchOutputsLines setting_base
        (codes "deposit,100,1000000000000000.01"
        ∷ codes "deposit,100,1.0"
        ∷ codes "deposit,100,-1.00"
        ∷ codes "deposit,100"
        ∷ codes "withdraw,0,1.00" ∷ [])
        (codes "1,no,18"
        ∷ codes "2,no,18"
        ∷ codes "3,no,18"
        ∷ codes "4,no,18"
        ∷ codes "5,no,18"
        ∷ codes "end,0,0,5" ∷ []) }
{}
