//! Statements of accounts, and their lines of amounts.
#![tactic(auto, unfolding(crate::proofs::OnLiterals::model_on_literals))]

ghost use Rattle.std.specs.Prelude.{◌≡◌, ◌∷◌, [], Ok, Err, codes, negsuc, pos};
ghost use Rattle.brk_money.specs.declared.refusal.Refusal.TheVariants.{BadText, NoAccount};
ghost use Rattle.brk_model.specs.Tables.{tables_of_base};
ghost use Rattle.brk_model.specs.Statement.{amount_line, statement};
ghost use Rattle.brk_model_examples.specs.Batches.{text_with_line_ends};
ghost use Rattle.brk_model_examples.specs.Trading.{base_after_fifo_sale};

/// Shows the statement of an account over the month of its trades, and over the days of this month
/// after the day of the trades. A statement is refused with `BadText` if its last day is before its
/// first, and otherwise with `NoAccount` if the account does not exist.
pub fn statement_returns_cash_rows_and_lots()
    ensures month { statement (tables_of_base base_after_fifo_sale) 100 19783 19813 ≡ Ok (text_with_line_ends (codes "Statement of account 100"
        ∷ codes "Main"
        ∷ codes "From 2024-03-01 to 2024-03-31"
        ∷ codes "Opening                  10000.00"
        ∷ codes "2024-03-01               -1025.10 Market-Buy 100 shares of Acme"
        ∷ codes "2024-03-01               -2429.00 Market-Buy 200 shares of Acme"
        ∷ codes "2024-03-01                1857.50 Market-Sell 150 shares of Acme"
        ∷ codes "Closing                   8403.40"
        ∷ codes "ABC                         2         150      12.00"
        ∷ codes "Holdings                  1500.00"
        ∷ codes "Cash rows 3, lots 1" ∷ [])) }
    ensures days_after_sale { statement (tables_of_base base_after_fifo_sale) 100 19784 19813 ≡ Ok (text_with_line_ends (codes "Statement of account 100"
        ∷ codes "Main"
        ∷ codes "From 2024-03-02 to 2024-03-31"
        ∷ codes "Opening                   8403.40"
        ∷ codes "Closing                   8403.40"
        ∷ codes "ABC                         2         150      12.00"
        ∷ codes "Holdings                  1500.00"
        ∷ codes "Cash rows 0, lots 1" ∷ [])) }
    ensures reversed_days { statement (tables_of_base base_after_fifo_sale) 999 19784 19783 ≡ Err BadText }
    ensures unknown_account { statement (tables_of_base base_after_fifo_sale) 999 19783 19813 ≡ Err NoAccount }
{}

/// Shows that an amount is right-aligned in its column, and that an amount wider than the column is
/// not cut.
pub fn wide_amounts_are_not_cut()
    ensures narrow { amount_line (codes "Holdings") (negsuc 0) ≡ codes "Holdings                    -0.01" }
    ensures full { amount_line (codes "Holdings") (pos 100000000000000000000) ≡ codes "Holdings   1000000000000000000.00" }
    ensures wider { amount_line (codes "Holdings") (pos 1000000000000000000000) ≡ codes "Holdings   10000000000000000000.00" }
{}
