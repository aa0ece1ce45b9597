//! Single definitions at their limits: rounding, triggers, withheld tax, due days, executors.
#![tactic(auto, unfolding(crate::proofs::OnLiterals::model_on_literals))]

ghost use Rattle.std.specs.Prelude.{◌≡◌, ◌∷◌, [], ℤ, pos, negsuc, map, true, false, Some, None};
ghost use Rattle.brk_money.specs.Amounts.{commission, tax};
ghost use Rattle.brk_money.specs.declared.trade_type.TradeType.TheVariants.{LimitBuy, LimitSell, MarketBuy, MarketSell, StopLoss};
ghost use Rattle.brk_money.specs.declared.tax_status.TaxStatus.TheVariants.{Reported, Untaxed, Withheld};
ghost use Rattle.brk_model.specs.Derived.{settlement_amount, balance_of_account, due_day_of_completion_stamp, postings};
ghost use Rattle.brk_model.specs.Feed.{is_triggering_price};
ghost use Rattle.brk_model.specs.Orders.{is_customer_or_has_permission};
ghost use Rattle.brk_model_examples.specs.Rules.{account_with_tax_status, customer_ann_lee, permission_with_other_tax_id, executor_with_customer_identity};
ghost use Rattle.brk_model_examples.specs.Rules.{executor_with_other_tax_id, first_purchase_on_margin, permission_with_other_last_name};
ghost use Rattle.brk_model_examples.specs.Trading.{first_purchase, sale_first_in_first_out};

/// Shows that half a cent of a commission is rounded up and that 0.49 cents are rounded down. Shows
/// also the tax on one gain, and that one loss is not taxed.
pub fn half_cents_round_up()
    ensures half { commission 100 1 50 ≡ 1 }
    ensures less { commission 100 1 49 ≡ 0 }
    ensures gain { tax (pos 34000) 20000 ≡ 6800 }
    ensures loss { tax (negsuc 9999) 20000 ≡ 0 }
{}

/// Shows, for one bid each and the prices 0.01 below it, at it and 0.01 above it, that a stop-loss
/// and a limit buy are triggered at the bid and below it, and a limit sell at the bid and above it.
/// A trade of a market type is not triggered at its bid.
pub fn triggers_depend_on_trade_type()
    ensures stop_loss { map (is_triggering_price StopLoss 950) (949 ∷ 950 ∷ 951 ∷ []) ≡ true ∷ true ∷ false ∷ [] }
    ensures limit_sell { map (is_triggering_price LimitSell 1050) (1049 ∷ 1050 ∷ 1051 ∷ []) ≡ false ∷ true ∷ true ∷ [] }
    ensures limit_buy { map (is_triggering_price LimitBuy 1000) (999 ∷ 1000 ∷ 1001 ∷ []) ≡ true ∷ true ∷ false ∷ [] }
    ensures market { is_triggering_price MarketBuy 1000 1000 ≡ false }
    ensures market_sell { is_triggering_price MarketSell 1000 1000 ≡ false }
{}

/// Shows that tax is withheld from the settlement amount of a sale at the tax status `Withheld`
/// only.
pub fn tax_is_withheld_at_one_status()
    ensures { map {B = ℤ} (λ status. settlement_amount (account_with_tax_status status ∷ []) sale_first_in_first_out) (Untaxed ∷ Withheld ∷ Reported ∷ [])
        ≡ pos 192550 ∷ pos 185750 ∷ pos 192550 ∷ [] }
{}

/// Shows that a cash trade changes the balance, and a margin trade does not.
pub fn trade_changes_balance_if_cash()
    ensures cash { balance_of_account (account_with_tax_status Withheld ∷ []) (postings (account_with_tax_status Withheld ∷ []) (first_purchase ∷ []) []) 100
        ≡ pos 897490 }
    ensures margin { balance_of_account (account_with_tax_status Withheld
        ∷ []) (postings (account_with_tax_status Withheld ∷ []) (first_purchase_on_margin ∷ []) []) 100
        ≡ pos 1000000 }
{}

/// Shows that a completion settles after two days if no first day of one-day settlement is set or
/// if the completion is in the last millisecond before that day, and after one day if it is in the
/// first millisecond of that day or of the day after it.
pub fn settlement_takes_one_or_two_days()
    ensures no_start { due_day_of_completion_stamp None 1709251200000 ≡ 19785 }
    ensures before_start { due_day_of_completion_stamp (Some 19784) 1709337599999 ≡ 19785 }
    ensures on_start { due_day_of_completion_stamp (Some 19784) 1709337600000 ≡ 19785 }
    ensures after_start { due_day_of_completion_stamp (Some 19784) 1709424000000 ≡ 19786 }
{}

/// Shows that an executor with the names and the tax id of the customer or of a permission passes
/// the check of the executor. An executor with the names of the customer and another tax id does
/// not pass it, either without a permission or with a permission of another last name.
pub fn executor_matches_customer_or_permission()
    ensures customer { is_customer_or_has_permission customer_ann_lee [] executor_with_customer_identity ≡ true }
    ensures namesake { is_customer_or_has_permission customer_ann_lee [] executor_with_other_tax_id ≡ false }
    ensures permitted_namesake { is_customer_or_has_permission customer_ann_lee (permission_with_other_tax_id ∷ []) executor_with_other_tax_id ≡ true }
    ensures permission_with_other_name { is_customer_or_has_permission customer_ann_lee (permission_with_other_last_name ∷ []) executor_with_other_tax_id
        ≡ false }
{}
