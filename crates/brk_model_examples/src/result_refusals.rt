//! Results that are refused: of a trade that is not submitted, or above a limit.
#![tactic(auto, unfolding(crate::proofs::OnLiterals::model_on_literals))]

ghost use Rattle.std.specs.Prelude.{◌≡◌, ◌∷◌, [], Ok, codes};
ghost use Rattle.brk_model.specs.Tables.{tables_of_base};
ghost use Rattle.brk_model_examples.specs.Batches.{base_after_batch, BatchOutputsLines, view_by_name_and_arguments};
ghost use Rattle.brk_model_examples.specs.Setting.{setting_base};
ghost use Rattle.brk_model_examples.specs.Trading.{base_after_first_purchase};
ghost use Rattle.brk_model_examples.specs.Waiting.{base_with_pending_orders};
ghost use Rattle.brk_model_examples.specs.Extremes.{setting_with_commission_total};

/// Shows that a result is refused with `WrongStatus` (13) if its trade is completed or pending, and
/// with `NoTrade` (5) if its trade does not exist.
pub fn result_needs_submitted_trade()
    ensures completed { BatchOutputsLines base_after_first_purchase
        (codes "result,1,11.00"
        ∷ codes "result,9,11.00" ∷ [])
        (codes "1,no,13,CMPT"
        ∷ codes "2,no,5"
        ∷ codes "end,0,0,2" ∷ []) }
    ensures pending { BatchOutputsLines base_with_pending_orders
        (codes "result,1,11.00" ∷ [])
        (codes "1,no,13,PNDG"
        ∷ codes "end,0,0,1" ∷ []) }
{}

/// Shows that a result is refused with `Range` (14) if it would raise the balance of the account
/// above its limit: the trade remains submitted, and no lot is opened.
pub fn result_above_balance_limit_is_refused()
    ensures lines { BatchOutputsLines setting_base
        (codes "account,102,10,1,Rich,0,1000000000000000.00"
        ∷ codes "order,102,TMS,ABC,100,,cash,fifo,Ann,Lee,T10"
        ∷ codes "result,1,10.00" ∷ [])
        (codes "1,ok,1709251200016"
        ∷ codes "2,ok,1709251200017,1,SBMT,10.00,0.00,0.00,0.00,10.00,5.00,1000000000000000.00"
        ∷ codes "3,no,14,balance"
        ∷ codes "end,2,0,1" ∷ []) }
    ensures lots { (tables_of_base (base_after_batch setting_base
        (codes "account,102,10,1,Rich,0,1000000000000000.00"
        ∷ codes "order,102,TMS,ABC,100,,cash,fifo,Ann,Lee,T10"
        ∷ codes "result,1,10.00" ∷ []))).holdings ≡ [] }
    ensures submitted { view_by_name_and_arguments (base_after_batch setting_base
        (codes "account,102,10,1,Rich,0,1000000000000000.00"
        ∷ codes "order,102,TMS,ABC,100,,cash,fifo,Ann,Lee,T10"
        ∷ codes "result,1,10.00" ∷ [])) (codes "submitted") ([])
        ≡ Ok ((codes "1" ∷ codes "TMS" ∷ codes "ABC" ∷ codes "100" ∷ codes "10.00" ∷ [])
        ∷ []) }
{}

/// Shows that a result may raise the commission total of a broker to its limit, and is refused with
/// `Range` (14) if it would raise the total above the limit.
pub fn result_above_commission_limit_is_refused()
    ensures at_limit { BatchOutputsLines (setting_with_commission_total 99999999999998990)
        (codes "order,100,TMB,ABC,100,,cash,fifo,Ann,Lee,T10"
        ∷ codes "result,2,10.10" ∷ [])
        (codes "1,ok,1709251200016,2,SBMT,10.00,0.00,0.00,0.00,10.00,5.00,10000.00"
        ∷ codes "2,ok,1709251200017,10.10,0.00,-1025.10,2024-03-03,0.00,0.00,8974.90"
        ∷ codes "end,2,0,0" ∷ []) }
    ensures above_limit { BatchOutputsLines (setting_with_commission_total 99999999999998991)
        (codes "order,100,TMB,ABC,100,,cash,fifo,Ann,Lee,T10"
        ∷ codes "result,2,10.10" ∷ [])
        (codes "1,ok,1709251200016,2,SBMT,10.00,0.00,0.00,0.00,10.00,5.00,10000.00"
        ∷ codes "2,no,14,broker"
        ∷ codes "end,1,0,1" ∷ []) }
{}
