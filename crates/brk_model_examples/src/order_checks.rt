//! What an order needs: account, security, executor, charge and commission band.
#![tactic(auto, unfolding(crate::proofs::OnLiterals::model_on_literals))]

ghost use Rattle.std.specs.Prelude.{◌∷◌, [], codes};
ghost use Rattle.brk_model_examples.specs.Batches.{BatchOutputsLines};
ghost use Rattle.brk_model_examples.specs.Setting.{setting_base};

/// Shows that an order whose executor has another tax id than the customer is refused with
/// `NotPermitted` (6), and is accepted if a permission has the executor's first name, last name and
/// tax id. The order is also refused with `NotPermitted` if the permission has another first name.
pub fn executor_other_than_customer_needs_permission()
    ensures refused { BatchOutputsLines setting_base
        (codes "order,100,TMB,ABC,100,,cash,fifo,Ann,Lee,T11" ∷ [])
        (codes "1,no,6"
        ∷ codes "end,0,0,1" ∷ []) }
    ensures allowed { BatchOutputsLines setting_base
        (codes "permission,100,0000,T11,Lee,Ann"
        ∷ codes "order,100,TMB,ABC,100,,cash,fifo,Ann,Lee,T11" ∷ [])
        (codes "1,ok,1709251200016"
        ∷ codes "2,ok,1709251200017,1,SBMT,10.00,0.00,0.00,0.00,10.00,5.00,10000.00"
        ∷ codes "end,2,0,0" ∷ []) }
    ensures other_name { BatchOutputsLines setting_base
        (codes "permission,100,0000,T11,Lee,Ann"
        ∷ codes "order,100,TMB,ABC,100,,cash,fifo,Kim,Lee,T11" ∷ [])
        (codes "1,ok,1709251200016"
        ∷ codes "2,no,6"
        ∷ codes "end,1,0,1" ∷ []) }
{}

/// Shows that an order is refused with `NoCharge` (10) if there is no charge for its type and the
/// tier of its customer, and otherwise with `NoRate` (11) if there is no commission band for its
/// type and this tier.
pub fn order_needs_charge_and_commission_band()
    ensures { BatchOutputsLines setting_base
        (codes "customer,11,2,T11,Kay,Kim"
        ∷ codes "account,101,11,1,Side,0,0.00"
        ∷ codes "order,101,TMB,ABC,100,,cash,fifo,Kim,Kay,T11"
        ∷ codes "charge,TMB,2,5.00"
        ∷ codes "order,101,TMB,ABC,100,,cash,fifo,Kim,Kay,T11" ∷ [])
        (codes "1,ok,1709251200016"
        ∷ codes "2,ok,1709251200017"
        ∷ codes "3,no,10"
        ∷ codes "4,ok,1709251200018"
        ∷ codes "5,no,11"
        ∷ codes "end,3,0,2" ∷ []) }
{}

/// Shows that an order is refused with `NoAccount` (1) if its account does not exist, and otherwise
/// with `NoSecurity` (4) if its security does not exist, before the executor is checked.
pub fn order_needs_account_and_security()
    ensures { BatchOutputsLines setting_base
        (codes "order,999,TMB,QQQ,100,,cash,fifo,Ann,Lee,T10"
        ∷ codes "order,100,TMB,QQQ,100,,cash,fifo,Kim,Kay,T11" ∷ [])
        (codes "1,no,1"
        ∷ codes "2,no,4"
        ∷ codes "end,0,0,2" ∷ []) }
{}

/// Shows that an order of 1,000,000 shares is refused with `NoRate` (11) until a commission band
/// contains this quantity, and that an order of 10,000,000 shares is refused with `BadQty` (8).
pub fn large_quantities_need_a_commission_band()
    ensures { BatchOutputsLines setting_base
        (codes "order,100,TMB,ABC,1000000,,cash,fifo,Ann,Lee,T10"
        ∷ codes "band,1,TMB,NYSE,1000000,9999999,50"
        ∷ codes "order,100,TMB,ABC,1000000,,cash,fifo,Ann,Lee,T10"
        ∷ codes "order,100,TMB,ABC,10000000,,cash,fifo,Ann,Lee,T10" ∷ [])
        (codes "1,no,11"
        ∷ codes "2,ok,1709251200016"
        ∷ codes "3,ok,1709251200017,1,SBMT,10.00,0.00,0.00,0.00,50000.00,5.00,10000.00"
        ∷ codes "4,no,8"
        ∷ codes "end,2,0,2" ∷ []) }
{}
