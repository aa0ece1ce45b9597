//! The tax on a gain and on a loss at each tax status, in batches. Rounding and withholding alone
//! are in `rules`.
#![tactic(auto, unfolding(crate::proofs::OnLiterals::model_on_literals))]

ghost use Rattle.std.specs.Prelude.{◌∷◌, [], codes};
ghost use Rattle.brk_model_examples.specs.Batches.{BatchOutputsLines};
ghost use Rattle.brk_model_examples.specs.Setting.{setting_base};

/// Shows that the tax on a gain is recorded at the tax statuses 1 and 2 and not at 0, and withheld
/// from the settlement amount at 1 only.
pub fn tax_status_decides_recorded_tax()
    ensures untaxed { BatchOutputsLines setting_base
        (codes "account,102,10,1,Tax,0,10000.00"
        ∷ codes "order,102,TMB,ABC,100,,cash,fifo,Ann,Lee,T10"
        ∷ codes "result,1,10.10"
        ∷ codes "order,102,TMB,ABC,200,,cash,fifo,Ann,Lee,T10"
        ∷ codes "result,2,12.00"
        ∷ codes "order,102,TMS,ABC,150,,cash,fifo,Ann,Lee,T10"
        ∷ codes "result,3,13.00" ∷ [])
        (codes "1,ok,1709251200016"
        ∷ codes "2,ok,1709251200017,1,SBMT,10.00,0.00,0.00,0.00,10.00,5.00,10000.00"
        ∷ codes "3,ok,1709251200018,10.10,0.00,-1025.10,2024-03-03,0.00,0.00,8974.90"
        ∷ codes "4,ok,1709251200019,2,SBMT,10.00,0.00,0.00,0.00,20.00,5.00,9974.90"
        ∷ codes "5,ok,1709251200020,24.00,0.00,-2429.00,2024-03-03,0.00,0.00,6545.90"
        ∷ codes "6,ok,1709251200021,3,SBMT,10.00,1610.00,1500.00,0.00,15.00,5.00,9545.90"
        ∷ codes "7,ok,1709251200022,19.50,0.00,1925.50,2024-03-03,1610.00,1950.00,8471.40"
        ∷ codes "end,7,0,0" ∷ []) }
    ensures withheld { BatchOutputsLines setting_base
        (codes "account,103,10,1,Tax,1,10000.00"
        ∷ codes "order,103,TMB,ABC,100,,cash,fifo,Ann,Lee,T10"
        ∷ codes "result,1,10.10"
        ∷ codes "order,103,TMB,ABC,200,,cash,fifo,Ann,Lee,T10"
        ∷ codes "result,2,12.00"
        ∷ codes "order,103,TMS,ABC,150,,cash,fifo,Ann,Lee,T10"
        ∷ codes "result,3,13.00" ∷ [])
        (codes "1,ok,1709251200016"
        ∷ codes "2,ok,1709251200017,1,SBMT,10.00,0.00,0.00,0.00,10.00,5.00,10000.00"
        ∷ codes "3,ok,1709251200018,10.10,0.00,-1025.10,2024-03-03,0.00,0.00,8974.90"
        ∷ codes "4,ok,1709251200019,2,SBMT,10.00,0.00,0.00,0.00,20.00,5.00,9974.90"
        ∷ codes "5,ok,1709251200020,24.00,0.00,-2429.00,2024-03-03,0.00,0.00,6545.90"
        ∷ codes "6,ok,1709251200021,3,SBMT,10.00,1610.00,1500.00,0.00,15.00,5.00,9545.90"
        ∷ codes "7,ok,1709251200022,19.50,68.00,1857.50,2024-03-03,1610.00,1950.00,8403.40"
        ∷ codes "end,7,0,0" ∷ []) }
    ensures reported { BatchOutputsLines setting_base
        (codes "account,104,10,1,Tax,2,10000.00"
        ∷ codes "order,104,TMB,ABC,100,,cash,fifo,Ann,Lee,T10"
        ∷ codes "result,1,10.10"
        ∷ codes "order,104,TMB,ABC,200,,cash,fifo,Ann,Lee,T10"
        ∷ codes "result,2,12.00"
        ∷ codes "order,104,TMS,ABC,150,,cash,fifo,Ann,Lee,T10"
        ∷ codes "result,3,13.00" ∷ [])
        (codes "1,ok,1709251200016"
        ∷ codes "2,ok,1709251200017,1,SBMT,10.00,0.00,0.00,0.00,10.00,5.00,10000.00"
        ∷ codes "3,ok,1709251200018,10.10,0.00,-1025.10,2024-03-03,0.00,0.00,8974.90"
        ∷ codes "4,ok,1709251200019,2,SBMT,10.00,0.00,0.00,0.00,20.00,5.00,9974.90"
        ∷ codes "5,ok,1709251200020,24.00,0.00,-2429.00,2024-03-03,0.00,0.00,6545.90"
        ∷ codes "6,ok,1709251200021,3,SBMT,10.00,1610.00,1500.00,0.00,15.00,5.00,9545.90"
        ∷ codes "7,ok,1709251200022,19.50,68.00,1925.50,2024-03-03,1610.00,1950.00,8471.40"
        ∷ codes "end,7,0,0" ∷ []) }
{}

/// Shows that a loss is taxed at none of the three tax statuses.
pub fn loss_is_not_taxed()
    ensures untaxed { BatchOutputsLines setting_base
        (codes "account,102,10,1,Tax,0,10000.00"
        ∷ codes "order,102,TMB,ABC,100,,cash,fifo,Ann,Lee,T10"
        ∷ codes "result,1,10.10"
        ∷ codes "order,102,TMB,ABC,200,,cash,fifo,Ann,Lee,T10"
        ∷ codes "result,2,12.00"
        ∷ codes "order,102,TMS,ABC,150,,cash,fifo,Ann,Lee,T10"
        ∷ codes "result,3,10.00" ∷ [])
        (codes "1,ok,1709251200016"
        ∷ codes "2,ok,1709251200017,1,SBMT,10.00,0.00,0.00,0.00,10.00,5.00,10000.00"
        ∷ codes "3,ok,1709251200018,10.10,0.00,-1025.10,2024-03-03,0.00,0.00,8974.90"
        ∷ codes "4,ok,1709251200019,2,SBMT,10.00,0.00,0.00,0.00,20.00,5.00,9974.90"
        ∷ codes "5,ok,1709251200020,24.00,0.00,-2429.00,2024-03-03,0.00,0.00,6545.90"
        ∷ codes "6,ok,1709251200021,3,SBMT,10.00,1610.00,1500.00,0.00,15.00,5.00,9545.90"
        ∷ codes "7,ok,1709251200022,15.00,0.00,1480.00,2024-03-03,1610.00,1500.00,8025.90"
        ∷ codes "end,7,0,0" ∷ []) }
    ensures withheld { BatchOutputsLines setting_base
        (codes "account,103,10,1,Tax,1,10000.00"
        ∷ codes "order,103,TMB,ABC,100,,cash,fifo,Ann,Lee,T10"
        ∷ codes "result,1,10.10"
        ∷ codes "order,103,TMB,ABC,200,,cash,fifo,Ann,Lee,T10"
        ∷ codes "result,2,12.00"
        ∷ codes "order,103,TMS,ABC,150,,cash,fifo,Ann,Lee,T10"
        ∷ codes "result,3,10.00" ∷ [])
        (codes "1,ok,1709251200016"
        ∷ codes "2,ok,1709251200017,1,SBMT,10.00,0.00,0.00,0.00,10.00,5.00,10000.00"
        ∷ codes "3,ok,1709251200018,10.10,0.00,-1025.10,2024-03-03,0.00,0.00,8974.90"
        ∷ codes "4,ok,1709251200019,2,SBMT,10.00,0.00,0.00,0.00,20.00,5.00,9974.90"
        ∷ codes "5,ok,1709251200020,24.00,0.00,-2429.00,2024-03-03,0.00,0.00,6545.90"
        ∷ codes "6,ok,1709251200021,3,SBMT,10.00,1610.00,1500.00,0.00,15.00,5.00,9545.90"
        ∷ codes "7,ok,1709251200022,15.00,0.00,1480.00,2024-03-03,1610.00,1500.00,8025.90"
        ∷ codes "end,7,0,0" ∷ []) }
    ensures reported { BatchOutputsLines setting_base
        (codes "account,104,10,1,Tax,2,10000.00"
        ∷ codes "order,104,TMB,ABC,100,,cash,fifo,Ann,Lee,T10"
        ∷ codes "result,1,10.10"
        ∷ codes "order,104,TMB,ABC,200,,cash,fifo,Ann,Lee,T10"
        ∷ codes "result,2,12.00"
        ∷ codes "order,104,TMS,ABC,150,,cash,fifo,Ann,Lee,T10"
        ∷ codes "result,3,10.00" ∷ [])
        (codes "1,ok,1709251200016"
        ∷ codes "2,ok,1709251200017,1,SBMT,10.00,0.00,0.00,0.00,10.00,5.00,10000.00"
        ∷ codes "3,ok,1709251200018,10.10,0.00,-1025.10,2024-03-03,0.00,0.00,8974.90"
        ∷ codes "4,ok,1709251200019,2,SBMT,10.00,0.00,0.00,0.00,20.00,5.00,9974.90"
        ∷ codes "5,ok,1709251200020,24.00,0.00,-2429.00,2024-03-03,0.00,0.00,6545.90"
        ∷ codes "6,ok,1709251200021,3,SBMT,10.00,1610.00,1500.00,0.00,15.00,5.00,9545.90"
        ∷ codes "7,ok,1709251200022,15.00,0.00,1480.00,2024-03-03,1610.00,1500.00,8025.90"
        ∷ codes "end,7,0,0" ∷ []) }
{}
