//! Batches, rows, orders and deposits that are retried.
#![tactic(auto, unfolding(crate::proofs::OnLiterals::model_on_literals))]

ghost use Rattle.std.specs.Prelude.{◌≡◌, ◌∷◌, [], codes, ℕ, map, ℤ, pos};
ghost use Rattle.brk_model.specs.Base.{empty_base};
ghost use Rattle.brk_model.specs.Computed.{result_of_batch_input};
ghost use Rattle.brk_model.specs.Tables.{tables_of_base};
ghost use Rattle.brk_model_examples.specs.Batches.{twenty_clock_readings, bytes_of_batch, text_with_line_ends, base_after_batch, BatchOutputsLines};
ghost use Rattle.brk_model_examples.specs.Setting.{setting_base, setting_rows};

/// Shows the replies to a batch, that its retry is answered with the stored replies and does not
/// change the base, and that a changed row under a recorded key is refused with `KeyReused` (19).
pub fn retried_batch_changes_nothing()
    ensures once { BatchOutputsLines setting_base
        (codes "order,100,TMB,ABC,100,,cash,fifo,Ann,Lee,T10"
        ∷ codes "result,1,10.10"
        ∷ codes "order,100,TMB,ABC,200,,cash,fifo,Ann,Lee,T10"
        ∷ codes "result,2,12.00"
        ∷ codes "order,100,TMS,ABC,150,,cash,fifo,Ann,Lee,T10"
        ∷ codes "result,3,13.00" ∷ [])
        (codes "1,ok,1709251200016,1,SBMT,10.00,0.00,0.00,0.00,10.00,5.00,10000.00"
        ∷ codes "2,ok,1709251200017,10.10,0.00,-1025.10,2024-03-03,0.00,0.00,8974.90"
        ∷ codes "3,ok,1709251200018,2,SBMT,10.00,0.00,0.00,0.00,20.00,5.00,9974.90"
        ∷ codes "4,ok,1709251200019,24.00,0.00,-2429.00,2024-03-03,0.00,0.00,6545.90"
        ∷ codes "5,ok,1709251200020,3,SBMT,10.00,1610.00,1500.00,0.00,15.00,5.00,9545.90"
        ∷ codes "6,ok,1709251200021,19.50,68.00,1857.50,2024-03-03,1610.00,1950.00,8403.40"
        ∷ codes "end,6,0,0" ∷ []) }
    ensures again { BatchOutputsLines (base_after_batch setting_base
        (codes "order,100,TMB,ABC,100,,cash,fifo,Ann,Lee,T10"
        ∷ codes "result,1,10.10"
        ∷ codes "order,100,TMB,ABC,200,,cash,fifo,Ann,Lee,T10"
        ∷ codes "result,2,12.00"
        ∷ codes "order,100,TMS,ABC,150,,cash,fifo,Ann,Lee,T10"
        ∷ codes "result,3,13.00" ∷ []))
        (codes "order,100,TMB,ABC,100,,cash,fifo,Ann,Lee,T10"
        ∷ codes "result,1,10.10"
        ∷ codes "order,100,TMB,ABC,200,,cash,fifo,Ann,Lee,T10"
        ∷ codes "result,2,12.00"
        ∷ codes "order,100,TMS,ABC,150,,cash,fifo,Ann,Lee,T10"
        ∷ codes "result,3,13.00" ∷ [])
        (codes "1,again,1709251200016,1,SBMT,10.00,0.00,0.00,0.00,10.00,5.00,10000.00"
        ∷ codes "2,again,1709251200017,10.10,0.00,-1025.10,2024-03-03,0.00,0.00,8974.90"
        ∷ codes "3,again,1709251200018,2,SBMT,10.00,0.00,0.00,0.00,20.00,5.00,9974.90"
        ∷ codes "4,again,1709251200019,24.00,0.00,-2429.00,2024-03-03,0.00,0.00,6545.90"
        ∷ codes "5,again,1709251200020,3,SBMT,10.00,1610.00,1500.00,0.00,15.00,5.00,9545.90"
        ∷ codes "6,again,1709251200021,19.50,68.00,1857.50,2024-03-03,1610.00,1950.00,8403.40"
        ∷ codes "end,0,6,0" ∷ []) }
    ensures changed_row { BatchOutputsLines (base_after_batch setting_base
        (codes "order,100,TMB,ABC,100,,cash,fifo,Ann,Lee,T10"
        ∷ codes "result,1,10.10"
        ∷ codes "order,100,TMB,ABC,200,,cash,fifo,Ann,Lee,T10"
        ∷ codes "result,2,12.00"
        ∷ codes "order,100,TMS,ABC,150,,cash,fifo,Ann,Lee,T10"
        ∷ codes "result,3,13.00" ∷ []))
        (codes "order,101,TMB,ABC,100,,cash,fifo,Ann,Lee,T10"
        ∷ codes "result,1,10.10"
        ∷ codes "order,100,TMB,ABC,200,,cash,fifo,Ann,Lee,T10"
        ∷ codes "result,2,12.00"
        ∷ codes "order,100,TMS,ABC,150,,cash,fifo,Ann,Lee,T10"
        ∷ codes "result,3,13.00" ∷ [])
        (codes "1,no,19"
        ∷ codes "2,again,1709251200017,10.10,0.00,-1025.10,2024-03-03,0.00,0.00,8974.90"
        ∷ codes "3,again,1709251200018,2,SBMT,10.00,0.00,0.00,0.00,20.00,5.00,9974.90"
        ∷ codes "4,again,1709251200019,24.00,0.00,-2429.00,2024-03-03,0.00,0.00,6545.90"
        ∷ codes "5,again,1709251200020,3,SBMT,10.00,1610.00,1500.00,0.00,15.00,5.00,9545.90"
        ∷ codes "6,again,1709251200021,19.50,68.00,1857.50,2024-03-03,1610.00,1950.00,8403.40"
        ∷ codes "end,0,5,1" ∷ []) }
    ensures base { base_after_batch (base_after_batch setting_base
        (codes "order,100,TMB,ABC,100,,cash,fifo,Ann,Lee,T10"
        ∷ codes "result,1,10.10"
        ∷ codes "order,100,TMB,ABC,200,,cash,fifo,Ann,Lee,T10"
        ∷ codes "result,2,12.00"
        ∷ codes "order,100,TMS,ABC,150,,cash,fifo,Ann,Lee,T10"
        ∷ codes "result,3,13.00" ∷ []))
        (codes "order,100,TMB,ABC,100,,cash,fifo,Ann,Lee,T10"
        ∷ codes "result,1,10.10"
        ∷ codes "order,100,TMB,ABC,200,,cash,fifo,Ann,Lee,T10"
        ∷ codes "result,2,12.00"
        ∷ codes "order,100,TMS,ABC,150,,cash,fifo,Ann,Lee,T10"
        ∷ codes "result,3,13.00" ∷ []) ≡ base_after_batch setting_base
        (codes "order,100,TMB,ABC,100,,cash,fifo,Ann,Lee,T10"
        ∷ codes "result,1,10.10"
        ∷ codes "order,100,TMB,ABC,200,,cash,fifo,Ann,Lee,T10"
        ∷ codes "result,2,12.00"
        ∷ codes "order,100,TMS,ABC,150,,cash,fifo,Ann,Lee,T10"
        ∷ codes "result,3,13.00" ∷ []) }
{}

/// Shows that the retried rows `setting_rows` are answered with their stored replies, and that a
/// changed first row under its recorded key is refused with `KeyReused` (19).
pub fn retried_setting_rows_return_stored_replies()
    ensures again { BatchOutputsLines (base_after_batch empty_base setting_rows) setting_rows
        (codes "1,again,1709251200000"
        ∷ codes "2,again,1709251200001"
        ∷ codes "3,again,1709251200002"
        ∷ codes "4,again,1709251200003"
        ∷ codes "5,again,1709251200004"
        ∷ codes "6,again,1709251200005"
        ∷ codes "7,again,1709251200006"
        ∷ codes "8,again,1709251200007"
        ∷ codes "9,again,1709251200008"
        ∷ codes "10,again,1709251200009"
        ∷ codes "11,again,1709251200010"
        ∷ codes "12,again,1709251200011"
        ∷ codes "13,again,1709251200012"
        ∷ codes "14,again,1709251200013"
        ∷ codes "15,again,1709251200014"
        ∷ codes "16,again,1709251200015"
        ∷ codes "end,0,16,0" ∷ []) }
    ensures changed_row { BatchOutputsLines (base_after_batch empty_base setting_rows)
        (codes "broker,1,Bob"
        ∷ codes "customer,10,1,T10,Lee,Ann"
        ∷ codes "account,100,10,1,Main,1,10000.00"
        ∷ codes "security,ABC,Acme,NYSE,Tech,10.00"
        ∷ codes "charge,TMB,1,5.00"
        ∷ codes "charge,TMS,1,5.00"
        ∷ codes "charge,TSL,1,5.00"
        ∷ codes "charge,TLS,1,5.00"
        ∷ codes "charge,TLB,1,5.00"
        ∷ codes "band,1,TMB,NYSE,1,999999,100"
        ∷ codes "band,1,TMS,NYSE,1,999999,100"
        ∷ codes "band,1,TSL,NYSE,1,999999,100"
        ∷ codes "band,1,TLS,NYSE,1,999999,100"
        ∷ codes "band,1,TLB,NYSE,1,999999,100"
        ∷ codes "taxrate,1,State,20000"
        ∷ codes "custtax,10,1" ∷ [])
        (codes "1,no,19"
        ∷ codes "2,again,1709251200001"
        ∷ codes "3,again,1709251200002"
        ∷ codes "4,again,1709251200003"
        ∷ codes "5,again,1709251200004"
        ∷ codes "6,again,1709251200005"
        ∷ codes "7,again,1709251200006"
        ∷ codes "8,again,1709251200007"
        ∷ codes "9,again,1709251200008"
        ∷ codes "10,again,1709251200009"
        ∷ codes "11,again,1709251200010"
        ∷ codes "12,again,1709251200011"
        ∷ codes "13,again,1709251200012"
        ∷ codes "14,again,1709251200013"
        ∷ codes "15,again,1709251200014"
        ∷ codes "16,again,1709251200015"
        ∷ codes "end,0,15,1" ∷ []) }
{}

/// Shows that a row that was refused, an account of a customer that does not exist, is accepted by
/// a retry under its key after another batch has added the customer.
pub fn refused_row_may_be_retried()
    ensures { (result_of_batch_input (result_of_batch_input (base_after_batch setting_base
        (codes "account,101,11,1,Side,0,0.00" ∷ [])) twenty_clock_readings (bytes_of_batch (codes "U")
        (codes "customer,11,1,T11,Kay,Kim" ∷ []))).base twenty_clock_readings
        (bytes_of_batch (codes "T") (codes "account,101,11,1,Side,0,0.00" ∷ []))).text
        ≡ text_with_line_ends (codes "1,ok,1709251200017"
        ∷ codes "end,1,0,0" ∷ []) }
{}

/// Shows that an order that is retried under its key adds no second trade.
pub fn retried_order_adds_no_trade()
    ensures { map {B = ℕ} (λ t. t.id) (base_after_batch (base_after_batch setting_base
        (codes "order,100,TMB,ABC,100,,cash,fifo,Ann,Lee,T10" ∷ []))
        (codes "order,100,TMB,ABC,100,,cash,fifo,Ann,Lee,T10" ∷ [])).trades ≡ 1 ∷ [] }
{}

/// Shows that a deposit that is retried under its key is not booked again.
pub fn retried_deposit_is_not_booked_again()
    ensures { map {B = ℤ} (λ row. row.balance) (tables_of_base (base_after_batch (base_after_batch setting_base
        (codes "deposit,100,100.00" ∷ []))
        (codes "deposit,100,100.00" ∷ []))).accounts ≡ pos 1010000 ∷ [] }
{}
