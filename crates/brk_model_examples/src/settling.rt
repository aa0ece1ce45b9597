//! Due days: the first day of one-day settlement, and completions at the end of the calendar. The
//! due day of a completion alone is in `rules`.
#![tactic(auto, unfolding(crate::proofs::OnLiterals::model_on_literals))]

ghost use Rattle.std.specs.Prelude.{◌≡◌, ◌∷◌, [], ℕ, map, Some, replicate, codes};
ghost use Rattle.brk_model.specs.Tables.{tables_of_base};
ghost use Rattle.brk_model.specs.Computed.{result_of_batch_input};
ghost use Rattle.brk_model_examples.specs.Batches.{base_after_batch, bytes_of_batch, BatchOutputsLines, text_with_line_ends, base_without_stored_replies};
ghost use Rattle.brk_model_examples.specs.Moving.{base_after_purchase_with_one_day_settlement};
ghost use Rattle.brk_model_examples.specs.Setting.{setting_base};

/// Shows that the command `oneday`, which sets the first day of one-day settlement, is refused with
/// `TooEarly` (22) for the day of the command, accepted for the day after, and refused with
/// `Exists` (15) once the first day is set. A purchase that is completed before the first day
/// settles after two days. Shows also the base after an accepted `oneday` and the completed
/// purchase, without stored replies, and the first day in the tables of this base.
pub fn one_day_settlement_start_is_set_once()
    ensures lines { BatchOutputsLines setting_base
        (codes "oneday,2024-03-01"
        ∷ codes "oneday,2024-03-02"
        ∷ codes "oneday,2024-03-01"
        ∷ codes "order,100,TMB,ABC,100,,cash,fifo,Ann,Lee,T10"
        ∷ codes "result,1,10.10" ∷ [])
        (codes "1,no,22"
        ∷ codes "2,ok,1709251200016"
        ∷ codes "3,no,15"
        ∷ codes "4,ok,1709251200017,1,SBMT,10.00,0.00,0.00,0.00,10.00,5.00,10000.00"
        ∷ codes "5,ok,1709251200018,10.10,0.00,-1025.10,2024-03-03,0.00,0.00,8974.90"
        ∷ codes "end,3,0,2" ∷ []) }
    ensures base { base_without_stored_replies (base_after_batch setting_base
        (codes "oneday,2024-03-02"
        ∷ codes "order,100,TMB,ABC,100,,cash,fifo,Ann,Lee,T10"
        ∷ codes "result,1,10.10" ∷ [])) ≡ base_after_purchase_with_one_day_settlement }
    ensures day { (tables_of_base base_after_purchase_with_one_day_settlement).rule ≡ Some 19784 }
{}

/// Shows that a trade that is completed on the first day of one-day settlement, or on the day after
/// it, settles after one day. The due day of a trade that was completed before the first day does
/// not change.
pub fn trades_from_first_day_settle_after_one_day()
    ensures lines { (result_of_batch_input base_after_purchase_with_one_day_settlement (replicate 2 1709337600000) (bytes_of_batch (codes "G")
        (codes "order,100,TMB,ABC,200,,cash,fifo,Ann,Lee,T10"
        ∷ codes "result,2,12.00" ∷ []))).text
        ≡ text_with_line_ends (codes "1,ok,1709337600000,2,SBMT,10.00,0.00,0.00,0.00,20.00,5.00,9974.90"
        ∷ codes "2,ok,1709337600001,24.00,0.00,-2429.00,2024-03-03,0.00,0.00,6545.90"
        ∷ codes "end,2,0,0" ∷ []) }
    ensures days { map {B = ℕ} (λ row. row.due_day) (tables_of_base (result_of_batch_input base_after_purchase_with_one_day_settlement
        (1709337600000 ∷ 1709424000000 ∷ []) (bytes_of_batch (codes "G")
        (codes "order,100,TMB,ABC,200,,cash,fifo,Ann,Lee,T10"
        ∷ codes "result,2,12.00" ∷ []))).base).settlements ≡ 19785 ∷ 19786 ∷ [] }
{}

/// Shows that 9999-12-30 is the last day for a completion that settles after one day: a completion
/// in the last millisecond of this day is accepted, and one a millisecond later is refused with
/// `ClockEnd` (21).
pub fn one_day_settlement_beyond_calendar_is_refused()
    ensures accepted { (result_of_batch_input base_after_purchase_with_one_day_settlement (253402214399998 ∷ 253402214399999 ∷ []) (bytes_of_batch (codes "Y")
        (codes "order,100,TMB,ABC,100,,cash,fifo,Ann,Lee,T10"
        ∷ codes "result,2,10.00" ∷ []))).text
        ≡ text_with_line_ends (codes "1,ok,253402214399998,2,SBMT,10.00,0.00,0.00,0.00,10.00,5.00,9974.90"
        ∷ codes "2,ok,253402214399999,10.00,0.00,-1015.00,9999-12-31,0.00,0.00,7959.90"
        ∷ codes "end,2,0,0" ∷ []) }
    ensures refused { (result_of_batch_input base_after_purchase_with_one_day_settlement (253402214399999 ∷ 253402214400000 ∷ []) (bytes_of_batch (codes "Y")
        (codes "order,100,TMB,ABC,100,,cash,fifo,Ann,Lee,T10"
        ∷ codes "result,2,10.00" ∷ []))).text
        ≡ text_with_line_ends (codes "1,ok,253402214399999,2,SBMT,10.00,0.00,0.00,0.00,10.00,5.00,9974.90"
        ∷ codes "2,no,21"
        ∷ codes "end,1,0,1" ∷ []) }
{}

/// Shows that the command `oneday` is refused with `BadText` (18) for three texts that are not the
/// canonical text of a day of the calendar, and for no field and for two fields. The last day of
/// the calendar, 9999-12-31, is accepted.
pub fn malformed_days_are_refused()
    ensures { BatchOutputsLines setting_base
        (codes "oneday,2024-3-02"
        ∷ codes "oneday,2024-02-30"
        ∷ codes "oneday,10000-01-01"
        ∷ codes "oneday"
        ∷ codes "oneday,2024-03-02,2024-03-03"
        ∷ codes "oneday,9999-12-31" ∷ [])
        (codes "1,no,18"
        ∷ codes "2,no,18"
        ∷ codes "3,no,18"
        ∷ codes "4,no,18"
        ∷ codes "5,no,18"
        ∷ codes "6,ok,1709251200016"
        ∷ codes "end,1,0,5" ∷ []) }
{}

/// Shows that a result is refused with `ClockEnd` (21) if the due day of its trade is after
/// 9999-12-31.
pub fn due_day_beyond_calendar_is_refused()
    ensures { (result_of_batch_input setting_base (253402300799000 ∷ 0 ∷ []) (bytes_of_batch (codes "Y")
        (codes "order,100,TMB,ABC,100,,cash,fifo,Ann,Lee,T10"
        ∷ codes "result,1,10.00" ∷ []))).text
        ≡ text_with_line_ends (codes "1,ok,253402300799000,1,SBMT,10.00,0.00,0.00,0.00,10.00,5.00,10000.00"
        ∷ codes "2,no,21"
        ∷ codes "end,1,0,1" ∷ []) }
{}

/// Shows that 9999-12-29 is the last day for a completion that settles after two days: a completion
/// in the last millisecond of this day is accepted, and one a millisecond later is refused with
/// `ClockEnd` (21).
pub fn two_day_settlement_beyond_calendar_is_refused()
    ensures accepted { (result_of_batch_input setting_base (253402127999998 ∷ 253402127999999 ∷ []) (bytes_of_batch (codes "Y")
        (codes "order,100,TMB,ABC,100,,cash,fifo,Ann,Lee,T10"
        ∷ codes "result,1,10.00" ∷ []))).text
        ≡ text_with_line_ends (codes "1,ok,253402127999998,1,SBMT,10.00,0.00,0.00,0.00,10.00,5.00,10000.00"
        ∷ codes "2,ok,253402127999999,10.00,0.00,-1015.00,9999-12-31,0.00,0.00,8985.00"
        ∷ codes "end,2,0,0" ∷ []) }
    ensures refused { (result_of_batch_input setting_base (253402127999999 ∷ 253402128000000 ∷ []) (bytes_of_batch (codes "Y")
        (codes "order,100,TMB,ABC,100,,cash,fifo,Ann,Lee,T10"
        ∷ codes "result,1,10.00" ∷ []))).text
        ≡ text_with_line_ends (codes "1,ok,253402127999999,1,SBMT,10.00,0.00,0.00,0.00,10.00,5.00,10000.00"
        ∷ codes "2,no,21"
        ∷ codes "end,1,0,1" ∷ []) }
{}
