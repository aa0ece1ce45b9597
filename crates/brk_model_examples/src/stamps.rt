//! The stamps of commands: after the last stamp, and at the greatest.
#![tactic(auto, unfolding(crate::proofs::OnLiterals::model_on_literals))]

ghost use Rattle.std.specs.Prelude.{◌≡◌, ◌∷◌, [], codes};
ghost use Rattle.brk_model.specs.Computed.{result_of_batch_input};
ghost use Rattle.brk_model.specs.Tests.{stamp_of_next_command};
ghost use Rattle.brk_model_examples.specs.Batches.{bytes_of_batch, text_with_line_ends, BatchOutputsLines};
ghost use Rattle.brk_model_examples.specs.Extremes.{base_at_greatest_stamp};
ghost use Rattle.brk_model_examples.specs.Trading.{base_after_sale_of_all};

/// Shows that a command at a clock reading before the last stamp is stamped one millisecond after
/// the last stamp.
pub fn stamps_continue_if_clock_goes_back()
    ensures { (result_of_batch_input base_after_sale_of_all (0 ∷ []) (bytes_of_batch (codes "Y") (codes "broker,7,Cy" ∷ []))).text
        ≡ text_with_line_ends (codes "1,ok,1709251200028"
        ∷ codes "end,1,0,0" ∷ []) }
{}

/// Shows that, if the last stamp is the greatest stamp, a new broker, which passes all other
/// checks, is refused with `ClockEnd` (21), and a broker whose id exists is refused with `Exists`
/// (15).
pub fn commands_at_greatest_stamp_are_refused()
    ensures { BatchOutputsLines base_at_greatest_stamp
        (codes "broker,7,Cy"
        ∷ codes "broker,1,Bo" ∷ [])
        (codes "1,no,21"
        ∷ codes "2,no,15"
        ∷ codes "end,0,0,2" ∷ []) }
{}

/// Shows that the stamp of a command is the clock reading if this is after the last stamp, and is
/// the millisecond after the last stamp for an earlier clock reading and for one at the last stamp.
pub fn stamp_exceeds_last_stamp()
    ensures clock_before_last { stamp_of_next_command base_after_sale_of_all 0 ≡ 1709251200028 }
    ensures clock_at_last { stamp_of_next_command base_after_sale_of_all 1709251200027 ≡ 1709251200028 }
    ensures clock_after_last { stamp_of_next_command base_after_sale_of_all 1709337600000 ≡ 1709337600000 }
{}
