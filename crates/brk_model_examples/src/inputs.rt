//! Batch inputs that are cut, or have a wrong header or end record.
#![tactic(auto, unfolding(crate::proofs::OnLiterals::model_on_literals))]

ghost use Rattle.std.specs.Prelude.{◌≡◌, ◌∷◌, [], ℕ, map, codes};
ghost use Rattle.brk_model.specs.Batch.{NoEnd, BadEnd, BadHeader, CorrectEnd};
ghost use Rattle.brk_model.specs.Computed.{result_of_batch_input};
ghost use Rattle.brk_model_examples.specs.Batches.{twenty_clock_readings, text_with_line_ends};
ghost use Rattle.brk_model_examples.specs.Setting.{setting_base};

/// Shows that a batch without an end record has the outcome `NoEnd`, also if it is a header alone,
/// and that its last row, which may be cut, is refused with `BadText` (18), is not executed, and
/// counts as a decided row.
pub fn last_row_of_cut_input_is_refused()
    ensures text { (result_of_batch_input setting_base twenty_clock_readings (codes "batch,C\nbroker,2,Cy\nbroker,3\nbroker,4,D")).text
        ≡ text_with_line_ends (codes "1,ok,1709251200016"
        ∷ codes "2,no,18"
        ∷ codes "3,no,18" ∷ []) }
    ensures ending { (result_of_batch_input setting_base twenty_clock_readings (codes "batch,C\nbroker,2,Cy\nbroker,3\nbroker,4,D")).ending ≡ NoEnd }
    ensures rows { (result_of_batch_input setting_base twenty_clock_readings (codes "batch,C\nbroker,2,Cy\nbroker,3\nbroker,4,D")).rows ≡ 3 }
    ensures brokers { map {B = ℕ} (λ b. b.id) (result_of_batch_input setting_base twenty_clock_readings
        (codes "batch,C\nbroker,2,Cy\nbroker,3\nbroker,4,D")).base.brokers ≡ 1 ∷ 2 ∷ [] }
    ensures header_alone { (result_of_batch_input setting_base twenty_clock_readings (codes "batch,C\n")).ending ≡ NoEnd }
{}

/// Shows that an input without bytes and two batches with a malformed header have the outcome
/// `BadHeader`, and four batches with a wrong end record with `BadEnd`. The row before a wrong end
/// record is accepted. A batch with a record after its correct end record has the outcome
/// `CorrectEnd`, and the record is not executed.
pub fn wrong_header_or_end_record_is_a_fault()
    ensures empty_input { (result_of_batch_input setting_base twenty_clock_readings []).ending ≡ BadHeader }
    ensures no_name { (result_of_batch_input setting_base twenty_clock_readings (codes "batch,\nend,0\n")).ending ≡ BadHeader }
    ensures header_with_third_field { (result_of_batch_input setting_base twenty_clock_readings (codes "batch,A,B\nend,0\n")).ending ≡ BadHeader }
    ensures other_count { (result_of_batch_input setting_base twenty_clock_readings (codes "batch,C\nbroker,2,Cy\nend,2\n")).ending ≡ BadEnd }
    ensures leading_zero { (result_of_batch_input setting_base twenty_clock_readings (codes "batch,C\nend,00\n")).ending ≡ BadEnd }
    ensures end_record_with_third_field { (result_of_batch_input setting_base twenty_clock_readings (codes "batch,C\nend,0,\n")).ending ≡ BadEnd }
    ensures no_count { (result_of_batch_input setting_base twenty_clock_readings (codes "batch,C\nend\n")).ending ≡ BadEnd }
    ensures row_before_wrong_end { (result_of_batch_input setting_base twenty_clock_readings (codes "batch,C\nbroker,2,Cy\nend,2\n")).text
        ≡ text_with_line_ends (codes "1,ok,1709251200016" ∷ []) }
    ensures records_after_end { (result_of_batch_input setting_base twenty_clock_readings
        (codes "batch,C\nbroker,2,Cy\nend,1\nbroker,3,Di\n")).ending ≡ CorrectEnd }
    ensures brokers_after_end { map {B = ℕ} (λ b. b.id) (result_of_batch_input setting_base twenty_clock_readings
        (codes "batch,C\nbroker,2,Cy\nend,1\nbroker,3,Di\n")).base.brokers ≡ 1 ∷ 2 ∷ [] }
{}
