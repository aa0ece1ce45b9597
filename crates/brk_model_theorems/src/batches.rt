//! Theorems on batches: their computation, retries and interruptions.

ghost use Rattle.std.specs.Prelude.{◌≡◌, ◌⊎◌, ◌≤◌, [], ◌∷◌, ◌++◌, ℕ, List, Some, drop, length, map, take};
ghost use Rattle.csv.specs.Reading.{records, default_config};
ghost use Rattle.brk_model.specs.Base.{Base};
ghost use Rattle.brk_model.specs.Commands.{Answer, Command};
ghost use Rattle.brk_model.specs.Answers.{Fields, RowsAreAnswered};
ghost use Rattle.brk_model_theorems.specs.RowCalls.{CallsHaveAnswers, RowCall, RowsAreAnsweredByCalls};
ghost use Rattle.brk_model.specs.Forms.{ReadResult};
ghost use Rattle.brk_model.specs.Parse.{parse_row};
ghost use Rattle.brk_model.specs.Input.{BeginsWithRecords, batch_header, input_text};
ghost use Rattle.brk_model.specs.Batch.{BatchRowsAreDecided, BatchResult, IsResultOfBatch, step_of_row};
ghost use Rattle.brk_model.specs.Lines.{refused_answer_count};
ghost use Rattle.brk_model.specs.Computed.{result_of_batch_input, result_of_complete_batch};
ghost use Rattle.brk_model.specs.Run.{Did, Run};
ghost use Rattle.brk_model_theorems.specs.Laws.{AnswersMatchStoredReplies, AcceptedCallsAreStored, NextRowLeadsTo, IsCompletedByRetry, SomeRunLeadsTo};
ghost use Rattle.brk_model_theorems.specs.Laws.{IsBaseAfterInterruption, IsCompleteBatchWithoutRefusals};
ghost use Rattle.brk_model_theorems.specs.Laws.{answer_to_retry, answers_for_new_keys, call_of_batch_row};
ghost use Rattle.brk_model_theorems.specs.Laws.{calls_with_new_keys, accepted_answers, accepted_calls};

/// A batch answers its well-formed rows as calls in sequence under their keys, and refuses the
/// malformed ones.
pub fn rows_are_answered_by_their_calls()
    ensures called { (form : Fields → ReadResult Command) (name : List ℕ) (base after : Base) (moments : List ℕ) (rows : List Fields) (answers : List Answer)
        → RowsAreAnswered form step_of_row name base moments rows answers after → length answers ≡ length rows
        → RowsAreAnsweredByCalls form step_of_row name base moments rows answers after }
    ensures answered { (form : Fields → ReadResult Command) (name : List ℕ) (base after : Base) (moments : List ℕ) (rows : List Fields) (answers : List Answer)
        → RowsAreAnsweredByCalls form step_of_row name base moments rows answers after
        → RowsAreAnswered form step_of_row name base moments rows answers after × (length answers ≡ length rows) }
{}

/// `result_of_batch_input` computes the specified result of an input, if there is a clock reading
/// for each of its records.
pub fn batch_computes_the_specified_result()
    ensures { (base : Base) (moments : List ℕ) (input : List ℕ) → length (records default_config (input_text input)) ≤ length moments
        → (n : ℕ) × IsResultOfBatch parse_row step_of_row base (take n moments) input (result_of_batch_input base moments input) }
{}

/// The calls of a batch's rows, each under its key, are a run with the same answers and base.
pub fn batch_rows_form_a_run()
    ensures { (base after : Base) (calls : List (RowCall Command)) (answers : List Answer) → CallsHaveAnswers step_of_row base calls answers after
        → Run base (map call_of_batch_row calls) (map Did answers) after }
{}

/// A retry of a complete batch without refusals changes nothing and returns the stored lines, also
/// after other calls.
pub fn a_retried_batch_changes_nothing()
    ensures { (form : Fields
        → ReadResult Command) (base later : Base) (moments others : List ℕ) (input : List ℕ) (answers : List Answer) (first second : BatchResult Base)
        → IsCompleteBatchWithoutRefusals form base moments input answers first
        → SomeRunLeadsTo first.base later → IsResultOfBatch form step_of_row later others input second
        → second ≡ result_of_complete_batch (map answer_to_retry answers, later) }
{}

/// The rows that a retry of a complete batch without refusals decides change nothing, even if it
/// then fails.
pub fn retried_rows_change_nothing()
    ensures { (form : Fields → ReadResult Command) (base later last : Base) (moments others : List ℕ) (input : List ℕ) (answers told : List Answer)
        (first : BatchResult Base) (name : List ℕ) (rows : List Fields) → IsCompleteBatchWithoutRefusals form base moments input answers first
        → SomeRunLeadsTo first.base later → BeginsWithRecords (Some (input_text input)) (batch_header name ∷ rows)
        → BatchRowsAreDecided form step_of_row name later others rows told last
        → (told ≡ map answer_to_retry (take (length rows) answers)) × (last ≡ later) }
{}

/// Rows whose keys a base stores change nothing; they are answered with the stored line or refused
/// with `KeyReused`.
pub fn rows_with_stored_keys_change_nothing()
    ensures { (base after : Base) (calls : List (RowCall Command)) (answers : List Answer) → CallsHaveAnswers step_of_row base calls answers after
        → CallsHaveAnswers step_of_row base (calls_with_new_keys base calls) (answers_for_new_keys base calls answers) after
        × AnswersMatchStoredReplies base calls answers }
{}

/// Two attempts at rows equal one run of the rows that the first accepted and of the second's rows
/// with new keys.
pub fn two_attempts_equal_one_run()
    ensures run { (base mid last : Base) (first again : List (RowCall Command)) (answers told : List Answer)
        → CallsHaveAnswers step_of_row base first answers mid
        → CallsHaveAnswers step_of_row mid again told last
        → CallsHaveAnswers step_of_row base (accepted_calls first answers ++ calls_with_new_keys mid again) (accepted_answers answers
        ++ answers_for_new_keys mid again told) last }
    ensures stored { (base mid : Base) (first : List (RowCall Command)) (answers : List Answer) → CallsHaveAnswers step_of_row base first answers mid
        → AcceptedCallsAreStored mid first answers }
{}

/// A retry completes a batch whose first rows were decided without a refusal, as one uninterrupted
/// run.
pub fn partial_batch_is_completed_by_retry()
    ensures { (form : Fields → ReadResult Command) (name : List ℕ) (base mid last : Base) (moments others : List ℕ) (front more : List Fields)
        (answers told : List Answer) → refused_answer_count answers ≡ 0 → BatchRowsAreDecided form step_of_row name base moments front answers mid
        → BatchRowsAreDecided form step_of_row name mid others (front ++ more) told last
        → (take (length front) told ≡ map answer_to_retry answers)
        × BatchRowsAreDecided form step_of_row name base (moments ++ drop (length moments) others) (front ++ more)
        (answers ++ drop (length front) told) last }
{}

/// A retry completes a batch that was interrupted without a refusal, whether or not the next row
/// was executed.
pub fn interrupted_batch_is_completed_by_retry()
    ensures { (form : Fields → ReadResult Command) (name : List ℕ) (base mid stood last : Base) (moments others : List ℕ) (front more : List Fields)
        (answers told : List Answer) → refused_answer_count answers ≡ 0 → BatchRowsAreDecided form step_of_row name base moments front answers mid
        → IsBaseAfterInterruption form name mid front more stood → BatchRowsAreDecided form step_of_row name stood others (front ++ more) told last
        → IsCompletedByRetry form name base moments others (front ++ more) answers told last
        ⊎ ((moment : ℕ) × (answer : Answer) × NextRowLeadsTo form name mid front more moment answer stood
        × IsCompletedByRetry form name base (moments ++ moment ∷ []) others (front ++ more) (answers ++ answer ∷ []) told last) }
{}
