//! Theorems: a key is idempotent across batches and requests.

ghost use Rattle.std.specs.Prelude.{◌≡◌, ℕ, List, Some, codes};
ghost use Rattle.brk_model.specs.Base.{Base};
ghost use Rattle.brk_model.specs.Batch.{step_of_row};
ghost use Rattle.brk_model.specs.Commands.{Again, Command, Done, Reply};
ghost use Rattle.brk_model.specs.Records.{Key};
ghost use Rattle.brk_model.specs.Rows.{line_text, reply_fields};
ghost use Rattle.brk_model.specs.Run.{IsOutcomeOfCall, Call, Did, Do, Outcome, Run};
ghost use Rattle.brk_model_http.specs.Bodies.{json_texts_object};
ghost use Rattle.brk_model_http.specs.Replies.{answer_body};
ghost use Rattle.brk_model_http.specs.Routes.{split_at_byte};

/// Proves that the line of a reply splits at its commas into the fields of the reply, which the
/// body of a retry's reply has too.
pub fn reply_line_splits_into_its_fields()
    ensures fields { (reply : Reply) → split_at_byte 44 (line_text reply) ≡ reply_fields reply }
    ensures retry_body { (reply : Reply) → answer_body (Again (line_text reply)) ≡ json_texts_object (codes "again") (reply_fields reply) }
{}

/// Proves that a row that a batch or a request accepted gets the stored reply from the other,
/// unless its call fails, and changes nothing.
pub fn key_is_idempotent_across_interfaces()
    ensures accepted_in_batch { (base mid after : Base) (now later : ℕ) (command : Command) (key : Key) (reply : Reply) (calls : List (ℕ
        × Call)) (outcomes : List Outcome)
        → step_of_row base now command key ≡ (Done reply, mid) → Run mid calls outcomes after
        → IsOutcomeOfCall after later (Do command (Some key)) (Did (Again (line_text reply))) after }
    ensures accepted_as_request { (base mid after : Base) (now later : ℕ) (command : Command) (key : Key) (reply : Reply) (calls : List (ℕ
        × Call)) (outcomes : List Outcome)
        → IsOutcomeOfCall base now (Do command (Some key)) (Did (Done reply)) mid → Run mid calls outcomes after
        → step_of_row after later command key ≡ (Again (line_text reply), after) }
{}
