//! Theorem: calls that are executed in order satisfy the postcondition of a run.

ghost use Rattle.std.specs.Prelude.{◌++◌, ℕ, List};
ghost use Rattle.sqlite.specs.Held.{Held};
ghost use Rattle.brk_io.specs.Calls.{IsCallSequence};
ghost use Rattle.brk_desk.specs.CallPosts.{OutcomePost};
ghost use Rattle.brk_desk.specs.Runs.{IsRunWithOutcomes};
ghost use Rattle.brk_desk.specs.declared.call.Call as desk_call;
ghost use Rattle.brk_desk.specs.declared.call.Outcome as desk_outcome;

use sqlite::Alter;

/// Proves that calls of a desk, in order with nothing between them, are a run (`one_run`), and that
/// two runs in sequence are one (`joined_runs`).
pub fn call_sequences_are_runs<S: Alter>()
    ensures one_run { (old new : Held S) (calls : List (ℕ × desk_call.Call)) (outcomes : List desk_outcome.Outcome)
        → IsCallSequence (λ before now call outcome after. OutcomePost S.Store before after now call outcome) old calls outcomes new
        → IsRunWithOutcomes S.Store old new calls outcomes }
    ensures joined_runs { (old mid new : Held S) (calls others : List (ℕ × desk_call.Call)) (outcomes more : List desk_outcome.Outcome)
        → IsRunWithOutcomes S.Store old mid calls outcomes → IsRunWithOutcomes S.Store mid new others more
        → IsRunWithOutcomes S.Store old new (calls ++ others) (outcomes ++ more) }
{}
