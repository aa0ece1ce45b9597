//! Theorems on runs of calls.

ghost use Rattle.std.specs.Prelude.{◌≡◌, ℕ, List, Option};
ghost use Rattle.brk_money.specs.declared.refusal.Refusal.{Refusal};
ghost use Rattle.brk_model.specs.Base.{Base};
ghost use Rattle.brk_model.specs.Records.{Key};
ghost use Rattle.brk_model.specs.Commands.{Again, Command, Refused};
ghost use Rattle.brk_model.specs.Keyed.{keyed_step};
ghost use Rattle.brk_model.specs.Run.{Call, Outcome, Run};
ghost use Rattle.brk_model_theorems.specs.Laws.{StampsAscendFrom, base_after_accepted_commands, accepted_stamps};

/// A command that is refused, or answered with a stored line, does not change the base.
pub fn refusals_and_retries_change_nothing()
    ensures refused { (base after : Base) (now : ℕ) (command : Command) (key : Option Key) (refusal : Refusal)
        → keyed_step base now command key ≡ (Refused refusal, after) → after ≡ base }
    ensures again { (base after : Base) (now : ℕ) (command : Command) (key : Option Key) (line : List ℕ) → keyed_step base now command key ≡ (Again line, after)
        → after ≡ base }
{}

/// The accepted commands of a run alone determine the base after it.
pub fn accepted_commands_determine_the_base()
    ensures { (base after : Base) (calls : List (ℕ × Call)) (outcomes : List Outcome) → Run base calls outcomes after
        → after ≡ base_after_accepted_commands base calls outcomes }
{}

/// The stamps of a run's accepted commands ascend strictly, from the last stamp before the run on.
pub fn accepted_stamps_ascend_strictly()
    ensures { (base after : Base) (calls : List (ℕ × Call)) (outcomes : List Outcome) → Run base calls outcomes after
        → StampsAscendFrom base.last (accepted_stamps outcomes) }
{}
