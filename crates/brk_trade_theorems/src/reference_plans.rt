//! Theorems: the plans of records of reference data implement their commands.

ghost use Rattle.std.specs.Prelude.{◌≡◌, ◌∷◌, ◌++◌, [], ℕ, Err, Option, Some};
ghost use Rattle.brk_money.specs.declared.refusal.Refusal.{Refusal};
ghost use Rattle.brk_model.specs.Base.{Base};
ghost use Rattle.brk_model.specs.Step.{step};
ghost use Rattle.brk_model.specs.Tests.{first_refusal, refusal_of_command};
ghost use Rattle.brk_trade_plans.specs.Reference.{IsReferencePlan, later_stamp_check, reference_checks};
ghost use Rattle.brk_trade_plans.specs.declared.plan.Plan.{Plan};
ghost use Rattle.brk_trade_plans.specs.declared.reference.ReferenceFacts.{ReferenceFacts};
ghost use Rattle.brk_trade_plans.specs.declared.reference.Reference.{Reference};
ghost use Rattle.brk_trade_plans.specs.Commands.{command_adding_record};
ghost use Rattle.brk_trade_theorems.specs.Plans.{PlanImplementsCommand, PlanReferencePrecondition};

/// Proves, under `PlanReferencePrecondition`, that a reference record is refused as in the model.
pub fn reference_checks_refuse_as_the_model_does()
    ensures first { (base : Base) (reference : Reference) (found : ReferenceFacts) (last : Option ℕ) (now : ℕ)
        → PlanReferencePrecondition base reference found last now
        → first_refusal (reference_checks reference found ++ later_stamp_check last now ∷ []) ≡ refusal_of_command base now (command_adding_record reference) }
    ensures refused { (base : Base) (reference : Reference) (found : ReferenceFacts) (last : Option ℕ) (now : ℕ) (refusal : Refusal)
        → PlanReferencePrecondition base reference found last now
        → first_refusal (reference_checks reference found ++ later_stamp_check last now ∷ []) ≡ Some refusal
        → step base now (command_adding_record reference) ≡ Err refusal }
{}

/// Proves, under `PlanReferencePrecondition`, that the plan of a reference record implements its
/// command.
pub fn reference_plans_implement_commands()
    ensures { (base : Base) (reference : Reference) (found : ReferenceFacts) (last : Option ℕ) (now : ℕ) (plan : Plan)
        → PlanReferencePrecondition base reference found last now
        → IsReferencePlan reference found last now plan → PlanImplementsCommand base now (command_adding_record reference) plan }
{}
