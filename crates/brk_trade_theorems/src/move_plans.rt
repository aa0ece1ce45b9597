//! Theorems: the plans of movements and of the first day of one-day settlement implement their
//! commands.

ghost use Rattle.std.specs.Prelude.{◌≡◌, ◌∷◌, ◌++◌, [], ℕ, Err, Option, Some};
ghost use Rattle.brk_money.specs.declared.refusal.Refusal.{Refusal};
ghost use Rattle.brk_model.specs.Base.{Base};
ghost use Rattle.brk_model.specs.Commands.{SetOneDay};
ghost use Rattle.brk_model.specs.Step.{step};
ghost use Rattle.brk_model.specs.Tests.{first_refusal, refusal_of_command};
ghost use Rattle.brk_ref_orders.specs.Records.{movement_command};
ghost use Rattle.brk_ref_orders.specs.declared.movement.Movement.{Movement};
ghost use Rattle.brk_trade_plans.specs.Movement.{IsMovementPlan, movement_checks};
ghost use Rattle.brk_trade_plans.specs.OneDay.{IsOneDaySettlementPlan, one_day_settlement_checks};
ghost use Rattle.brk_trade_plans.specs.Reference.{later_stamp_check};
ghost use Rattle.brk_trade_plans.specs.declared.movement.MovementPlanFacts.{MovementPlanFacts};
ghost use Rattle.brk_trade_plans.specs.declared.plan.Plan.{Plan};
ghost use Rattle.brk_trade_theorems.specs.MovePlans.{PlanMovementPrecondition, PlanOneDaySettlementPrecondition};
ghost use Rattle.brk_trade_theorems.specs.Plans.{PlanImplementsCommand};

/// Proves, under `PlanMovementPrecondition`, that a movement is refused as in the model, and that
/// its plan implements the command.
pub fn movement_plans_implement_commands()
    ensures first { (base : Base) (m : Movement) (found : MovementPlanFacts) (last : Option ℕ) (now : ℕ) → PlanMovementPrecondition base m found last now
        → first_refusal (movement_checks m found ++ later_stamp_check last now ∷ []) ≡ refusal_of_command base now (movement_command m) }
    ensures refused { (base : Base) (m : Movement) (found : MovementPlanFacts) (last : Option ℕ) (now : ℕ) (refusal : Refusal)
        → PlanMovementPrecondition base m found last now
        → first_refusal (movement_checks m found ++ later_stamp_check last now ∷ []) ≡ Some refusal → step base now (movement_command m) ≡ Err refusal }
    ensures done { (base : Base) (m : Movement) (found : MovementPlanFacts) (last : Option ℕ) (now : ℕ) (plan : Plan)
        → PlanMovementPrecondition base m found last now
        → IsMovementPlan m found last now plan → PlanImplementsCommand base now (movement_command m) plan }
{}

/// Proves, under `PlanOneDaySettlementPrecondition`, that setting the first day is refused as in
/// the model, and that its plan implements the command.
pub fn one_day_settlement_plans_implement_commands()
    ensures first { (base : Base) (day : ℕ) (rule last : Option ℕ) (now : ℕ) → PlanOneDaySettlementPrecondition base rule last now
        → first_refusal (one_day_settlement_checks day rule last now) ≡ refusal_of_command base now (SetOneDay day) }
    ensures refused { (base : Base) (day : ℕ) (rule last : Option ℕ) (now : ℕ) (refusal : Refusal) → PlanOneDaySettlementPrecondition base rule last now
        → first_refusal (one_day_settlement_checks day rule last now) ≡ Some refusal → step base now (SetOneDay day) ≡ Err refusal }
    ensures done { (base : Base) (day : ℕ) (rule last : Option ℕ) (now : ℕ) (plan : Plan) → PlanOneDaySettlementPrecondition base rule last now
        → IsOneDaySettlementPlan day rule last now plan → PlanImplementsCommand base now (SetOneDay day) plan }
{}
