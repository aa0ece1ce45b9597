//! Theorems: the plans of text updates implement their commands, and a text update changes only one
//! column of texts.

ghost use Rattle.std.specs.Prelude.{◌≡◌, ◌∷◌, ◌++◌, [], ℕ, Err, List, Option, Some};
ghost use Rattle.brk_money.specs.Spelling.{Text};
ghost use Rattle.brk_money.specs.declared.refusal.Refusal.{Refusal};
ghost use Rattle.brk_model.specs.Base.{Base};
ghost use Rattle.brk_model.specs.Commands.{ChangeCashNames, ChangeCashTypes, ChangeExecutors};
ghost use Rattle.brk_model.specs.Step.{step};
ghost use Rattle.brk_model.specs.Tests.{first_refusal, refusal_of_command};
ghost use Rattle.brk_ref_orders.specs.Records.{text_update_command};
ghost use Rattle.brk_ref_orders.specs.declared.update.Update.{Update};
ghost use Rattle.brk_trade_plans.specs.Reference.{later_stamp_check};
ghost use Rattle.brk_trade_plans.specs.Update.{IsUpdatePlan, update_checks};
ghost use Rattle.brk_trade_plans.specs.declared.corrected.TextUpdate.{TextUpdate};
ghost use Rattle.brk_trade_plans.specs.declared.plan.Plan.{Plan};
ghost use Rattle.brk_trade_theorems.specs.Plans.{PlanImplementsCommand};
ghost use Rattle.brk_trade_theorems.specs.Corrections.{ChangesOnlyExecutorNames, ChangesOnlyCashTexts, ChangesOnlySettlementTexts, PlanUpdatePrecondition};

/// Proves, under `PlanUpdatePrecondition`, that a text update is refused as in the model, and that
/// its plan implements the command.
pub fn update_plans_implement_commands()
    ensures first { (base : Base) (update : Update) (found : Option TextUpdate) (last : Option ℕ) (now : ℕ) → PlanUpdatePrecondition base update found last now
        → first_refusal (update_checks update found ++ later_stamp_check last now ∷ []) ≡ refusal_of_command base now (text_update_command update) }
    ensures refused { (base : Base) (update : Update) (found : Option TextUpdate) (last : Option ℕ) (now : ℕ) (refusal : Refusal)
        → PlanUpdatePrecondition base update found last now
        → first_refusal (update_checks update found ++ later_stamp_check last now ∷ []) ≡ Some refusal
        → step base now (text_update_command update) ≡ Err refusal }
    ensures done { (base : Base) (update : Update) (found : TextUpdate) (last : Option ℕ) (now : ℕ) (plan : Plan)
        → PlanUpdatePrecondition base update (Some found) last now
        → IsUpdatePlan found last now plan → PlanImplementsCommand base now (text_update_command update) plan }
{}

/// Proves that a text update changes only executor names, settlement texts or cash texts, and the
/// last stamp.
pub fn updates_change_one_text_column()
    ensures executors { (base : Base) (now : ℕ) (ids : List ℕ) → ChangesOnlyExecutorNames base now (ChangeExecutors ids) }
    ensures cash_types { (base : Base) (now account first last : ℕ) → ChangesOnlySettlementTexts base now (ChangeCashTypes account first last) }
    ensures cash_names { (base : Base) (now : ℕ) (symbol : Text) (first last : ℕ) → ChangesOnlyCashTexts base now (ChangeCashNames symbol first last) }
{}
