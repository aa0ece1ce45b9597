//! Theorems on references between records.

ghost use Rattle.std.specs.Prelude.{ℕ, List};
ghost use Rattle.brk_model.specs.Base.{Base};
ghost use Rattle.brk_model.specs.Run.{Call, Outcome, Run};
ghost use Rattle.brk_model_theorems.specs.Laws.{IsReachableFromEmptyBase};
ghost use Rattle.brk_model_theorems.specs.Names.{BaseReferencesResolve};

/// Runs preserve that every record that another refers to exists and that trades are numbered
/// from 1.
pub fn runs_keep_referenced_records()
    ensures run { (base after : Base) (calls : List (ℕ × Call)) (outcomes : List Outcome) → BaseReferencesResolve base → Run base calls outcomes after
        → BaseReferencesResolve after }
    ensures from_empty_base { (base : Base) → IsReachableFromEmptyBase base → BaseReferencesResolve base }
{}
