//! Theorems on texts: the replacement of each occurrence of a part.

ghost use Rattle.std.specs.Prelude.{◌≡◌, ◌≤◌, ◌++◌, ℕ, false, List, length};
ghost use Rattle.brk_model.specs.Lists.{contains_text, replace_text};
ghost use Rattle.brk_model_theorems.specs.Texts.{OccursNowhereBefore};

/// `replace_text` replaces each occurrence of a part that is not empty, from the left, and nothing
/// else.
pub fn occurrences_are_replaced_from_left()
    ensures first_occurrence { (part new before after : List ℕ) → 1 ≤ length part → OccursNowhereBefore (length before) part (before ++ part ++ after)
        → replace_text part new (before ++ part ++ after) ≡ before ++ new ++ replace_text part new after }
    ensures no_occurrence { (part new text : List ℕ) → contains_text part text ≡ false → replace_text part new text ≡ text }
{}
