//! Theorems on keys: a command is accepted at most once per key.

ghost use Rattle.std.specs.Prelude.{◌≡◌, ◌≢◌, ℕ, false, Some, bytes_eq};
ghost use Rattle.brk_money.specs.declared.refusal.Refusal.TheVariants.{KeyReused};
ghost use Rattle.brk_model.specs.Base.{Base};
ghost use Rattle.brk_model.specs.Records.{Key};
ghost use Rattle.brk_model.specs.Commands.{Again, Command, Refused};
ghost use Rattle.brk_model.specs.Rows.{line_text, row_text};
ghost use Rattle.brk_model.specs.Keyed.{keyed_step};
ghost use Rattle.brk_model_theorems.specs.KeyedRows.{AcceptedRow, RefusedRow, IsUnusedKey, RunNotAcceptingKeyLeadsTo, IsAcceptedIfStepAccepts};

/// A retry of an accepted row returns the stored line and changes nothing.
pub fn retry_returns_the_stored_line()
    ensures { (row : AcceptedRow) (later : ℕ) → keyed_step row.after later row.command (Some row.key) ≡ (Again (line_text row.reply), row.after) }
{}

/// Another row under the key of an accepted row is refused with `KeyReused` and changes nothing.
pub fn other_row_under_same_key_is_refused()
    ensures { (row : AcceptedRow) (later : ℕ) (other : Command) → bytes_eq (row_text row.command) (row_text other) ≡ false
        → keyed_step row.after later other (Some row.key) ≡ (Refused KeyReused, row.after) }
{}

/// A key stays unused until a row under it is accepted; a refusal stores no key.
pub fn unused_keys_stay_unused_until_acceptance()
    ensures stores_nothing { (row : RefusedRow) → IsUnusedKey row.base row.key → (row.after ≡ row.base) × IsUnusedKey row.after row.key }
    ensures key_was_unused { (row : RefusedRow) → row.refusal ≢ KeyReused → IsUnusedKey row.base row.key }
    ensures key_stays_unused { (base later : Base) (key : Key) → IsUnusedKey base key → RunNotAcceptingKeyLeadsTo key base later → IsUnusedKey later key }
    ensures is_accepted_later { (base : Base) (key : Key) (now : ℕ) (command : Command) → IsUnusedKey base key → IsAcceptedIfStepAccepts base key now command }
{}
