//! Receivers of the changes of lots: a vector, and one that discards them.

ghost use Rattle.std.specs.Prelude.{◌≡◌, ◌++◌, ◌∷◌, [], List, IfErr, OnOk};
ghost use Rattle.brk_lots.specs.declared.lot.Touch.{Touch};
ghost use Rattle.brk_money.specs.declared.fault.Fault.{Fault};
ghost use Rattle.brk_money.specs.declared.fault.Fault.TheVariants.{Memory};

use crate::lot::Touch;
use brk_money::Fault;

// A receiver of lot changes: it receives the changes of the lots that are closed or reduced, one at
// a time.
pub(crate) trait TouchReceiver {
    // Relates the receiver to the lot changes that were added to it.
    ghost holds: { Self → List Touch → Type 0 };

    // The faults with which a call may fail.
    ghost fails: { Fault → Type 0 };

    fn add(&mut self, row: Touch) -> Result<(), Fault>
        ensures added { OnOk result ((rows : List Touch) → holds self.old rows → holds self.new (rows ++ row ∷ [])) }
        ensures fault { IfErr result fails };
}

// A vector stores the lot changes.
impl TouchReceiver for Vec<Touch> {
    ghost holds = { λ kept rows. kept.items ≡ rows };

    ghost fails = { λ fault. fault ≡ Memory };

    fn add(&mut self, row: Touch) -> Result<(), Fault> {
        self.push(row)?;
        Ok(())
    }
}

// A receiver that discards the lot changes. It never allocates.
#[derive(Drop)]
pub(crate) struct TouchDiscarder;

impl TouchReceiver for TouchDiscarder {
    ghost holds = { λ _ _. Unit {0} };

    ghost fails = { λ _. ⊥ };

    fn add(&mut self, _row: Touch) -> Result<(), Fault> {
        Ok(())
    }
}
