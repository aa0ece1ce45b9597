ghost use Rattle.std.specs.Prelude.{◌≡◌, ◌≢◌, ◌+◌, ◌≤◌, ℕ, List, [], ◌∷◌, IfOk, IfErr, IfSome, MatchOption, pos};
ghost use Rattle.brk_lots.specs.declared.lot.Lot.{Lot};
ghost use Rattle.brk_money.specs.declared.fault.Fault.{Fault};

use crate::lot::Lot;
use brk_money::Fault;

/// A source of the lots of a position, from one of its ends. It skips no lot and repeats none,
/// unless a read of the disk returned other bytes than were written.
pub trait LotSource {
    /// Relates the source to the lots that remain, in the sequence in which it returns them.
    ghost remaining: { Self → List Lot → Type 0 };

    /// The disk assumption: every read of the underlying store so far returned what was written.
    /// True of a source that reads no disk.
    ghost reads_faithfully: { Self → Type 0 };

    /// Relates the source to each state of it, and of the store that it reads, to which calls can
    /// lead.
    ghost leads: { Self → Self → Type 0 };

    /// A count of the lots that were requested so far, which the source defines: a call raises it
    /// by at most 1.
    ghost asked: { Self → ℕ };

    /// A count of the faults so far, which the source defines: a call that succeeds does not change
    /// it.
    ghost faulted: { Self → ℕ };

    /// The effect of a call that fails: the source before it, the fault, and the source after it.
    ghost fails: { Self → Fault → Self → Type 0 };

    /// Returns the next lot, or `None` after the last, under the disk assumption. A call that fails
    /// leaves the remaining lots as they were, and may be repeated.
    fn next(&mut self) -> Result<Option<Lot>, Fault>
        ensures leads { leads self.old self.new }
        ensures given { IfOk result (λ given. reads_faithfully self.new → (ls : List Lot) → remaining self.old ls →
            MatchOption given ((ls ≡ []) × remaining self.new []) (λ lot. (more : List Lot) × (ls ≡ lot ∷ more) × remaining self.new more)) }
        // No returned lot is of 0 shares, even if the disk assumption fails.
        ensures some_shares { IfOk result (λ given. IfSome given (λ lot. lot.qty ≢ pos 0)) }
        ensures fault { IfErr result (λ fault. fails self.old fault self.new) }
        ensures unchanged { IfErr result (λ _. (ls : List Lot) → remaining self.old ls → remaining self.new ls) }
        ensures asked { asked self.new ≤ asked self.old + 1 }
        ensures faulted { IfOk result (λ given. faulted self.new ≡ faulted self.old) };

    /// `leads` relates each source to itself.
    ghost reflexive: { (p : Self) → leads p p };

    /// `leads` is transitive.
    ghost transitive: { (p q r : Self) → leads p q → leads q r → leads p r };

    /// If the disk assumption holds in a state of the source, it held in each state that leads to
    /// it.
    ghost faithful_before: { (p q : Self) → leads p q → reads_faithfully q → reads_faithfully p };
}
