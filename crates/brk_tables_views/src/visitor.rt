//! The visitor of a walk.

ghost use Rattle.std.specs.Prelude.{OnOk, IfErr};

/// A receiver of records of the type `R`, one at a time, which may stop with an error of the type
/// `E`.
pub trait Visitor<R, E> {
    /// The condition under which the visitor may be called; a call preserves it.
    ghost ready: { Self → Type 0 };

    /// Relates the visitor to its state after any number of calls, zero included. This state
    /// includes the values that the visitor holds.
    ghost leads: { Self → Self → Type 0 };

    /// Relates the visitor to its state after a record that it takes.
    ghost takes: { Self → R → Self → Type 0 };

    /// Relates the visitor before a record at which it stops, the record, the error, and the
    /// visitor after it.
    ghost stops: { Self → R → E → Self → Type 0 };

    /// Passes a record to the visitor. Returns `Ok` if the visitor takes it, and otherwise the
    /// error with which the visitor stops the walk.
    fn visit(&mut self, item: &R) -> Result<(), E>
        requires ready { ready self.old }
        ensures ready { ready self.new }
        ensures leads { leads self.old self.new }
        ensures takes { OnOk result (takes self.old item.now self.new) }
        ensures stops { IfErr result (λ e. stops self.old item.now e self.new) };

    /// `leads` is reflexive.
    ghost reflexive: { (p : Self) → leads p p };

    /// `leads` is transitive.
    ghost transitive: { (p q r : Self) → leads p q → leads q r → leads p r };
}
