ghost use Rattle.std.specs.Prelude.{ℕ};

use brk_money::Stamp;

/// A source of timestamps.
pub trait Clock {
    /// Holds if the clock was read once between the first state and the second, and returned this
    /// timestamp. Always holds for a clock that defines no relation of its own.
    ghost gives: { Self → ℕ → Self → Type 0 } = { λ _ _ _. Unit {0} };

    /// Reads the clock once.
    fn now(&mut self) -> Stamp
        ensures { gives self.old result self.new };
}
