//! A source of the lots of a position, from either of its ends.

ghost use Rattle.std.specs.Prelude.{◌≡◌, ◌≢◌, ◌≤◌, ◌-◌, ⊤, length, pos};
ghost use Rattle.std.specs.List.{All};
ghost use Rattle.brk_lots.specs.Lots.{list_reversed_if_lifo};

use crate::lot::Lot;
use crate::source::LotSource;
use brk_money::Fault;

/// A source of the lots of a position, which returns them from one end. It never fails.
#[derive(Drop)]
pub struct PositionEnd<'a> {
    lots: &'a [Lot],
    lifo: bool,
    // The number of lots of the position.
    total: usize,
    ghost some_shares: { All (λ l. l.qty ≢ pos 0) lots.now },
    ghost within: { length lots.now ≤ total },
}

impl<'a> PositionEnd<'a> {
    pub(crate) fn new(lots: &'a [Lot], lifo: bool) -> PositionEnd<'a>
        requires { All (λ l. l.qty ≢ pos 0) lots.now }
        ensures remaining { ⟦<PositionEnd<'static> as LotSource>⟧.remaining result (list_reversed_if_lifo lifo lots.now) }
        ensures asked { ⟦<PositionEnd<'static> as LotSource>⟧.asked result ≡ 0 }
    {
        PositionEnd {
            lots,
            lifo,
            total: lots.len(),
        }
    }
}

impl LotSource for PositionEnd<'_> {
    ghost remaining = { λ end ls. ls ≡ list_reversed_if_lifo end.lifo end.lots.now };

    ghost reads_faithfully = { λ _. ⊤ };

    ghost leads = { λ _ _. ⊤ };

    // The number of lots that it returned.
    ghost asked = { λ end. end.total - length end.lots.now };

    ghost faulted = { λ _. 0 };

    ghost fails = { λ _ _ _. ⊥ };

    fn next(&mut self) -> Result<Option<Lot>, Fault> {
        if self.lifo {
            let [rest @ .., last] = self.lots else {
                return Ok(None);
            };
            self.lots = rest;
            Ok(Some(*last))
        } else {
            let [first, rest @ ..] = self.lots else {
                return Ok(None);
            };
            self.lots = rest;
            Ok(Some(*first))
        }
    }

    ghost reflexive = { λ _. tt };

    ghost transitive = { λ _ _ _ _ _. tt };

    ghost faithful_before = { λ _ _ _ _. tt };
}
