ghost use Rattle.std.specs.Prelude.{◌≡◌, ℕ, List, [], map, IsTrue, ◌↔◌, OnOk, IfErr, MatchOption};
ghost use Rattle.brk_model.specs.Shares as model;
ghost use Rattle.brk_lots.specs.Lots.{shares_of_lots, list_reversed_if_lifo, abstract_lot};
ghost use Rattle.brk_lots.specs.Position.{IsPosition, IsPositionInAnyOrder, AreOpenedByOtherTrades, AreOpenedBeforeStamp};
ghost use Rattle.brk_lots.specs.Closing.{IsApplicableClosing};

use crate::closing::Closing;
use crate::cutting::apply_touches;
use crate::end::PositionEnd;
use crate::lot::Lot;
use crate::position_checks::{is_later_trade, is_position};
use crate::source::LotSource;
use brk_money::{Fault, Id, Stamp};
use std::alloc::Global;
use std::marker::Model;

/// The lots of one account and security, the oldest first. They have one side, none is of 0 shares,
/// no two are of the same trade, and their stamps ascend strictly.
#[derive(Drop)]
pub struct Position {
    // The lots from `first` on. The ones before it were closed.
    lots: Vec<Lot>,
    first: usize,
}

impl Model for Position {
    ghost use Rattle.std.specs.Prelude.{List, drop, length, ◌≤◌};
    ghost use Rattle.brk_lots.specs.declared.lot.Lot.{Lot};

    ghost Value = { List Lot };

    ghost use Rattle.brk_lots.specs.Position.{IsPosition};

    ghost view = { λ a. drop a.first a.lots.items };

    ghost invariant = { λ a. (a.first ≤ length a.lots.items) × IsPosition (drop a.first a.lots.items) };
}

impl Position {
    pub fn new(alloc: Global) -> Position
        ensures { result ≡ [] }
    {
        Position {
            lots: Vec::new(alloc),
            first: 0,
        }
    }

    /// Returns `None` if the lots, the oldest first, form no position: a lot has 0 shares, two
    /// differ in side or are of one trade, or the stamps do not ascend strictly.
    pub fn from_lots(mut lots: Vec<Lot>) -> Option<Position>
        ensures { MatchOption result (IsPosition lots.items → ⊥) (λ position. (position ≡ lots.items) × IsPosition lots.items) }
    {
        if is_position(&mut lots) {
            Some(Position { lots, first: 0 })
        } else {
            None
        }
    }

    /// Returns the lots, the oldest first.
    pub fn lots(&self) -> &[Lot]
        ensures lots { result.now ≡ self.now }
        ensures position { IsPosition self.now }
        ensures walk { IsPositionInAnyOrder self.now }
    {
        &self.lots[self.first..]
    }

    /// Returns true if the trade opened none of the lots and its stamp is later than those of all
    /// lots.
    pub fn accepts_trade(&self, trade: Id, stamp: Stamp) -> bool
        ensures { IsTrue result ↔ (AreOpenedByOtherTrades trade self.now × AreOpenedBeforeStamp stamp self.now) }
    {
        is_later_trade(self.lots(), trade, stamp)
    }

    /// Applies the effect on this position of a trade that it accepts (`accepts_trade`). Fails with
    /// `Memory`; the position is then unchanged.
    pub fn apply(&mut self, closing: &Closing) -> Result<(), Fault>
        requires { (d : model.Deal) × IsApplicableClosing d self.old closing.now }
        ensures shares { OnOk result ((d : model.Deal) → IsApplicableClosing d self.old closing.now
            → shares_of_lots self.new ≡ model.shares_after_deal (shares_of_lots self.old) d) }
        ensures lots { OnOk result ((d : model.Deal) → IsApplicableClosing d self.old closing.now
            → map abstract_lot self.new ≡ model.lots_of_shares (model.shares_after_deal (shares_of_lots self.old) d)) }
        ensures err { IfErr result (λ fault. (fault ≡ Fault.Memory) × (self.new ≡ self.old)) }
    {
        self.lots.reserve(1)?;
        self.first = apply_touches(&mut self.lots, self.first, &closing.touched);
        if let Some(lot) = closing.opened {
            self.lots.push(lot)?;
        }
        Ok(())
    }

    /// Returns the lots of this position as a source: the newest first if `lifo` is true, otherwise
    /// the oldest first.
    pub fn from_end(&self, lifo: bool) -> PositionEnd<'_>
        ensures remaining { ⟦<PositionEnd<'static> as LotSource>⟧.remaining result (list_reversed_if_lifo lifo self.now) }
        ensures asked { ⟦<PositionEnd<'static> as LotSource>⟧.asked result ≡ 0 }
        ensures walk { IsPositionInAnyOrder self.now }
    {
        PositionEnd::new(self.lots(), lifo)
    }
}
