//! Visitors that call a closure.

use crate::Visitor;
use brk_lots::Lot;
use brk_ref::HoldingRow;

/// A visitor that calls a closure with each record and stops at the closure's first error.
#[derive(Drop)]
pub struct ClosureVisitor<F> {
    pub call: F,
}

impl<R, E, F: FnMut(&R) -> Result<(), E>> Visitor<R, E> for ClosureVisitor<F> {
    ghost use Rattle.std.specs.Fn.{CalledAt};
    ghost use Rattle.std.specs.Prelude.{Ok, Err};

    ghost ready = { λ v. F.IsAlwaysCallable v.call };

    ghost leads = { λ _ _. Unit {0} };

    ghost takes = { λ p item q. CalledAt F.FnMut p.call item (Ok tt) q.call };

    ghost stops = { λ p item e q. CalledAt F.FnMut p.call item (Err e) q.call };

    fn visit(&mut self, item: &R) -> Result<(), E> {
        (self.call)(item)
    }

    ghost reflexive = { λ _. tt };

    ghost transitive = { λ _ _ _ _ _. tt };
}

/// A visitor that calls a closure with the symbol and the lot of each row, and stops at the
/// closure's first error.
#[derive(Drop)]
pub struct LotClosureVisitor<F> {
    pub call: F,
}

impl<E, F: FnMut(&str, &Lot) -> Result<(), E>> Visitor<HoldingRow, E> for LotClosureVisitor<F> {
    ghost use Rattle.brk_tables_views.specs.Calling.{IsClosureCallWithLot};
    ghost use Rattle.std.specs.Prelude.{Ok, Err};

    ghost ready = { λ v. F.IsAlwaysCallable v.call };

    ghost leads = { λ _ _. Unit {0} };

    ghost takes = { λ p item q. IsClosureCallWithLot F.FnMut p.call item (Ok tt) q.call };

    ghost stops = { λ p item e q. IsClosureCallWithLot F.FnMut p.call item (Err e) q.call };

    fn visit(&mut self, item: &HoldingRow) -> Result<(), E> {
        let lot = Lot {
            trade: item.trade,
            price: item.price,
            qty: item.qty,
            stamp: item.stamp,
        };
        (self.call)(item.symbol.as_str(), &lot)
    }

    ghost reflexive = { λ _. tt };

    ghost transitive = { λ _ _ _ _ _. tt };
}
