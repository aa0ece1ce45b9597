//! The age of a row: a stamp, and the id of the row.

ghost use Rattle.std.specs.Prelude.{◌≡◌, IfOk};
ghost use Rattle.brk_store_index.specs.Ages.{is_older};
ghost use Rattle.brk_store_index.specs.Parts.{age_of_cash_row, age_of_id, age_of_lot};
ghost use Rattle.brk_ref.specs.Rows.{abstract_cash_row, abstract_holding_row};

use crate::lost::IndexLost;
use brk_money::{Id, Stamp};
use brk_ref::{CashRow, HoldingRow};

/// The stamp by which a row is sorted, and its id. Rows that are sorted by id alone have the stamp 0.
#[derive(Clone, Copy)]
pub struct RowAge {
    pub stamp: Stamp,
    pub id: Id,
}

impl RowAge {
    pub(crate) fn of_id(id: Id) -> RowAge
        ensures { result ≡ age_of_id id }
    {
        RowAge {
            stamp: Stamp::nearest(0),
            id,
        }
    }

    pub(crate) fn of_lot(lot: &HoldingRow) -> RowAge
        ensures { result ≡ age_of_lot (abstract_holding_row lot.now) }
    {
        RowAge {
            stamp: lot.stamp,
            id: lot.trade,
        }
    }

    // Fails if the number of the row is greater than any id.
    pub(crate) fn of_cash_row(row: &CashRow) -> Result<RowAge, IndexLost>
        ensures { IfOk result (λ age. age ≡ age_of_cash_row (abstract_cash_row row.now)) }
    {
        match Id::new(row.id.get()) {
            Some(id) => Ok(RowAge {
                stamp: row.stamp,
                id,
            }),
            None => Err(IndexLost),
        }
    }

    /// Returns whether the row is older than `other`: by stamp, and at equal stamps by the smaller
    /// id.
    pub fn is_older(&self, other: &RowAge) -> bool
        ensures { result ≡ is_older self.now other.now }
    {
        let stamp = self.stamp.get();
        let other_stamp = other.stamp.get();
        stamp < other_stamp || (stamp == other_stamp && self.id.get() < other.id.get())
    }
}
