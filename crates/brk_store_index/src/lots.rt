//! The lots of each position and of each account.

ghost use Rattle.std.specs.Prelude.{◌≡◌, ◌==◌, ◌∷◌, IfOk, List, OnOk, [], filter, map, not};
ghost use Rattle.std.specs.HashMap.{hash_map_len};
ghost use Rattle.brk_ref.specs.Rows.{abstract_holding_row};
ghost use Rattle.brk_model.specs.Tables.{HoldingRow as Row};
ghost use Rattle.brk_store_index.specs.Parts.{IsIndexOfLots};

use crate::age::RowAge;
use crate::by_number::AgesByNumber;
use crate::by_position::AgesByPosition;
use crate::lost::IndexLost;
use brk_money::{Id, Stamp};
use brk_ref::{HoldingRow, Symbol};
use std::alloc::Global;
use std::collections::HashMap;

/// Where the index has a lot: its position, and the stamp of its opening.
#[derive(Drop)]
pub(crate) struct LotPlace {
    account: Id,
    symbol: Symbol,
    stamp: Stamp,
}

/// The lots of each position and of each account, and the place of each lot by its trade.
#[derive(Drop)]
pub(crate) struct LotGroups {
    pub(crate) accounts: AgesByNumber,
    pub(crate) positions: AgesByPosition,
    places: HashMap<u64, LotPlace>,
}

impl LotGroups {
    pub(crate) fn new(alloc: Global) -> LotGroups
        ensures { IsIndexOfLots result [] }
    {
        LotGroups {
            accounts: AgesByNumber::new(alloc),
            positions: AgesByPosition::new(alloc),
            places: HashMap::new(alloc),
        }
    }

    // Fails also if the trade has a lot already.
    pub(crate) fn add(&mut self, lot: &HoldingRow) -> Result<(), IndexLost>
        ensures { OnOk result ((rows : List Row) → IsIndexOfLots self.old rows → IsIndexOfLots self.new (abstract_holding_row lot.now ∷ rows)) }
    {
        if self.places.contains_key(&lot.trade.get()) {
            return Err(IndexLost);
        }
        let place = LotPlace {
            account: lot.account,
            symbol: lot.symbol.clone()?,
            stamp: lot.stamp,
        };
        self.places.insert(lot.trade.get(), place)?;
        self.accounts
            .insert(lot.account.get(), RowAge::of_id(lot.trade))?;
        self.positions
            .insert(lot.account.get(), &lot.symbol, RowAge::of_lot(lot))?;
        Ok(())
    }

    pub(crate) fn remove(&mut self, trade: Id) -> Result<(), IndexLost>
        ensures { OnOk result ((rows : List Row) → IsIndexOfLots self.old rows → IsIndexOfLots self.new (filter (λ r. not (r.trade == trade)) rows)) }
    {
        let Some(place) = self.places.remove(&trade.get()) else {
            return Ok(());
        };
        self.accounts
            .remove(place.account.get(), &RowAge::of_id(trade))?;
        self.positions.remove(
            place.account.get(),
            &place.symbol,
            &RowAge {
                stamp: place.stamp,
                id: trade,
            },
        )?;
        Ok(())
    }

    // Fails also if two of the rows have one trade.
    pub(crate) fn of_rows(alloc: Global, rows: &[HoldingRow]) -> Result<LotGroups, IndexLost>
        ensures { IfOk result (λ lots. IsIndexOfLots lots (map abstract_holding_row rows.now)) }
    {
        let mut lots = LotGroups::new(alloc);
        for row in rows {
            lots.add(row)?;
        }
        Ok(lots)
    }

    pub(crate) fn len(&self) -> usize
        ensures { result ≡ hash_map_len self.now.places }
    {
        self.places.len()
    }
}
