//! The trades of each account, of each security, and those with the status submitted.

ghost use Rattle.std.specs.Prelude.{◌≡◌, ◌==◌, ◌∷◌, IfOk, List, OnOk, [], map, None};
ghost use Rattle.brk_ref.specs.Rows.{abstract_trade_row};
ghost use Rattle.brk_model.specs.Lists.{update_where};
ghost use Rattle.brk_model.specs.Tables.{TradeRow as Row};
ghost use Rattle.std.specs.Option.{option_copied};
ghost use Rattle.brk_store_index.specs.Ages.{ages_in};
ghost use Rattle.brk_store_index.specs.Groups.{ages_of_position};
ghost use Rattle.brk_store_index.specs.Parts.{IsIndexOfTrades, PutsTrade, SetsStatus, TakesTrade};

use crate::age::RowAge;
use crate::ages::{insert_age_if, remove_age_if};
use crate::by_number::AgesByNumber;
use crate::by_position::AgesByPosition;
use crate::lost::IndexLost;
use brk_money::{Id, Stamp};
use brk_ref::{Symbol, TradeRow, is_submitted};
use std::alloc::Global;
use std::collections::{HashMap, VecDeque};

// The number of the groups of `symbols`: no account has it.
const ALL_ACCOUNTS: u64 = 0;

/// Where the index has a trade: its account, its symbol, the stamp of its last status, and whether
/// this is submitted.
#[derive(Drop)]
pub(crate) struct TradePlace {
    account: Id,
    symbol: Symbol,
    stamp: Stamp,
    is_submitted: bool,
}

impl TradePlace {
    fn age(&self, id: Id) -> RowAge
        ensures { result ≡ record { stamp = self.now.stamp; id = id } }
    {
        RowAge {
            stamp: self.stamp,
            id,
        }
    }
}

/// The trades of each account and each symbol, those submitted, and the place of each trade.
#[derive(Drop)]
pub(crate) struct TradeGroups {
    pub(crate) accounts: AgesByNumber,
    symbols: AgesByPosition,
    pub(crate) submitted: VecDeque<RowAge>,
    places: HashMap<u64, TradePlace>,
}

impl TradeGroups {
    pub(crate) fn new(alloc: Global) -> TradeGroups
        ensures { IsIndexOfTrades result [] }
    {
        TradeGroups {
            accounts: AgesByNumber::new(alloc),
            symbols: AgesByPosition::new(alloc),
            submitted: VecDeque::new(alloc),
            places: HashMap::new(alloc),
        }
    }

    fn put(&mut self, id: Id, place: TradePlace) -> Result<(), IndexLost>
        ensures { OnOk result (PutsTrade self.old id place self.new) }
    {
        self.accounts.insert(place.account.get(), place.age(id))?;
        self.symbols
            .insert(ALL_ACCOUNTS, &place.symbol, place.age(id))?;
        insert_age_if(place.is_submitted, &mut self.submitted, RowAge::of_id(id))?;
        self.places.insert(id.get(), place)?;
        Ok(())
    }

    fn take(&mut self, id: Id) -> Result<Option<TradePlace>, IndexLost>
        ensures { IfOk result (λ place. TakesTrade self.old id place self.new) }
    {
        let Some(place) = self.places.remove(&id.get()) else {
            return Ok(None);
        };
        let age = place.age(id);
        self.accounts.remove(place.account.get(), &age)?;
        self.symbols.remove(ALL_ACCOUNTS, &place.symbol, &age)?;
        remove_age_if(place.is_submitted, &mut self.submitted, &RowAge::of_id(id));
        Ok(Some(place))
    }

    // Fails also if there is a trade with the id.
    pub(crate) fn add(&mut self, trade: &TradeRow) -> Result<(), IndexLost>
        ensures { OnOk result ((rows : List Row) → IsIndexOfTrades self.old rows → IsIndexOfTrades self.new (abstract_trade_row trade.now ∷ rows)) }
    {
        if self.places.contains_key(&trade.id.get()) {
            return Err(IndexLost);
        }
        let place = TradePlace {
            account: trade.account,
            symbol: trade.symbol.clone()?,
            stamp: trade.stamp,
            is_submitted: is_submitted(trade),
        };
        self.put(trade.id, place)?;
        Ok(())
    }

    pub(crate) fn set_status(
        &mut self,
        id: Id,
        is_submitted: bool,
        stamp: Stamp,
    ) -> Result<(), IndexLost>
        ensures { OnOk result ((set : Row → Row) → SetsStatus is_submitted stamp set → (rows : List Row) → IsIndexOfTrades self.old rows
            → IsIndexOfTrades self.new (update_where (λ r. r.id == id) set rows)) }
    {
        let Some(place) = self.take(id)? else {
            return Ok(());
        };
        self.put(
            id,
            TradePlace {
                account: place.account,
                symbol: place.symbol,
                stamp,
                is_submitted,
            },
        )?;
        Ok(())
    }

    // Fails also if two of the rows have one id.
    pub(crate) fn of_rows(alloc: Global, rows: &[TradeRow]) -> Result<TradeGroups, IndexLost>
        ensures { IfOk result (λ trades. IsIndexOfTrades trades (map abstract_trade_row rows.now)) }
    {
        let mut trades = TradeGroups::new(alloc);
        for row in rows {
            trades.add(row)?;
        }
        Ok(trades)
    }

    pub(crate) fn len(&self) -> usize {
        self.places.len()
    }

    pub(crate) fn ages_of_symbol(&self, symbol: &Symbol) -> Option<&VecDeque<RowAge>>
        ensures { ages_in (option_copied result) ≡ ages_of_position self.now.symbols 0 symbol.now }
    {
        self.symbols.ages(ALL_ACCOUNTS, symbol)
    }
}
