//! The ages of the rows of each group that a number and a symbol name, such as a position.

ghost use Rattle.std.specs.Prelude.{◌≡◌, ℕ, OnOk, [], false};
ghost use Rattle.std.specs.Option.{option_copied};
ghost use Rattle.brk_money.specs.Spelling.{Text};
ghost use Rattle.brk_store_index.specs.Ages.{InsertsAgeIf, RemovesAgeIf, ages_in};
ghost use Rattle.brk_store_index.specs.Groups.{ages_of_position, is_same_position};

use crate::age::RowAge;
use crate::ages::{insert_age, remove_age};
use crate::lost::IndexLost;
use brk_ref::Symbol;
use std::alloc::{AllocError, Global};
use std::collections::{HashMap, VecDeque};

/// The ages of the rows of each group, by the number and the symbol of the group.
#[derive(Drop)]
pub(crate) struct AgesByPosition {
    alloc: Global,
    numbers: HashMap<u64, HashMap<String, VecDeque<RowAge>>>,
}

impl AgesByPosition {
    pub(crate) fn new(alloc: Global) -> AgesByPosition
        ensures { (number : ℕ) (symbol : Text) → ages_of_position result number symbol ≡ [] }
    {
        AgesByPosition {
            alloc,
            numbers: HashMap::new(alloc),
        }
    }

    pub(crate) fn ages(&self, number: u64, symbol: &Symbol) -> Option<&VecDeque<RowAge>>
        ensures { ages_in (option_copied result) ≡ ages_of_position self.now number symbol.now }
    {
        match self.numbers.get(&number) {
            Some(symbols) => symbols.get(symbol.as_str()),
            None => None,
        }
    }

    // Removes the ages of a group, and returns them.
    fn take(&mut self, number: u64, symbol: &Symbol) -> Option<VecDeque<RowAge>>
        ensures taken { ages_in result ≡ ages_of_position self.old number symbol.now }
        ensures emptied { ages_of_position self.new number symbol.now ≡ [] }
        ensures others { (other : ℕ) (name : Text) → is_same_position number symbol.now other name ≡ false → ages_of_position self.new other name ≡ ages_of_position self.old other name }
    {
        match self.numbers.get_mut(&number) {
            Some(symbols) => symbols.remove(symbol.as_str()),
            None => None,
        }
    }

    // Sets the ages of a group. After an error those of all groups of the number may be lost.
    fn put(
        &mut self,
        number: u64,
        symbol: &Symbol,
        ages: VecDeque<RowAge>,
    ) -> Result<(), AllocError>
        ensures put { OnOk result (ages_of_position self.new number symbol.now ≡ ages.items) }
        ensures others { OnOk result ((other : ℕ) (name : Text) → is_same_position number symbol.now other name ≡ false → ages_of_position self.new other name ≡ ages_of_position self.old other name) }
    {
        let mut symbols = match self.numbers.remove(&number) {
            Some(symbols) => symbols,
            None => HashMap::new(self.alloc),
        };
        symbols.insert(String::from_str(self.alloc, symbol.as_str())?, ages)?;
        self.numbers.insert(number, symbols)?;
        Ok(())
    }

    // Fails also if the group has the age.
    pub(crate) fn insert(
        &mut self,
        number: u64,
        symbol: &Symbol,
        age: RowAge,
    ) -> Result<(), IndexLost>
        ensures { OnOk result ((other : ℕ) (name : Text) → InsertsAgeIf (is_same_position number symbol.now other name) (ages_of_position self.old other name) age (ages_of_position self.new other name)) }
    {
        let mut ages = match self.take(number, symbol) {
            Some(ages) => ages,
            None => VecDeque::new(self.alloc),
        };
        insert_age(&mut ages, age)?;
        self.put(number, symbol, ages)?;
        Ok(())
    }

    // Keeps no group without ages.
    pub(crate) fn remove(
        &mut self,
        number: u64,
        symbol: &Symbol,
        age: &RowAge,
    ) -> Result<(), IndexLost>
        ensures { OnOk result ((other : ℕ) (name : Text) → RemovesAgeIf (is_same_position number symbol.now other name) (ages_of_position self.old other name) age.now (ages_of_position self.new other name)) }
    {
        let Some(mut ages) = self.take(number, symbol) else {
            return Ok(());
        };
        remove_age(&mut ages, age);
        if ages.is_empty() {
            return Ok(());
        }
        self.put(number, symbol, ages)?;
        Ok(())
    }
}
