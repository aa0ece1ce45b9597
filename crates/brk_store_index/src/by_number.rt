//! The ages of the rows of each group that a number names.

ghost use Rattle.std.specs.Prelude.{◌≡◌, ◌==◌, ℕ, OnOk, []};
ghost use Rattle.std.specs.Option.{option_copied};
ghost use Rattle.brk_store_index.specs.Ages.{InsertsAgeIf, RemovesAgeIf, ages_in};
ghost use Rattle.brk_store_index.specs.Groups.{ages_of_number};

use crate::age::RowAge;
use crate::ages::{insert_age, remove_age};
use crate::lost::IndexLost;
use std::alloc::Global;
use std::collections::{HashMap, VecDeque};

/// The ages of the rows of each group, by the number of the group.
#[derive(Drop)]
pub(crate) struct AgesByNumber {
    pub(crate) alloc: Global,
    groups: HashMap<u64, VecDeque<RowAge>>,
}

impl AgesByNumber {
    pub(crate) fn new(alloc: Global) -> AgesByNumber
        ensures { (number : ℕ) → ages_of_number result number ≡ [] }
    {
        AgesByNumber {
            alloc,
            groups: HashMap::new(alloc),
        }
    }

    pub(crate) fn ages(&self, number: u64) -> Option<&VecDeque<RowAge>>
        ensures { ages_in (option_copied result) ≡ ages_of_number self.now number }
    {
        self.groups.get(&number)
    }

    // Fails also if the group has the age.
    pub(crate) fn insert(&mut self, number: u64, age: RowAge) -> Result<(), IndexLost>
        ensures { OnOk result ((other : ℕ) → InsertsAgeIf (number == other) (ages_of_number self.old other) age (ages_of_number self.new other)) }
    {
        let mut ages = match self.groups.remove(&number) {
            Some(ages) => ages,
            None => VecDeque::new(self.alloc),
        };
        insert_age(&mut ages, age)?;
        self.groups.insert(number, ages)?;
        Ok(())
    }

    pub(crate) fn remove(&mut self, number: u64, age: &RowAge) -> Result<(), IndexLost>
        ensures { OnOk result ((other : ℕ) → RemovesAgeIf (number == other) (ages_of_number self.old other) age.now (ages_of_number self.new other)) }
    {
        let Some(mut ages) = self.groups.remove(&number) else {
            return Ok(());
        };
        remove_age(&mut ages, age);
        self.groups.insert(number, ages)?;
        Ok(())
    }
}
