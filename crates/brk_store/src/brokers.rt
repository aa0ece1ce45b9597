//! Reads of brokers by name, of the accounts of a broker, and of all accounts; the broker with an id
//! is read in `reading`, its totals in `numbers`.
#![tactic(auto, using(brk_store_transactions::proofs::Ending::read_is_over, crate::proofs::KeptIndex::read_keeps_index))]

ghost use Rattle.std.specs.Prelude.{◌≡◌, ◌==◌, bytes_eq, filter, map};
ghost use Rattle.brk_ref.specs.Records.{abstract_broker_row};
ghost use Rattle.brk_store_transactions.specs.Holds.{ReadPost};
ghost use Rattle.brk_tables_schema.specs.Desk.{Brokers};
ghost use Rattle.brk_tables_schema.specs.Statements.{AreMatchingRows};

use crate::Store;
use brk_money::{CallFault, Id};
use brk_ref::{BrokerRow, Name};
use brk_store_transactions::begin_transaction;
use sqlite::Alter;
use std::alloc::Global;

impl<S: Alter> Store<S> {
    /// Returns the brokers with the name, sorted by id, ascending.
    pub fn brokers_named(&mut self, alloc: Global, name: &Name) -> Result<Vec<BrokerRow>, CallFault>
        ensures read { ReadPost S.Store self.old self.new result (AreMatchingRows Brokers abstract_broker_row (λ r. bytes_eq r.name name.now)) }
    {
        let mut tx = begin_transaction(&mut self.conn);
        brk_tables_views::brokers_with_name(&mut tx, alloc, name)
    }

    /// Returns the ids of the accounts of a broker, ascending.
    pub fn broker_account_ids(&mut self, alloc: Global, broker: Id) -> Result<Vec<Id>, CallFault>
        ensures read { ReadPost S.Store self.old self.new result (λ all t. all.items ≡ map (λ r. r.id) (filter (λ r. r.broker == broker) t.accounts)) }
    {
        let mut tx = begin_transaction(&mut self.conn);
        brk_tables_views::account_ids_of_broker(&mut tx, alloc, broker)
    }

    /// Returns the ids of all accounts, ascending.
    pub fn account_ids(&mut self, alloc: Global) -> Result<Vec<Id>, CallFault>
        ensures read { ReadPost S.Store self.old self.new result (λ all t. all.items ≡ map (λ r. r.id) t.accounts) }
    {
        let mut tx = begin_transaction(&mut self.conn);
        brk_tables_views::all_account_ids(&mut tx, alloc)
    }
}
