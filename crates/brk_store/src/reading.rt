//! Reads of brokers, customers and accounts, of stored replies, and of the last stamp.
#![tactic(auto, using(brk_store_transactions::proofs::Ending::read_is_over, crate::proofs::KeptIndex::read_keeps_index))]

ghost use Rattle.std.specs.Prelude.{◌≡◌, ◌==◌, ◌&&◌, bytes_eq};
ghost use Rattle.brk_ref.specs.Records.{abstract_account_row, abstract_broker_row, abstract_customer, abstract_kept_row};
ghost use Rattle.brk_store_transactions.specs.Holds.{ReadPost};
ghost use Rattle.brk_tables_schema.specs.Desk.{Accounts, Brokers, Customers, KeptRows};
ghost use Rattle.brk_tables_schema.specs.Statements.{IsFirstMatch, AreMatchingRows};

use crate::Store;
use crate::known::known_if_open;
use brk_money::{CallFault, Id, Stamp, StoreFailed};
use brk_ref::{AccountRow, BrokerRow, Customer, Kept, Key, TaxId};
use brk_store_index::{Group, StoreIndex};
use brk_store_reads::accounts_by_age::AccountsOfCustomer;
use brk_store_reads::by_age::read_all_rows;
use brk_store_transactions::begin_transaction;
use sqlite::Alter;
use std::alloc::Global;

impl<S: Alter> Store<S> {
    /// Returns the stamp of the last accepted command, in milliseconds since 1970-01-01 UTC. Fails
    /// with `Store` also unless DESK has exactly one row, with the id 1 and the number of schema 3.
    pub fn last_stamp(&mut self) -> Result<Option<Stamp>, StoreFailed>
        ensures read { ReadPost S.Store self.old self.new result (λ last t. last ≡ t.last) }
    {
        let mut tx = begin_transaction(&mut self.conn);
        brk_tables_schema::last_stamp(&mut tx)
    }

    /// Returns the broker with the id.
    pub fn broker(&mut self, id: Id) -> Result<Option<BrokerRow>, StoreFailed>
        ensures read { ReadPost S.Store self.old self.new result (IsFirstMatch Brokers abstract_broker_row (λ r. r.id == id)) }
    {
        let mut tx = begin_transaction(&mut self.conn);
        brk_tables_reference::broker_by_id(&mut tx, id)
    }

    /// Returns the customer with the id.
    pub fn customer(&mut self, id: Id) -> Result<Option<Customer>, StoreFailed>
        ensures read { ReadPost S.Store self.old self.new result (IsFirstMatch Customers abstract_customer (λ r. r.id == id)) }
    {
        if let Some(customer) = self.index.customer(id) {
            return known_if_open(&mut self.conn, customer);
        }
        let mut tx = begin_transaction(&mut self.conn);
        brk_tables_reference::customer_by_id(&mut tx, id)
    }

    /// Returns the customer with the tax number (C_TAX_ID).
    pub fn customer_by_tax_id(&mut self, tax_id: &TaxId) -> Result<Option<Customer>, StoreFailed>
        ensures read { ReadPost S.Store self.old self.new result (IsFirstMatch Customers abstract_customer (λ r. bytes_eq r.tax_id tax_id.now)) }
    {
        let mut tx = begin_transaction(&mut self.conn);
        brk_tables_reference::customer_by_tax_id(&mut tx, tax_id)
    }

    /// Returns the account with the id.
    pub fn account(&mut self, id: Id) -> Result<Option<AccountRow>, StoreFailed>
        ensures read { ReadPost S.Store self.old self.new result (IsFirstMatch Accounts abstract_account_row (λ r. r.id == id)) }
    {
        let mut tx = begin_transaction(&mut self.conn);
        brk_tables_reference::account_by_id(&mut tx, id)
    }

    /// Returns the accounts of a customer, sorted by id, ascending.
    pub fn accounts_of_customer(
        &mut self,
        alloc: Global,
        customer: Id,
    ) -> Result<Vec<AccountRow>, CallFault>
        ensures read { ReadPost S.Store self.old self.new result (AreMatchingRows Accounts abstract_account_row (λ r. r.customer == customer)) }
    {
        if let StoreIndex::Made(index) = &self.index {
            let ages = index.ages(&Group::AccountsOfCustomer(customer));
            return read_all_rows(
                &mut self.conn,
                alloc,
                &AccountsOfCustomer { customer },
                ages,
            );
        }
        let mut tx = begin_transaction(&mut self.conn);
        brk_tables_reference::accounts_of_customer(&mut tx, alloc, customer)
    }

    /// Returns the texts of the accepted row and of its reply under the key.
    pub fn stored_reply_by_key(&mut self, key: &Key) -> Result<Option<Kept>, StoreFailed>
        ensures read { ReadPost S.Store self.old self.new result (IsFirstMatch KeptRows abstract_kept_row (λ k. bytes_eq k.key.batch key.now.batch
            && (k.key.n == key.now.n))) }
    {
        let mut tx = begin_transaction(&mut self.conn);
        brk_tables_schema::kept_row_by_key(&mut tx, key)
    }
}
