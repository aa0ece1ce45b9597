//! Reads of lot changes, sorted by lot and then by trade.
#![tactic(auto, using(brk_store_transactions::proofs::Ending::read_is_over, crate::proofs::KeptIndex::read_keeps_index))]

ghost use Rattle.std.specs.Prelude.{◌==◌};
ghost use Rattle.brk_ref.specs.Rows.{abstract_lot_change_row};
ghost use Rattle.brk_store_transactions.specs.Holds.{ReadPost};
ghost use Rattle.brk_tables_schema.specs.Desk.{HoldingHistory};
ghost use Rattle.brk_tables_schema.specs.Statements.{AreMatchingRows};

use crate::Store;
use brk_money::{CallFault, Id};
use brk_ref::LotChange;
use brk_store_index::{Group, StoreIndex};
use brk_store_reads::accounts_by_age::LotChangesOfTrade;
use brk_store_reads::by_age::read_all_rows;
use brk_store_transactions::begin_transaction;
use sqlite::Alter;
use std::alloc::Global;

impl<S: Alter> Store<S> {
    /// Returns the changes that a trade made to lots, sorted by lot, ascending.
    pub fn lot_changes_by_trade(
        &mut self,
        alloc: Global,
        trade: Id,
    ) -> Result<Vec<LotChange>, CallFault>
        ensures read { ReadPost S.Store self.old self.new result (AreMatchingRows HoldingHistory abstract_lot_change_row (λ r. r.trade == trade)) }
    {
        if let StoreIndex::Made(index) = &self.index {
            let ages = index.ages(&Group::LotChangesOfTrade(trade));
            return read_all_rows(&mut self.conn, alloc, &LotChangesOfTrade { trade }, ages);
        }
        let mut tx = begin_transaction(&mut self.conn);
        brk_tables_views::lot_changes_by_trade(&mut tx, alloc, trade)
    }

    /// Returns the changes of the lot that the trade `lot` opened, sorted by the changing trade,
    /// ascending.
    pub fn lot_changes_of_lot(
        &mut self,
        alloc: Global,
        lot: Id,
    ) -> Result<Vec<LotChange>, CallFault>
        ensures read { ReadPost S.Store self.old self.new result (AreMatchingRows HoldingHistory abstract_lot_change_row (λ r. r.lot == lot)) }
    {
        let mut tx = begin_transaction(&mut self.conn);
        brk_tables_views::lot_changes_of_lot(&mut tx, alloc, lot)
    }
}
