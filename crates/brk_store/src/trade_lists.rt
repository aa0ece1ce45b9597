//! Reads for the views of an account's trades.
#![tactic(auto, using(brk_store_transactions::proofs::Ending::read_is_over, crate::proofs::KeptIndex::read_keeps_index))]

ghost use Rattle.std.specs.Prelude.{◌≡◌, ◌==◌, map, take};
ghost use Rattle.brk_ref.specs.Rows.{abstract_history_row, abstract_trade_row};
ghost use Rattle.brk_model.specs.Joins.{trade_rows_recent_first, trade_rows_of_account};
ghost use Rattle.brk_store_transactions.specs.Holds.{ReadPost};
ghost use Rattle.brk_tables_schema.specs.Desk.{TradeHistory};
ghost use Rattle.brk_tables_schema.specs.Statements.{AreMatchingRows};

use crate::Store;
use brk_money::{CallFault, Id};
use brk_ref::{HistoryRow, TradeRow};
use brk_store_index::{Group, StoreIndex};
use brk_store_reads::by_age::read_chosen_rows;
use brk_store_reads::trades_by_age::TradesOfAccount;
use brk_store_transactions::begin_transaction;
use sqlite::Alter;
use std::alloc::Global;

impl<S: Alter> Store<S> {
    /// Returns the last ten trades of an account, sorted by the stamp of their last status change
    /// and then by id, descending.
    pub fn last_ten_trades(
        &mut self,
        alloc: Global,
        account: Id,
    ) -> Result<Vec<TradeRow>, CallFault>
        ensures read { ReadPost S.Store self.old self.new result (λ all t. map abstract_trade_row all.items
            ≡ take 10 (trade_rows_recent_first (trade_rows_of_account t account))) }
    {
        if let StoreIndex::Made(index) = &self.index {
            let ages = index.ages(&Group::TradesOfAccount(account));
            let trades = TradesOfAccount { account };
            return read_chosen_rows(&mut self.conn, alloc, &trades, ages, true, 0, 10);
        }
        let mut tx = begin_transaction(&mut self.conn);
        brk_tables_trading::last_ten_trades(&mut tx, alloc, account)
    }

    /// Does for fifty trades what `last_ten_trades` does for ten.
    pub fn last_fifty_trades(
        &mut self,
        alloc: Global,
        account: Id,
    ) -> Result<Vec<TradeRow>, CallFault>
        ensures read { ReadPost S.Store self.old self.new result (λ all t. map abstract_trade_row all.items
            ≡ take 50 (trade_rows_recent_first (trade_rows_of_account t account))) }
    {
        if let StoreIndex::Made(index) = &self.index {
            let ages = index.ages(&Group::TradesOfAccount(account));
            let trades = TradesOfAccount { account };
            return read_chosen_rows(&mut self.conn, alloc, &trades, ages, true, 0, 50);
        }
        let mut tx = begin_transaction(&mut self.conn);
        brk_tables_trading::last_fifty_trades(&mut tx, alloc, account)
    }

    /// Returns the statuses that a trade reached, with their stamps, sorted by the code of the
    /// status, ascending.
    pub fn history_of_trade(
        &mut self,
        alloc: Global,
        trade: Id,
    ) -> Result<Vec<HistoryRow>, CallFault>
        ensures read { ReadPost S.Store self.old self.new result (AreMatchingRows TradeHistory abstract_history_row (λ r. r.trade == trade)) }
    {
        let mut tx = begin_transaction(&mut self.conn);
        brk_tables_trading::history_of_trade(&mut tx, alloc, trade)
    }
}
