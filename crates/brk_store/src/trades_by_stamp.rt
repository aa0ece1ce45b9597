//! Reads of trades of any status by the stamps of their last status.
#![tactic(auto, using(brk_store_transactions::proofs::Ending::read_is_over, crate::proofs::KeptIndex::read_keeps_index))]

ghost use Rattle.std.specs.Prelude.{◌≡◌, ◌==◌, ◌&&◌, bytes_eq, filter, map, nat_le, option_map, option_to_list, take};
ghost use Rattle.brk_ref.specs.Rows.{abstract_trade_row};
ghost use Rattle.brk_model.specs.Joins.{trade_rows_oldest_first, trade_rows_of_account};
ghost use Rattle.brk_model.specs.LookupView.{row_stamp_is_between};
ghost use Rattle.brk_store_transactions.specs.Holds.{ReadPost};

use crate::Store;
use brk_money::{CallFault, Id, Stamp, StoreFailed};
use brk_ref::{Span, Symbol, TradeRow};
use brk_store_index::{Group, StoreIndex};
use brk_store_reads::by_age::read_optional_row;
use brk_store_reads::chosen_ages::first_age_since;
use brk_store_reads::trades_by_age::{TradesOfAccount, TradesOfSymbol, read_twenty_between};
use brk_store_transactions::begin_transaction;
use sqlite::Alter;
use std::alloc::Global;

impl<S: Alter> Store<S> {
    /// Returns the oldest twenty trades of an account whose last status change is in the span, both
    /// ends included, sorted by its stamp and then by id.
    pub fn twenty_trades_of_account(
        &mut self,
        alloc: Global,
        account: Id,
        span: Span,
    ) -> Result<Vec<TradeRow>, CallFault>
        ensures read { ReadPost S.Store self.old self.new result (λ all t. map abstract_trade_row all.items
            ≡ take 20 (trade_rows_oldest_first (filter (λ r. (r.account == account) && row_stamp_is_between span.first span.last r) t.trades))) }
    {
        if let StoreIndex::Made(index) = &self.index {
            let ages = index.ages(&Group::TradesOfAccount(account));
            let trades = TradesOfAccount { account };
            return read_twenty_between(&mut self.conn, alloc, &trades, ages, span.first, span.last);
        }
        let mut tx = begin_transaction(&mut self.conn);
        brk_tables_views::twenty_trades_of_account(&mut tx, alloc, account, span.first, span.last)
    }

    /// Does for a symbol what `twenty_trades_of_account` does for an account.
    pub fn twenty_trades_of_symbol(
        &mut self,
        alloc: Global,
        symbol: &Symbol,
        span: Span,
    ) -> Result<Vec<TradeRow>, CallFault>
        ensures read { ReadPost S.Store self.old self.new result (λ all t. map abstract_trade_row all.items
            ≡ take 20 (trade_rows_oldest_first (filter (λ r. bytes_eq r.symbol symbol.now && row_stamp_is_between span.first span.last r) t.trades))) }
    {
        if let StoreIndex::Made(index) = &self.index {
            let ages = index.ages(&Group::TradesOfSymbol(symbol));
            let trades = TradesOfSymbol { symbol };
            return read_twenty_between(&mut self.conn, alloc, &trades, ages, span.first, span.last);
        }
        let mut tx = begin_transaction(&mut self.conn);
        brk_tables_views::twenty_trades_of_symbol(&mut tx, alloc, symbol, span.first, span.last)
    }

    /// Returns the trade of an account whose last status change is the first at or after the stamp;
    /// of several, that with the least id.
    pub fn first_trade_of_account_since(
        &mut self,
        account: Id,
        first: Stamp,
    ) -> Result<Option<TradeRow>, StoreFailed>
        ensures read { ReadPost S.Store self.old self.new result (λ o t. option_to_list (option_map abstract_trade_row o)
            ≡ take 1 (trade_rows_oldest_first (filter (λ r. nat_le first r.stamp) (trade_rows_of_account t account)))) }
    {
        if let StoreIndex::Made(index) = &self.index {
            let age = first_age_since(index.ages(&Group::TradesOfAccount(account)), first);
            return read_optional_row(&mut self.conn, &TradesOfAccount { account }, age);
        }
        let mut tx = begin_transaction(&mut self.conn);
        brk_tables_views::first_trade_of_account_since(&mut tx, account, first)
    }
}
