//! Reads of trades, of the requests of pending trades, and of last trades on the market.
#![tactic(auto, using(brk_store_transactions::proofs::Ending::read_is_over, crate::proofs::KeptIndex::read_keeps_index))]

ghost use Rattle.std.specs.Prelude.{◌≡◌, ◌==◌, bytes_eq, map, option_map, reverse, slice_get};
ghost use Rattle.brk_money.specs.Kinds.{is_same_trade_status};
ghost use Rattle.brk_money.specs.declared.status.Status.TheVariants.{Submitted};
ghost use Rattle.brk_ref.specs.Records.{abstract_last_trade_row};
ghost use Rattle.brk_ref.specs.Rows.{abstract_request_row, abstract_trade_row};
ghost use Rattle.brk_store_transactions.specs.Holds.{ReadPost};
ghost use Rattle.brk_trade_books.specs.OrderReads.{last_price_of_symbol};
ghost use Rattle.brk_tables_schema.specs.Desk.{LastTrades, Requests, Trades};
ghost use Rattle.brk_tables_schema.specs.Statements.{IsFirstMatch, AreMatchingRows};

use crate::Store;
use crate::known::known_if_open;
use brk_money::{CallFault, Id, Price, StoreFailed};
use brk_ref::{LastTrade, RequestRow, Symbol, TradeRow};
use brk_store_index::{Group, StoreIndex};
use brk_store_reads::by_age::read_all_rows;
use brk_store_reads::trades_by_age::SubmittedTrades;
use brk_store_transactions::begin_transaction;
use sqlite::Alter;
use std::alloc::Global;

fn price_of(last: Option<LastTrade>) -> Option<Price>
    ensures { result ≡ option_map (λ r. r.price) (option_map abstract_last_trade_row last) }
{
    match last {
        Some(last) => Some(last.price),
        None => None,
    }
}

impl<S: Alter> Store<S> {
    /// Returns the trade with the id.
    pub fn trade(&mut self, id: Id) -> Result<Option<TradeRow>, StoreFailed>
        ensures read { ReadPost S.Store self.old self.new result (IsFirstMatch Trades abstract_trade_row (λ r. r.id == id)) }
    {
        let mut tx = begin_transaction(&mut self.conn);
        brk_tables_trading::trade_by_id(&mut tx, id)
    }

    /// Returns the greatest trade id.
    pub fn greatest_trade_id(&mut self) -> Result<Option<Id>, StoreFailed>
        ensures read { ReadPost S.Store self.old self.new result (λ o t. o ≡ option_map (λ r. r.id) (slice_get (reverse t.trades) 0)) }
    {
        let mut tx = begin_transaction(&mut self.conn);
        brk_tables_trading::greatest_trade_id(&mut tx)
    }

    /// Returns the trades with the status submitted, sorted by id, ascending.
    pub fn submitted_trades(&mut self, alloc: Global) -> Result<Vec<TradeRow>, CallFault>
        ensures read { ReadPost S.Store self.old self.new result (AreMatchingRows Trades abstract_trade_row (λ r. is_same_trade_status r.status Submitted)) }
    {
        if let StoreIndex::Made(index) = &self.index {
            let ages = index.ages(&Group::SubmittedTrades);
            return read_all_rows(&mut self.conn, alloc, &SubmittedTrades, ages);
        }
        let mut tx = begin_transaction(&mut self.conn);
        brk_tables_trading::submitted_trades(&mut tx, alloc)
    }

    /// Returns the requests of a symbol (TRADE_REQUEST), sorted by trade, ascending.
    pub fn requests_of_symbol(
        &mut self,
        alloc: Global,
        symbol: &Symbol,
    ) -> Result<Vec<RequestRow>, CallFault>
        ensures read { ReadPost S.Store self.old self.new result (AreMatchingRows Requests abstract_request_row (λ r. bytes_eq r.symbol symbol.now)) }
    {
        let mut tx = begin_transaction(&mut self.conn);
        brk_tables_trading::requests_of_symbol(&mut tx, alloc, symbol)
    }

    /// Returns the last trade of a symbol on the market or, before the first tick, its listing.
    pub fn last_trade(&mut self, symbol: &Symbol) -> Result<Option<LastTrade>, StoreFailed>
        ensures read { ReadPost S.Store self.old self.new result (IsFirstMatch LastTrades abstract_last_trade_row (λ r. bytes_eq r.symbol symbol.now)) }
    {
        let mut tx = begin_transaction(&mut self.conn);
        brk_tables_trading::last_trade_by_symbol(&mut tx, symbol)
    }

    /// Returns the price of the last trade of a symbol on the market or, before the first tick, of its
    /// listing, in cents.
    pub fn last_price(&mut self, symbol: &Symbol) -> Result<Option<Price>, StoreFailed>
        ensures read { ReadPost S.Store self.old self.new result (λ price t. price ≡ last_price_of_symbol t symbol.now) }
    {
        if let Some(price) = self.index.last_price(symbol) {
            return known_if_open(&mut self.conn, price);
        }
        let last = self.last_trade(symbol)?;
        Ok(price_of(last))
    }

    /// Returns all rows of TRADE_REQUEST, which are of the pending trades, sorted by trade,
    /// ascending.
    pub fn all_trade_requests(&mut self, alloc: Global) -> Result<Vec<RequestRow>, CallFault>
        ensures read { ReadPost S.Store self.old self.new result (λ all t. map abstract_request_row all.items ≡ t.requests) }
    {
        let mut tx = begin_transaction(&mut self.conn);
        brk_tables_views::all_requests(&mut tx, alloc)
    }
}
