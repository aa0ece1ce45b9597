//! Reads for text updates: of the trades that an update selects, and of settlements.
#![tactic(auto, using(brk_store_transactions::proofs::Ending::read_is_over, crate::proofs::KeptIndex::read_keeps_index))]

ghost use Rattle.std.specs.Prelude.{◌≡◌, ◌==◌, map};
ghost use Rattle.brk_trade_rows.specs.Chosen as chosen;
ghost use Rattle.brk_ref.specs.Rows.{abstract_settlement_row, abstract_trade_row};
ghost use Rattle.brk_store_transactions.specs.Holds.{ReadPost};
ghost use Rattle.brk_tables_schema.specs.Desk.{Settlements};
ghost use Rattle.brk_tables_schema.specs.Statements.{IsFirstMatch};

use crate::Store;
use brk_money::{CallFault, Id, StoreFailed};
use brk_ref::{SettlementRow, Span, Symbol, TradeRow};
use brk_store_transactions::begin_transaction;
use sqlite::Alter;
use std::alloc::Global;

impl<S: Alter> Store<S> {
    /// Returns the oldest twenty trades of an account that were completed in the span, both ends
    /// included, sorted by the stamp of completion and then by id.
    pub fn twenty_completed_trades(
        &mut self,
        alloc: Global,
        account: Id,
        span: Span,
    ) -> Result<Vec<TradeRow>, CallFault>
        ensures read { ReadPost S.Store self.old self.new result (λ all t. map abstract_trade_row all.items
            ≡ chosen.first_twenty_completed_trade_rows_of_account account span.first span.last t) }
    {
        let mut tx = begin_transaction(&mut self.conn);
        brk_tables_trading::twenty_completed_trades(&mut tx, alloc, account, span.first, span.last)
    }

    /// Does for the cash trades of a symbol what `twenty_completed_trades` does
    /// for an account.
    pub fn twenty_completed_cash_trades(
        &mut self,
        alloc: Global,
        symbol: &Symbol,
        span: Span,
    ) -> Result<Vec<TradeRow>, CallFault>
        ensures read { ReadPost S.Store self.old self.new result (λ all t. map abstract_trade_row all.items
            ≡ chosen.first_twenty_completed_cash_trade_rows_of_symbol symbol.now span.first span.last t) }
    {
        let mut tx = begin_transaction(&mut self.conn);
        brk_tables_trading::twenty_completed_cash_trades(
            &mut tx, alloc, symbol, span.first, span.last,
        )
    }

    /// Returns the settlement of a trade.
    pub fn settlement(&mut self, trade: Id) -> Result<Option<SettlementRow>, StoreFailed>
        ensures read { ReadPost S.Store self.old self.new result (IsFirstMatch Settlements abstract_settlement_row (λ r. r.trade == trade)) }
    {
        let mut tx = begin_transaction(&mut self.conn);
        brk_tables_trading::settlement_by_trade(&mut tx, trade)
    }
}
