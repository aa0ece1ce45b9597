//! Walks: reads that pass rows, one at a time, to a visitor (`visit_..`) or to a closure
//! (`walk_..`). A walk returns `Ok` only after the last row was taken. It fails with the first
//! error of the visitor (`Cause`) or of the closure, or with a fault (`Failed`), after a prefix of
//! the rows: `Store` also if a row is malformed or if the `sqlite` crate runs out of memory, and
//! `Memory` if decoding does, or the walk that keeps the rows it read by the index. The store is
//! borrowed for the whole walk. A walk does not check that the account exists. A crash after a walk
//! exposes only states that a crash before it could expose.

ghost use Rattle.std.specs.Fn.{CalledAt};
ghost use Rattle.brk_ref.specs.Rows.{abstract_holding_row, abstract_cash_row, abstract_trade_row};
ghost use Rattle.brk_model.specs.Statement.{holding_rows_of_account};
ghost use Rattle.brk_tables_views.specs.Calling.{IsClosureCallWithLot};
ghost use Rattle.brk_store.specs.Walked.{CallsClosureWithEachRecord, WalkPost, cash_rows_in_span, completed_trades_by_stamp};

use crate::Store;
use crate::visits::visit_read_rows;
use brk_lots::Lot;
use brk_money::{Fault, Id, Stamp};
use brk_ref::{CashRow, HoldingRow, TradeRow};
use brk_store_index::{Group, RowAge, StoreIndex};
use brk_store_reads::cash_by_age::read_cash_rows_between;
use brk_store_reads::lots_by_symbol::read_lots_by_symbol;
use brk_tables_views::{ClosureVisitor, LotClosureVisitor, Visitor, WalkError};
use sqlite::Alter;
use std::collections::VecDeque;

// A scan passes over some so many rows in the time of one read by key.
const ROWS_SCANNED_PER_READ: usize = 32;

// True if the reads by key take no longer than a scan of `rows` rows; a group that is not there is
// empty. What is read is the same either way.
fn are_few(ages: Option<&VecDeque<RowAge>>, rows: usize) -> bool {
    match ages {
        Some(ages) => ages.len() <= rows / ROWS_SCANNED_PER_READ,
        None => true,
    }
}

impl<S: Alter> Store<S> {
    /// Passes the cash rows of an account with stamps from `from` to `to`, both included, to a
    /// visitor, sorted by stamp and then by number (CM_ID), ascending.
    pub fn visit_cash_rows<E, V: Visitor<CashRow, E>>(
        &mut self,
        account: Id,
        from: Stamp,
        to: Stamp,
        visitor: &mut V,
    ) -> Result<(), WalkError<E>>
        requires ready { V.ready visitor.old }
        ensures ready { V.ready visitor.new }
        ensures leads { V.leads visitor.old visitor.new }
        ensures walked { WalkPost S.Store self.old self.new abstract_cash_row (cash_rows_in_span account from to)
            V.takes V.stops visitor.old visitor.new result }
    {
        if let StoreIndex::Made(index) = &self.index {
            let ages = index.ages(&Group::CashRowsOfAccount(account));
            // CASH_MOVE has about a row for each trade.
            if are_few(ages, index.number_of_trades()) {
                let alloc = index.allocator();
                let rows = read_cash_rows_between(&mut self.conn, alloc, account, ages, from, to);
                return visit_read_rows::<CashRow, E, V>(rows, visitor);
            }
        }
        brk_tables_views::walk_account_cash_rows::<S, E, V>(
            &mut self.conn,
            account,
            from,
            to,
            visitor,
        )
    }

    /// Passes the lots of an account to a visitor, sorted by symbol, by opening stamp and by trade,
    /// ascending.
    pub fn visit_lots<E, V: Visitor<HoldingRow, E>>(
        &mut self,
        account: Id,
        visitor: &mut V,
    ) -> Result<(), WalkError<E>>
        requires ready { V.ready visitor.old }
        ensures ready { V.ready visitor.new }
        ensures leads { V.leads visitor.old visitor.new }
        ensures walked { WalkPost S.Store self.old self.new abstract_holding_row (λ t. holding_rows_of_account t account)
            V.takes V.stops visitor.old visitor.new result }
    {
        if let StoreIndex::Made(index) = &self.index {
            let ages = index.ages(&Group::LotsOfAccount(account));
            if are_few(ages, index.number_of_lots()) {
                let lots = read_lots_by_symbol(&mut self.conn, index.allocator(), account, ages);
                return visit_read_rows::<HoldingRow, E, V>(lots, visitor);
            }
        }
        brk_tables_views::walk_lots::<S, E, V>(&mut self.conn, account, visitor)
    }

    /// Passes the completed trades of all accounts to a visitor, sorted by the stamp of completion
    /// and then by id, ascending.
    pub fn visit_completed_trades<E, V: Visitor<TradeRow, E>>(
        &mut self,
        visitor: &mut V,
    ) -> Result<(), WalkError<E>>
        requires ready { V.ready visitor.old }
        ensures ready { V.ready visitor.new }
        ensures leads { V.leads visitor.old visitor.new }
        ensures walked { WalkPost S.Store self.old self.new abstract_trade_row completed_trades_by_stamp V.takes V.stops visitor.old visitor.new result }
    {
        brk_tables_views::walk_completed_trades::<S, E, V>(&mut self.conn, visitor)
    }

    /// Calls a closure with each cash row of an account with a stamp from `from` to `to`, both
    /// included, sorted by stamp and then by number (CM_ID), ascending.
    ///
    /// Fails with the closure's first error, or with a fault (`Memory` or `Store`) as an error of
    /// type `E`, after a prefix of the rows.
    pub fn walk_cash<E: From<Fault>, F: FnMut(&CashRow) -> Result<(), E> + Drop>(
        &mut self,
        account: Id,
        from: Stamp,
        to: Stamp,
        call: F,
    ) -> Result<(), E>
        requires callable { F.IsAlwaysCallable call }
        ensures called { CallsClosureWithEachRecord S.Store self.old self.new abstract_cash_row (cash_rows_in_span account from to)
            (CalledAt F.FnMut) E.from_gives call result }
    {
        let mut calls = ClosureVisitor { call };
        match self.visit_cash_rows::<E, ClosureVisitor<F>>(account, from, to, &mut calls) {
            Ok(()) => Ok(()),
            Err(WalkError::Failed(fault)) => Err(E::from(Fault::from(fault))),
            Err(WalkError::Cause(cause)) => Err(cause),
        }
    }

    /// Calls a closure with each lot of an account and its symbol, sorted by symbol, by opening
    /// stamp and by trade, ascending.
    ///
    /// Fails as `walk_cash` does.
    pub fn walk_lots<E: From<Fault>, F: FnMut(&str, &Lot) -> Result<(), E> + Drop>(
        &mut self,
        account: Id,
        call: F,
    ) -> Result<(), E>
        requires callable { F.IsAlwaysCallable call }
        ensures called { CallsClosureWithEachRecord S.Store self.old self.new abstract_holding_row (λ t. holding_rows_of_account t account)
            (IsClosureCallWithLot F.FnMut) E.from_gives call result }
    {
        let mut calls = LotClosureVisitor { call };
        match self.visit_lots::<E, LotClosureVisitor<F>>(account, &mut calls) {
            Ok(()) => Ok(()),
            Err(WalkError::Failed(fault)) => Err(E::from(Fault::from(fault))),
            Err(WalkError::Cause(cause)) => Err(cause),
        }
    }
}
