//! Reads of holdings: pages of the lots of a position, the summaries of an account, and the
//! completed trades of a position.
#![tactic(auto, using(brk_store_transactions::proofs::Ending::read_is_over, crate::proofs::KeptIndex::read_keeps_index))]

ghost use Rattle.std.specs.Prelude.{◌≡◌, ◌==◌, ◌&&◌, Err, IfErr, IfSome, OnErr, bytes_eq, false, filter, map, reverse};
ghost use Rattle.brk_money.specs.declared.fault.Fault.TheVariants as fault;
ghost use Rattle.brk_model.specs.Run.{IsCallFault};
ghost use Rattle.brk_model.specs.Joins.{trade_rows_oldest_first};
ghost use Rattle.brk_model.specs.Lists.{total_by};
ghost use Rattle.brk_money.specs.Kinds.{is_same_trade_status};
ghost use Rattle.brk_money.specs.declared.status.Status.TheVariants.{Completed};
ghost use Rattle.brk_ref.specs.Rows.{abstract_holding_row, abstract_summary_row};
ghost use Rattle.brk_store_index.specs.Prices.{market_value_of_summary};
ghost use Rattle.brk_store_transactions.specs.Holds.{ReadPost};
ghost use Rattle.brk_tables_schema.specs.Desk.{Summaries};
ghost use Rattle.brk_tables_schema.specs.Statements.{IsFirstMatch, AreMatchingRows};
ghost use Rattle.brk_tables_trading.specs.Pages.{position_lots_by_age, page_after_skipped};

use crate::Store;
use brk_money::{CallFault, Fault, Id, StoreFailed, Wide};
use brk_ref::{HoldingRow, SummaryRow, Symbol};
use brk_store_transactions::begin_transaction;
use sqlite::{Alter, Connection};
use std::alloc::Global;

fn read_account_summaries<S: Alter>(
    conn: &mut Connection<S>,
    alloc: Global,
    account: Id,
) -> Result<Vec<SummaryRow>, CallFault>
    requires { conn.old.in_transaction ≡ false }
    ensures mode { conn.new.in_transaction ≡ false }
    ensures read { ReadPost S.Store conn.old conn.new result (AreMatchingRows Summaries abstract_summary_row (λ r. r.account == account)) }
{
    let mut tx = begin_transaction(conn);
    brk_tables_trading::account_summaries(&mut tx, alloc, account)
}

impl<S: Alter> Store<S> {
    /// Returns the ids of the completed trades of an account in a security, sorted by the stamp of
    /// completion and then by id, ascending.
    pub fn completed_trade_ids(
        &mut self,
        alloc: Global,
        account: Id,
        symbol: &Symbol,
    ) -> Result<Vec<Id>, CallFault>
        ensures read { ReadPost S.Store self.old self.new result (λ all t.
            all.items
            ≡ map (λ r. r.id) (trade_rows_oldest_first (filter (λ r. (r.account == account)
            && (bytes_eq r.symbol symbol.now && is_same_trade_status r.status Completed)) t.trades))) }
    {
        let mut tx = begin_transaction(&mut self.conn);
        brk_tables_views::completed_trade_ids(&mut tx, alloc, account, symbol)
    }

    pub(crate) fn page_of_oldest_lots(
        &mut self,
        alloc: Global,
        account: Id,
        symbol: &Symbol,
        skipped: u32,
    ) -> Result<Vec<HoldingRow>, CallFault>
        ensures read { ReadPost S.Store self.old self.new result (λ all t. map abstract_holding_row all.items
            ≡ page_after_skipped skipped (position_lots_by_age account symbol.now t)) }
    {
        let mut tx = begin_transaction(&mut self.conn);
        brk_tables_trading::oldest_lots(&mut tx, alloc, account, symbol, skipped)
    }

    pub(crate) fn page_of_newest_lots(
        &mut self,
        alloc: Global,
        account: Id,
        symbol: &Symbol,
        skipped: u32,
    ) -> Result<Vec<HoldingRow>, CallFault>
        ensures read { ReadPost S.Store self.old self.new result (λ all t. map abstract_holding_row all.items
            ≡ page_after_skipped skipped (reverse (position_lots_by_age account symbol.now t))) }
    {
        let mut tx = begin_transaction(&mut self.conn);
        brk_tables_trading::newest_lots(&mut tx, alloc, account, symbol, skipped)
    }

    /// Returns the number of shares of each security that an account holds, sorted by symbol,
    /// ascending; shares sold short count below 0.
    pub fn read_summaries(
        &mut self,
        alloc: Global,
        account: Id,
    ) -> Result<Vec<SummaryRow>, CallFault>
        ensures read { ReadPost S.Store self.old self.new result (AreMatchingRows Summaries abstract_summary_row (λ r. r.account == account)) }
    {
        read_account_summaries(&mut self.conn, alloc, account)
    }

    fn summaries_with_prepared_index(
        &mut self,
        alloc: Global,
        account: Id,
    ) -> Result<(Vec<SummaryRow>, Option<Wide>), CallFault>
        ensures read { ReadPost S.Store self.old self.new result (λ held t. AreMatchingRows Summaries abstract_summary_row (λ r. r.account == account) held.0 t
            × IfSome held.1 (λ value. value ≡ total_by (market_value_of_summary t) (map abstract_summary_row held.0.items))) }
    {
        let rows = read_account_summaries(&mut self.conn, alloc, account)?;
        let value = self.index.market_value(&rows);
        Ok((rows, value))
    }

    /// Returns the rows of `read_summaries` and, if the last prices are in memory, their market value
    /// at last prices, in cents; shares sold short count below 0. There is no value if a security
    /// has no last price or if the value overflows.
    pub fn summaries_with_value(
        &mut self,
        alloc: Global,
        account: Id,
    ) -> Result<(Vec<SummaryRow>, Option<Wide>), CallFault>
        ensures read { ReadPost S.Store self.old self.new result (λ held t. AreMatchingRows Summaries abstract_summary_row (λ r. r.account == account) held.0 t
            × IfSome held.1 (λ value. value ≡ total_by (market_value_of_summary t) (map abstract_summary_row held.0.items))) }
    {
        self.prepare_index(alloc);
        self.summaries_with_prepared_index(alloc, account)
    }

    /// `read_summaries` for a caller that returns a `Fault`.
    pub fn summaries_of(&mut self, alloc: Global, account: Id) -> Result<Vec<SummaryRow>, Fault>
        ensures read { ReadPost S.Store self.old self.new result (AreMatchingRows Summaries abstract_summary_row (λ r. r.account == account)) }
        ensures fault { IfErr result IsCallFault }
    {
        Ok(self.read_summaries(alloc, account)?)
    }

    /// Returns the number of shares of a security that an account holds, below 0 if sold short.
    pub fn read_summary(
        &mut self,
        account: Id,
        symbol: &Symbol,
    ) -> Result<Option<SummaryRow>, StoreFailed>
        ensures read { ReadPost S.Store self.old self.new result (IsFirstMatch Summaries abstract_summary_row (λ r. (r.account == account)
            && bytes_eq r.symbol symbol.now)) }
    {
        let mut tx = begin_transaction(&mut self.conn);
        brk_tables_trading::position_summary(&mut tx, account, symbol)
    }

    /// `read_summary` for a caller that returns a `Fault`.
    pub fn summary_of(&mut self, account: Id, symbol: &Symbol) -> Result<Option<SummaryRow>, Fault>
        ensures read { ReadPost S.Store self.old self.new result (IsFirstMatch Summaries abstract_summary_row (λ r. (r.account == account)
            && bytes_eq r.symbol symbol.now)) }
        ensures fault { OnErr result (result ≡ Err fault.Store) }
    {
        Ok(self.read_summary(account, symbol)?)
    }
}
