//! Reads of cash rows and of the first day of one-day settlement.
#![tactic(auto, using(brk_store_transactions::proofs::Ending::read_is_over, crate::proofs::KeptIndex::read_keeps_index))]

ghost use Rattle.std.specs.Prelude.{◌≡◌, ◌+◌, filter, is_none, length, nat_le, option_map, reverse, slice_get};
ghost use Rattle.brk_model.specs.Limits.{greatest_id};
ghost use Rattle.brk_model.specs.LookupView.{is_cash_row_of_trade};
ghost use Rattle.brk_ref.specs.Rows.{abstract_cash_row};
ghost use Rattle.brk_trade_books.specs.TradeReads.{last_cash_row_number_or_zero};
ghost use Rattle.brk_store_transactions.specs.Holds.{ReadPost};
ghost use Rattle.brk_tables_schema.specs.Desk.{CashMoves};
ghost use Rattle.brk_tables_schema.specs.Statements.{IsFirstMatch};

use crate::Store;
use brk_money::{Day, Id, MoveId, StoreFailed};
use brk_ref::CashRow;
use brk_store_transactions::begin_transaction;
use sqlite::Alter;

// The limit on the count of deposits and withdrawals of a desk.
const GREATEST_MOVEMENT_COUNT: u64 = 1_000_000_000_000;

impl<S: Alter> Store<S> {
    /// Returns the first day of one-day settlement, in days since 1970-01-01. Fails with `Store`
    /// also if SETTLE_RULE has two rows or more, or one with another id than 1.
    pub fn one_day_start(&mut self) -> Result<Option<Day>, StoreFailed>
        ensures read { ReadPost S.Store self.old self.new result (λ day t. day ≡ t.rule) }
    {
        let mut tx = begin_transaction(&mut self.conn);
        brk_tables_cash::one_day_start(&mut tx)
    }

    /// Returns the cash row of a trade.
    pub fn cash_row(&mut self, trade: Id) -> Result<Option<CashRow>, StoreFailed>
        ensures read { ReadPost S.Store self.old self.new result (IsFirstMatch CashMoves abstract_cash_row (is_cash_row_of_trade trade)) }
    {
        let mut tx = begin_transaction(&mut self.conn);
        brk_tables_cash::cash_row_by_trade(&mut tx, trade)
    }

    fn last_cash_row(&mut self) -> Result<Option<CashRow>, StoreFailed>
        ensures read { ReadPost S.Store self.old self.new result (λ o t. option_map abstract_cash_row o ≡ slice_get (reverse t.moves) 0) }
    {
        let mut tx = begin_transaction(&mut self.conn);
        brk_tables_cash::cash_row_with_greatest_id(&mut tx)
    }

    // Reads each row of a deposit or a withdrawal, so its time grows with their number.
    fn has_reached_movement_limit(&mut self) -> Result<bool, StoreFailed>
        ensures read { ReadPost S.Store self.old self.new result (λ all t. all ≡ nat_le greatest_id (length (filter (λ r. is_none r.trade) t.moves))) }
    {
        let mut tx = begin_transaction(&mut self.conn);
        brk_tables_cash::has_reached_movement_limit(&mut tx)
    }

    /// Returns the greatest number of a cash row plus 1, or 1 if there is no cash row. Fails with
    /// `Store` also if the greatest `MoveId` is in use.
    pub fn next_cash_row_number(&mut self) -> Result<MoveId, StoreFailed>
        ensures read { ReadPost S.Store self.old self.new result (λ next t. next ≡ last_cash_row_number_or_zero t + 1) }
    {
        let number = match self.last_cash_row()? {
            Some(row) => row.id.get() + 1,
            None => 1,
        };
        match MoveId::new(number) {
            Some(next) => Ok(next),
            None => Err(StoreFailed),
        }
    }

    /// Returns the next number (`next_cash_row_number`), and whether at least `Id::GREATEST`
    /// (1,000,000,000,000) movements are booked, so that no further one may be.
    pub fn next_movement_number(&mut self) -> Result<(MoveId, bool), StoreFailed>
        ensures read { ReadPost S.Store self.old self.new result (λ number t. (number.0 ≡ last_cash_row_number_or_zero t + 1)
            × (number.1 ≡ nat_le greatest_id (length (filter (λ r. is_none r.trade) t.moves)))) }
    {
        let next = self.next_cash_row_number()?;
        // If the next number is below `GREATEST_MOVEMENT_COUNT`, there are fewer movements than
        // that, so they are not counted.
        if next.get() < GREATEST_MOVEMENT_COUNT {
            return Ok((next, false));
        }
        let has_reached_limit = self.has_reached_movement_limit()?;
        Ok((next, has_reached_limit))
    }
}
