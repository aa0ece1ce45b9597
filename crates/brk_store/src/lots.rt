//! Pages of the lots of a position: by the index, or by a scan of HOLDING.

ghost use Rattle.std.specs.Prelude.{◌≡◌, ◌==◌, ◌&&◌, Some, bytes_eq, false};
ghost use Rattle.std.specs.Option.{option_copied};
ghost use Rattle.brk_ref.specs.Rows.{abstract_holding_row};
ghost use Rattle.brk_store_index.specs.Ages.{ages_in};
ghost use Rattle.brk_store_index.specs.Index.{lot_of_age};
ghost use Rattle.brk_store_transactions.specs.Holds.{ReadPost};
ghost use Rattle.brk_store.specs.Indexed.{HasRowOfEachAge};

use crate::Store;
use brk_money::{CallFault, Id, Stamp, StoreFailed};
use brk_ref::{HoldingRow, Symbol};
use brk_store_index::{Group, RowAge, StoreIndex};
use brk_store_reads::by_age::{RowsByAge, read_chosen_rows};
use brk_store_reads::lots_by_symbol::read_lot_by_trade;
use sqlite::{Alter, Connection};
use std::alloc::Global;
use std::collections::VecDeque;

// The number of rows of a page; the last page may have fewer.
const PAGE_SIZE: usize = 4;

// A desk with at most so many lots reads a page by a scan of HOLDING, which then takes less time than
// up to 4 reads by key.
const MOST_SCANNED_LOTS: usize = 64;

// The lot must also have been opened at `stamp`.
fn is_lot_of_position(row: &HoldingRow, account: Id, symbol: &Symbol, stamp: Stamp) -> bool
    ensures { result ≡ ((row.now.account == account) && (bytes_eq row.now.symbol symbol.now && (row.now.stamp == stamp))) }
{
    row.account == account && row.symbol.as_str() == symbol.as_str() && row.stamp == stamp
}

#[derive(Clone, Copy)]
struct LotsOfPosition<'a> {
    account: Id,
    symbol: &'a Symbol,
}

impl<S: Alter> RowsByAge<S, HoldingRow> for LotsOfPosition<'_> {
    ghost found = { λ position age row t. Some (abstract_holding_row row) ≡ lot_of_age t.holdings position.account position.symbol.now age };

    fn row_of_age(
        &self,
        conn: &mut Connection<S>,
        age: &RowAge,
    ) -> Result<HoldingRow, StoreFailed> {
        let Some(row) = read_lot_by_trade(conn, age.id)? else {
            return Err(StoreFailed);
        };
        if !is_lot_of_position(&row, self.account, self.symbol, age.stamp) {
            return Err(StoreFailed);
        }
        Ok(row)
    }
}

// At most 4 lots after the first `skipped`, in the order in which they are closed.
fn read_indexed_page<S: Alter>(
    conn: &mut Connection<S>,
    alloc: Global,
    account: Id,
    symbol: &Symbol,
    lifo: bool,
    skipped: u32,
    ages: Option<&VecDeque<RowAge>>,
) -> Result<Vec<HoldingRow>, CallFault>
    requires { conn.old.in_transaction ≡ false }
    ensures mode { conn.new.in_transaction ≡ false }
    ensures read { ReadPost S.Store conn.old conn.new result (λ page t. HasRowOfEachAge account symbol.now lifo skipped (ages_in (option_copied ages.entry)) page.items t) }
{
    let lots = LotsOfPosition { account, symbol };
    read_chosen_rows(conn, alloc, &lots, ages, lifo, skipped as usize, PAGE_SIZE)
}

impl<S: Alter> Store<S> {
    ghost use Rattle.std.specs.Prelude.{◌≡◌, map};
    ghost use Rattle.brk_ref.specs.Rows.{abstract_holding_row};
    ghost use Rattle.brk_store_transactions.specs.Holds.{ReadPost};
    ghost use Rattle.brk_store.specs.Pages.{lot_rows_in_closing_order};
    ghost use Rattle.brk_tables_trading.specs.Pages.{page_after_skipped};

    fn page_of_scanned_lots(
        &mut self,
        alloc: Global,
        account: Id,
        symbol: &Symbol,
        lifo: bool,
        skipped: u32,
    ) -> Result<Vec<HoldingRow>, CallFault>
        ensures read { ReadPost S.Store self.old self.new result (λ page t. map abstract_holding_row page.items
            ≡ page_after_skipped skipped (lot_rows_in_closing_order lifo account symbol.now t)) }
    {
        if lifo {
            self.page_of_newest_lots(alloc, account, symbol, skipped)
        } else {
            self.page_of_oldest_lots(alloc, account, symbol, skipped)
        }
    }

    // Reads by the index, if there is one and the desk has more than `MOST_SCANNED_LOTS` lots;
    // otherwise scans HOLDING.
    fn page_with_prepared_index(
        &mut self,
        alloc: Global,
        account: Id,
        symbol: &Symbol,
        lifo: bool,
        skipped: u32,
    ) -> Result<Vec<HoldingRow>, CallFault>
        ensures read { ReadPost S.Store self.old self.new result (λ page t. map abstract_holding_row page.items
            ≡ page_after_skipped skipped (lot_rows_in_closing_order lifo account symbol.now t)) }
    {
        if let StoreIndex::Made(index) = &self.index {
            if index.number_of_lots() > MOST_SCANNED_LOTS {
                return read_indexed_page(
                    &mut self.conn,
                    alloc,
                    account,
                    symbol,
                    lifo,
                    skipped,
                    index.ages(&Group::Position(account, symbol)),
                );
            }
        }
        self.page_of_scanned_lots(alloc, account, symbol, lifo, skipped)
    }

    pub(crate) fn page_of_lots(
        &mut self,
        alloc: Global,
        account: Id,
        symbol: &Symbol,
        lifo: bool,
        skipped: u32,
    ) -> Result<Vec<HoldingRow>, CallFault>
        ensures read { ReadPost S.Store self.old self.new result (λ page t. map abstract_holding_row page.items
            ≡ page_after_skipped skipped (lot_rows_in_closing_order lifo account symbol.now t)) }
    {
        self.prepare_index(alloc);
        self.page_with_prepared_index(alloc, account, symbol, lifo, skipped)
    }
}
