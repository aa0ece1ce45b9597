//! The lots of a position, which a source reads from the store 4 rows at a time (a page of them).

ghost use Rattle.std.specs.Prelude.{◌≡◌, ◌≢◌, ◌≤◌, ◌+◌, IfOk, IsTrue, length, map, pos};
ghost use Rattle.std.specs.List.{All};
ghost use Rattle.brk_ref.specs.Rows.{abstract_holding_row};
ghost use Rattle.brk_tables_trading.specs.Pages.{page_after_skipped, page_size};
ghost use Rattle.brk_trade_books.specs.OrderReads.{lot_of_typed_row};
ghost use Rattle.brk_store_transactions.specs.Holds.{ReadPost};
ghost use Rattle.brk_store.specs.Pages.{lot_rows_in_closing_order};

use crate::Store;
use brk_lots::{Lot, LotSource};
use brk_money::{CallFault, Fault, Id};
use brk_ref::{HoldingRow, Symbol};
use sqlite::Alter;
use std::alloc::Global;

// The number of rows of a page; the last page may have fewer. The SQL statements that read a page
// contain this number too.
const PAGE_SIZE: usize = 4;

/// The rows of a page, and the number of them that were returned as lots (1 for an empty page that
/// was read).
#[derive(Drop)]
pub struct Page {
    rows: Vec<HoldingRow>,
    returned: usize,
    ghost few: { length rows.items ≤ returned + 3 },
    ghost some_shares: { All (λ r. r.qty ≢ pos 0) rows.items },
}

/// A source of the lots of an account in a security, the oldest first or the newest first. Of the
/// rows that it reads, at most 3 are not yet returned as lots (`rows_read`). It borrows the store.
pub type LotPages<'a, S> = Pages<'a, S, Page>;

/// A source of lots that reads a borrowed store in pages. `P` is always `Page` (`LotPages`). It is
/// a parameter, so that a caller's contract can specify the store after the source is dropped.
pub struct Pages<'a, S: Alter, P> {
    store: &'a mut Store<S>,
    alloc: Global,
    account: Id,
    symbol: &'a Symbol,
    lifo: bool,
    page: P,
    // `read`: the number of rows that were read. `ended`: true once a page had fewer than 4 rows.
    read: u32,
    ended: bool,
    // The number of calls of `next` that failed; it stops at the greatest `u64`.
    faults: u64,
}

impl<S: Alter, P: Drop> Drop for Pages<'_, S, P> {
    ghost use Rattle.std.specs.Prelude.{◌≡◌};

    /// Ends the borrow of the store.
    fn drop(self)
        ensures { self.exit.0.now ≡ self.entry.store.now }
    {
        let Pages {
            store: _,
            alloc: _,
            account: _,
            symbol: _,
            lifo: _,
            page: _,
            read: _,
            ended: _,
            faults: _,
        } = self;
    }
}

fn is_valid_lot_page(rows: &[HoldingRow]) -> bool
    ensures { IsTrue result → (length rows.now ≤ page_size) × All (λ r. r.qty ≢ pos 0) rows.now }
{
    rows.len() <= PAGE_SIZE && rows.iter().all(|row| row.qty != 0)
}

// Fails also if the page has more than 4 rows or a lot without shares.
fn read_valid_lot_page<S: Alter>(
    store: &mut Store<S>,
    alloc: Global,
    account: Id,
    symbol: &Symbol,
    lifo: bool,
    skipped: u32,
) -> Result<Vec<HoldingRow>, CallFault>
    ensures read { ReadPost S.Store store.old store.new result (λ all t. map abstract_holding_row all.items
        ≡ page_after_skipped skipped (lot_rows_in_closing_order lifo account symbol.now t)) }
    ensures few { IfOk result (λ all. length all.items ≤ page_size) }
    ensures some_shares { IfOk result (λ all. All (λ r. r.qty ≢ pos 0) all.items) }
{
    let page = store.page_of_lots(alloc, account, symbol, lifo, skipped)?;
    if is_valid_lot_page(&page) {
        Ok(page)
    } else {
        Err(CallFault::Store)
    }
}

fn lot_of_holding_row(row: &HoldingRow) -> Lot
    ensures { result ≡ lot_of_typed_row row.now }
{
    Lot {
        trade: row.trade,
        price: row.price,
        qty: row.qty,
        stamp: row.stamp,
    }
}

impl<S: Alter> Store<S> {
    ghost use Rattle.std.specs.Prelude.{◌≡◌};
    ghost use Rattle.brk_lots.specs.Lots.{list_reversed_if_lifo};
    ghost use Rattle.brk_model.specs.Tables.{Tables};
    ghost use Rattle.brk_store_transactions.specs.Holds.{HoldsRows};
    ghost use Rattle.brk_store.specs.RemainingLots.{borrowed_store, number_of_rows_read};
    ghost use Rattle.brk_trade_books.specs.TradeReads.{lots_of_position};

    /// Returns a source of the lots of an account in a security, the newest first if `lifo`,
    /// otherwise the oldest first. It has read no row yet.
    ///
    /// A call of the source fails with `Memory` or `Store`, also if a page has more than 4 rows or
    /// a lot without shares. The remaining lots are then unchanged: the call may be repeated after
    /// `Memory`; after `Store`, drop the store.
    pub fn lot_pages<'a>(
        &'a mut self,
        alloc: Global,
        account: Id,
        symbol: &'a Symbol,
        lifo: bool,
    ) -> LotPages<'a, S>
        // The source borrows this store, which is unchanged.
        ensures same_reference { (borrowed_store result).ghost_name ≡ self.entry.ghost_name }
        ensures same { (borrowed_store result).now ≡ self.old }

        // All lots of the position remain; none was returned (`asked`), and no row was read.
        ensures remaining { (t : Tables) → HoldsRows S.Store self.old t
            → ⟦<Pages<'static, S, Page> as LotSource>⟧.remaining result (list_reversed_if_lifo lifo (lots_of_position t account symbol.now)) }
        ensures asked { ⟦<Pages<'static, S, Page> as LotSource>⟧.asked result ≡ 0 }
        ensures unread { number_of_rows_read result ≡ 0 }
    {
        let page = Page {
            rows: Vec::new(alloc),
            returned: 0,
        };
        Pages {
            store: self,
            alloc,
            account,
            symbol,
            lifo,
            page,
            read: 0,
            ended: false,
            faults: 0,
        }
    }
}

impl<S: Alter> Pages<'_, S, Page> {
    ghost use Rattle.std.specs.Prelude.{◌≡◌, ◌≢◌, ◌≤◌, ◌+◌, ◌-◌, ◌∷◌, IfErr, IfOk, IfSome, List, MatchOption, OnErr, [], length, map, pos};
    ghost use Rattle.std.specs.List.{All};
    ghost use Rattle.sqlite.specs.Held.{state};
    ghost use Rattle.sqlite.specs.State.{HasCleanDisk};
    ghost use Rattle.brk_lots.specs.declared.lot.Lot.{Lot as TheLot};
    ghost use Rattle.brk_ref.specs.Rows.{abstract_holding_row};
    ghost use Rattle.brk_model.specs.Tables.{Tables};
    ghost use Rattle.brk_store_transactions.specs.Holds.{HoldsRows};
    ghost use Rattle.brk_store_reads.specs.ReadSequences.{IsUnchangedByReads};
    ghost use Rattle.brk_store.specs.Pages.{lot_rows_in_closing_order};
    ghost use Rattle.brk_store.specs.RemainingLots.{AreRemainingLots, number_of_rows_read};
    ghost use Rattle.brk_tables_trading.specs.Pages.{page_after_skipped, page_size};

    /// Returns the number of rows that were read: at most 3 more than lots were returned
    /// (`asked`).
    pub fn rows_read(&self) -> u64
        ensures counted { result ≡ number_of_rows_read self.now }
        ensures least { ⟦<Pages<'static, S, Page> as LotSource>⟧.asked self.now ≤ result }
        ensures most { result ≤ ⟦<Pages<'static, S, Page> as LotSource>⟧.asked self.now + 3 }
    {
        u64::from(self.read)
    }

    fn read_next_page(&mut self) -> Result<Vec<HoldingRow>, CallFault>
        // The same store, unchanged if still open; of the source only `store` and `read` change.
        ensures same_reference { self.new.store.ghost_name ≡ self.old.store.ghost_name }
        ensures same { self.new ≡ record self.old { store = self.new.store; read = self.new.read } }
        ensures store { IsUnchangedByReads S.Store self.old.store.now self.new.store.now }

        // At `Ok` the rows of the next page, if the disk assumption holds.
        ensures rows { HasCleanDisk (state S.Store self.new.store.now) → IfOk result (λ page. (t : Tables) → HoldsRows S.Store self.old.store.now t →
            map abstract_holding_row page.items
            ≡ page_after_skipped self.old.read (lot_rows_in_closing_order self.old.lifo self.old.account self.old.symbol.now t)) }

        // The number of rows read grows by the rows of the page; at an error it is unchanged.
        ensures counted { IfOk result (λ page. self.new.read ≡ self.old.read + length page.items) }
        ensures count_at_error { OnErr result (self.new.read ≡ self.old.read) }

        // Also if the disk assumption fails: at most 4 rows, none without shares.
        ensures few { IfOk result (λ page. length page.items ≤ page_size) }
        ensures some_shares { IfOk result (λ page. All (λ r. r.qty ≢ pos 0) page.items) }
    {
        let page = read_valid_lot_page(
            self.store,
            self.alloc,
            self.account,
            self.symbol,
            self.lifo,
            self.read,
        )?;
        let Some(read) = self.read.checked_add(page.len() as u32) else {
            return Err(CallFault::Store);
        };
        self.read = read;
        Ok(page)
    }

    // Reads the next page and returns its first lot, or `None` if no lot remains.
    fn first_lot_of_next_page(&mut self) -> Result<Option<Lot>, CallFault>
        // All lots of the current page were returned.
        requires { length self.old.page.rows.items ≤ self.old.page.returned }

        // The same store, unchanged if it is still open.
        ensures same_reference { self.new.store.ghost_name ≡ self.old.store.ghost_name }
        ensures store { IsUnchangedByReads S.Store self.old.store.now self.new.store.now }

        // At `Ok` the next lot, or `None` if no lot remains; a returned lot is never of 0 shares.
        ensures first_lot { IfOk result (λ given. HasCleanDisk (state S.Store self.new.store.now) → (ls : List TheLot) → AreRemainingLots S.Store self.old ls →
            MatchOption given ((ls ≡ []) × AreRemainingLots S.Store self.new []) (λ lot. (more : List TheLot) × (ls ≡ lot ∷ more)
            × AreRemainingLots S.Store self.new more)) }
        ensures some_shares { IfOk result (λ given. IfSome given (λ lot. lot.qty ≢ pos 0)) }

        // At an error the remaining lots are unchanged.
        ensures remaining_at_error { IfErr result (λ _. (ls : List TheLot) → AreRemainingLots S.Store self.old ls → AreRemainingLots S.Store self.new ls) }

        // The number of lots returned (`asked`) grows by at most 1.
        ensures asked { self.new.read - (length self.new.page.rows.items - self.new.page.returned) ≤ self.old.read + 1 }

        // The count of faults is unchanged.
        ensures fault_count { self.new.faults ≡ self.old.faults }
    {
        if self.ended {
            return Ok(None);
        }
        let page = self.read_next_page()?;
        let first = match page.first() {
            Some(row) => Some(lot_of_holding_row(row)),
            None => None,
        };
        self.ended = page.len() < PAGE_SIZE;
        self.page = Page {
            rows: page,
            returned: 1,
        };
        Ok(first)
    }
}

impl<S: Alter> LotSource for Pages<'_, S, Page> {
    ghost use Rattle.std.specs.Prelude.{◌≡◌, ◌-◌, length, refl};
    ghost use Rattle.std.proofs.Common.{◌∙◌};
    ghost use Rattle.sqlite.specs.Held.{state};
    ghost use Rattle.sqlite.specs.State.{HasCleanDisk};
    ghost use Rattle.brk_model.specs.Run.{IsCallFault};
    ghost use Rattle.brk_store_reads.specs.ReadSequences.{IsUnchangedByReads, disk_was_clean_before_reads};
    ghost use Rattle.brk_store_reads.specs.ReadSequences.{empty_read_sequence_changes_nothing, joined_reads_change_nothing};
    ghost use Rattle.brk_store.specs.RemainingLots.{AreRemainingLots};

    ghost remaining = { λ p ls. AreRemainingLots S.Store p ls };

    ghost reads_faithfully = { λ p. HasCleanDisk (state S.Store p.store.now) };

    ghost leads = { λ p q. (q.store.ghost_name ≡ p.store.ghost_name) × IsUnchangedByReads S.Store p.store.now q.store.now };

    ghost asked = { λ p. p.read - (length p.page.rows.items - p.page.returned) };

    ghost faulted = { λ p. p.faults };

    ghost fails = { λ _ fault _. IsCallFault fault };

    /// Returns the next lot, if one remains. At an error the source counts it, and the remaining
    /// lots are unchanged.
    fn next(&mut self) -> Result<Option<Lot>, Fault> {
        match self.page.rows.get(self.page.returned) {
            Some(row) => {
                let lot = lot_of_holding_row(row);
                self.page.returned += 1;
                Ok(Some(lot))
            }
            None => match self.first_lot_of_next_page() {
                Ok(given) => Ok(given),
                Err(fault) => {
                    self.faults = self.faults.saturating_add(1);
                    Err(Fault::from(fault))
                }
            },
        }
    }

    ghost reflexive = { λ p. (refl, empty_read_sequence_changes_nothing p.store.now) };

    ghost transitive = { λ p q r a b. (b.0 ∙ a.0, joined_reads_change_nothing p.store.now q.store.now r.store.now a.1 b.1) };

    ghost faithful_before = { λ p q m. disk_was_clean_before_reads p.store.now q.store.now m.1 };
}
