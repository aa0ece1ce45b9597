//! The change with which a lot was opened, and the changes of the lot by trades other than the one
//! that opened it.

ghost use Rattle.std.specs.Prelude.{◌≡◌, ◌==◌, ◌++◌, ◌∷◌, [], IfOk, OnOk, filter, find, map, not, option_map};
ghost use Rattle.brk_ref.specs.Rows.{abstract_lot_change_row};
ghost use Rattle.brk_model_explain.specs.Holdings as model;
ghost use Rattle.brk_explain_reads.specs.HoldingParts.{AreLotChangesByCompletion, AreLotChangesByTradeId};
ghost use Rattle.brk_explain_rows.specs.Details.{abstract_priced_lot_change};
ghost use Rattle.brk_model.specs.Lists.{sort_by_key};
ghost use Rattle.brk_store_transactions.specs.Holds.{ReadPost};

use crate::ordering::sort_by_age;
use brk_explain_rows::PricedLotChange;
use brk_money::{CallFault, Id, Price, Stamp};
use brk_ref::LotChange;
use brk_store::Store;
use brk_store_required::require_trade;
use sqlite::Alter;
use std::alloc::{AllocError, Global};

/// The changes of a lot: its opening, and the changes by trades other than the one that opened it.
#[derive(Drop)]
pub struct OpeningAndLaterChanges {
    /// The change with which the lot was opened, or `None` if there is none.
    pub opening: Option<LotChange>,
    /// The changes by other trades.
    pub changes_by_others: Vec<PricedLotChange>,
}

// A lot has the id of the trade that opened it.
fn is_opening(change: &LotChange, lot: Id) -> bool
    ensures { result ≡ (change.now.trade == lot) }
{
    change.trade == lot
}

// All changes are of `lot`.
fn opening_of_lot(changes: &[LotChange], lot: Id) -> Option<LotChange>
    ensures { option_map abstract_lot_change_row result ≡ find (λ h. h.trade == lot) (map abstract_lot_change_row changes.now) }
{
    for change in changes {
        if is_opening(change, lot) {
            return Some(*change);
        }
    }
    None
}

fn push_later(later: &mut Vec<LotChange>, change: &LotChange, lot: Id) -> Result<(), AllocError>
    ensures { OnOk result (map abstract_lot_change_row later.new.items
        ≡ map abstract_lot_change_row later.old.items ++ filter (λ h. not (h.trade == lot)) (abstract_lot_change_row change.now ∷ [])) }
{
    if is_opening(change, lot) {
        return Ok(());
    }
    later.push(*change)?;
    Ok(())
}

// Returns the changes by trades other than the one that opened the lot, in the order of `changes`.
fn later_changes(
    alloc: Global,
    changes: &[LotChange],
    lot: Id,
) -> Result<Vec<LotChange>, AllocError>
    ensures { IfOk result (λ later. map abstract_lot_change_row later.items
        ≡ filter (λ h. not (h.trade == lot)) (map abstract_lot_change_row changes.now)) }
{
    let mut later = Vec::new(alloc);
    for change in changes {
        push_later(&mut later, change, lot)?;
    }
    Ok(later)
}

fn as_priced_change(change: &LotChange, stamp: Stamp, price: Price) -> PricedLotChange
    ensures { result ≡ record { trade = change.now.trade; stamp = stamp; price = price; before = change.now.before; after = change.now.after } }
{
    PricedLotChange {
        trade: change.trade,
        stamp,
        price,
        before: change.before,
        after: change.after,
    }
}

// Fails with `Store` also if the trade of the change does not exist or has no price.
fn read_priced_change<S: Alter>(
    store: &mut Store<S>,
    change: &LotChange,
) -> Result<PricedLotChange, CallFault>
    ensures { ReadPost S.Store store.old store.new result (λ priced_change t. abstract_priced_lot_change priced_change
        ≡ model.recorded_lot_change t (abstract_lot_change_row change.now)) }
{
    let trade = require_trade(store, change.trade)?;
    let Some(price) = trade.price else {
        return Err(CallFault::Store);
    };
    Ok(as_priced_change(change, trade.stamp, price))
}

fn read_changes_in_id_order<S: Alter>(
    alloc: Global,
    store: &mut Store<S>,
    lot: Id,
) -> Result<OpeningAndLaterChanges, CallFault>
    ensures { ReadPost S.Store store.old store.new result (λ all t. AreLotChangesByTradeId t lot all) }
{
    let changes = store.lot_changes_of_lot(alloc, lot)?;
    let opening = opening_of_lot(&changes, lot);
    let later = later_changes(alloc, &changes, lot)?;
    let mut changes_by_others = Vec::new(alloc);
    for change in &later {
        let priced_change = read_priced_change(store, change)?;
        changes_by_others.push(priced_change)?;
    }
    Ok(OpeningAndLaterChanges {
        opening,
        changes_by_others,
    })
}

fn sort_changes(
    alloc: Global,
    changes_by_others: Vec<PricedLotChange>,
) -> Result<Vec<PricedLotChange>, AllocError>
    ensures { IfOk result (λ all. map abstract_priced_lot_change all.items
        ≡ sort_by_key (λ c. c.stamp) (map abstract_priced_lot_change changes_by_others.items)) }
{
    let sorted = sort_by_age(alloc, changes_by_others)?;
    Ok(sorted)
}

// Returns the changes by other trades in the order of their completion.
pub(crate) fn read_changes_of_lot<S: Alter>(
    alloc: Global,
    store: &mut Store<S>,
    lot: Id,
) -> Result<OpeningAndLaterChanges, CallFault>
    ensures { ReadPost S.Store store.old store.new result (λ all t. AreLotChangesByCompletion t lot all) }
{
    let all = read_changes_in_id_order(alloc, store, lot)?;
    let changes_by_others = sort_changes(alloc, all.changes_by_others)?;
    Ok(OpeningAndLaterChanges {
        opening: all.opening,
        changes_by_others,
    })
}
