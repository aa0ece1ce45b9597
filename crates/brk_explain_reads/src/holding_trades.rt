//! The completed trades of a holding, and the lots that they opened.

ghost use Rattle.std.specs.Prelude.{◌≡◌, ◌++◌, ◌∷◌, [], OnOk, map, option_map, option_to_list};
ghost use Rattle.brk_explain_reads.specs.HoldingParts.{AreTradesAndLotsOfHolding, IsTradeWithLot, lot_opened_by_trade};
ghost use Rattle.brk_explain_rows.specs.Details.{abstract_lot_details};
ghost use Rattle.brk_store_transactions.specs.Holds.{ReadPost};

use crate::lot_changes::{OpeningAndLaterChanges, read_changes_of_lot};
use brk_explain_rows::{LotDetails, PricedLotChange};
use brk_money::{CallFault, Id};
use brk_ref::{LotChange, Symbol, TradeRow};
use brk_store::Store;
use brk_store_required::require_trade;
use sqlite::Alter;
use std::alloc::{AllocError, Global};

/// A trade, and the lot that it opened.
#[derive(Drop)]
pub struct TradeAndLot {
    pub trade: TradeRow,
    /// The lot, or `None` if the trade opened none.
    pub lot: Option<LotDetails>,
}

/// The completed trades of a holding, and the lots that they opened.
#[derive(Drop)]
pub struct TradesAndLots {
    /// The trades, in the order of completion.
    pub done: Vec<TradeRow>,
    /// The lots, in the order of opening.
    pub lots: Vec<LotDetails>,
}

fn lot_of_opening(trade: TradeRow, opening: &LotChange, changes: Vec<PricedLotChange>) -> LotDetails
    ensures { result ≡ record { trade = trade; opened = opening.now.after; changes = changes } }
{
    LotDetails {
        trade,
        opened: opening.after,
        changes,
    }
}

fn read_opened_lot<S: Alter>(
    alloc: Global,
    store: &mut Store<S>,
    trade: Id,
) -> Result<Option<LotDetails>, CallFault>
    ensures { ReadPost S.Store store.old store.new result (λ lot t. option_map abstract_lot_details lot ≡ lot_opened_by_trade t trade) }
{
    let all = read_changes_of_lot(alloc, store, trade)?;
    let OpeningAndLaterChanges {
        opening,
        changes_by_others,
    } = all;
    let Some(first) = opening else {
        return Ok(None);
    };
    let row = require_trade(store, trade)?;
    Ok(Some(lot_of_opening(row, &first, changes_by_others)))
}

fn read_trade_with_lot<S: Alter>(
    alloc: Global,
    store: &mut Store<S>,
    trade: Id,
) -> Result<TradeAndLot, CallFault>
    ensures { ReadPost S.Store store.old store.new result (λ one t. IsTradeWithLot t trade one) }
{
    let row = require_trade(store, trade)?;
    let lot = read_opened_lot(alloc, store, trade)?;
    Ok(TradeAndLot { trade: row, lot })
}

fn push_opened_lot(lots: &mut Vec<LotDetails>, lot: Option<LotDetails>) -> Result<(), AllocError>
    ensures { OnOk result (map abstract_lot_details lots.new.items
        ≡ map abstract_lot_details lots.old.items ++ option_to_list (option_map abstract_lot_details lot)) }
{
    if let Some(lot) = lot {
        lots.push(lot)?;
    }
    Ok(())
}

// Appends also the lot of the trade, if it has one. After an error the lot may be appended without
// the trade.
fn push_trade(held: &mut TradesAndLots, one: TradeAndLot) -> Result<(), AllocError>
    ensures done { OnOk result (held.new.done.items ≡ held.old.done.items ++ one.trade ∷ []) }
    ensures lots { OnOk result (map abstract_lot_details held.new.lots.items
        ≡ map abstract_lot_details held.old.lots.items ++ option_to_list (option_map abstract_lot_details one.lot)) }
{
    let TradeAndLot { trade, lot } = one;
    push_opened_lot(&mut held.lots, lot)?;
    held.done.push(trade)?;
    Ok(())
}

// Reads also the lots that the trades opened.
pub(crate) fn read_holding_trades<S: Alter>(
    alloc: Global,
    store: &mut Store<S>,
    account: Id,
    symbol: &Symbol,
) -> Result<TradesAndLots, CallFault>
    ensures { ReadPost S.Store store.old store.new result (λ held t. AreTradesAndLotsOfHolding t account symbol.now held) }
{
    let ids = store.completed_trade_ids(alloc, account, symbol)?;
    let mut held = TradesAndLots {
        done: Vec::new(alloc),
        lots: Vec::new(alloc),
    };
    for id in &ids {
        let one = read_trade_with_lot(alloc, store, *id)?;
        push_trade(&mut held, one)?;
    }
    Ok(held)
}
