ghost use Rattle.std.specs.Prelude.{◌≡◌};
ghost use Rattle.brk_money.specs.Kinds.{is_same_trade_status};
ghost use Rattle.brk_money.specs.declared.status.Status.TheVariants.{Submitted};

use crate::charge_amount::ChargeAmount;
use crate::symbol::Symbol;
use brk_money::{Amount, Id, Price, Qty, Stamp, Status, TradeType};

/// A trade in its current status (a row of TRADE). It has a price once it is completed. Its stamp
/// equals that of its current status.
#[derive(Drop)]
pub struct TradeRow {
    pub id: Id,
    pub stamp: Stamp,
    pub status: Status,
    pub kind: TradeType,
    pub is_cash: bool,
    pub symbol: Symbol,
    pub qty: Qty,
    pub bid: Price,
    pub account: Id,
    pub executor: String,
    pub price: Option<Price>,
    pub charge: ChargeAmount,
    pub commission: Amount,
    pub tax: Amount,
    pub is_lifo: bool,
}

pub fn is_submitted(trade: &TradeRow) -> bool
    ensures { result ≡ is_same_trade_status trade.now.status Submitted }
{
    trade.status == Status::Submitted
}
