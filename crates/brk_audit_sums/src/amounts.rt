//! The settlement amounts of completed trades, in cents.

ghost use Rattle.std.specs.Prelude.{◌≡◌, ◌*◌, ◌≤◌, pos, ◌-ℤ◌, if◌then◌else◌, unwrap_or};
ghost use Rattle.brk_model.specs.Base.{is_withholding_status};
ghost use Rattle.brk_model.specs.Derived.{signed_proceeds};
ghost use Rattle.brk_model.specs.Limits.{greatest_amount, greatest_price, greatest_qty};
ghost use Rattle.brk_ref.specs.Rows.{abstract_trade_row};
ghost use Rattle.brk_audit_sums.specs.Settling.{settlement_amount_at_tax_status};

use brk_money::{Amount, Price, Side, TaxStatus};
use brk_ref::TradeRow;

fn tax_withheld(tax: Amount, tax_status: TaxStatus) -> u64
    ensures value { result ≡ (if is_withholding_status tax_status then tax else 0) }
    ensures high { result ≤ greatest_amount }
{
    match tax_status {
        TaxStatus::Withheld => tax.get(),
        TaxStatus::Untaxed | TaxStatus::Reported => 0,
    }
}

fn price_or_zero(price: Option<Price>) -> u64
    ensures value { result ≡ unwrap_or price 0 }
    ensures high { result ≤ greatest_price }
{
    match price {
        Some(price) => u64::from(price.get()),
        None => 0,
    }
}

fn value_of_shares(qty: u32, cents: u64) -> u64
    requires qty { qty ≤ greatest_qty }
    requires cents { cents ≤ greatest_price }
    ensures value { result ≡ qty * cents }
    ensures high { result ≤ greatest_qty * greatest_price }
{
    u64::from(qty) * cents
}

fn net_value(side: Side, value: u64, taken_off: u64) -> i64
    requires value { value ≤ greatest_qty * greatest_price }
    requires taken_off { taken_off ≤ 3 * greatest_amount }
    ensures { result ≡ signed_proceeds side value -ℤ pos taken_off }
{
    let brought = match side {
        Side::Buy => -(value as i64),
        Side::Sell => value as i64,
    };
    brought - taken_off as i64
}

/// Returns the settlement amount of a completed trade, below 0 if the account pays. Tax is deducted
/// only at `Withheld`; a missing price counts as 0.
pub fn settlement_amount_of_trade(trade: &TradeRow, tax_status: TaxStatus) -> i64
    ensures { result ≡ settlement_amount_at_tax_status tax_status (abstract_trade_row trade.now) }
{
    let value = value_of_shares(trade.qty.get(), price_or_zero(trade.price));
    let charge = u64::from(trade.charge.get());
    let taken_off = charge + trade.commission.get() + tax_withheld(trade.tax, tax_status);
    net_value(trade.kind.side(), value, taken_off)
}
