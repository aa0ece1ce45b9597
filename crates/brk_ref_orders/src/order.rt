ghost use Rattle.std.specs.Prelude.{◌≡◌, IfOk, Err, Some, option_map};
ghost use Rattle.std.specs.Option.{ok_or};
ghost use Rattle.brk_model.specs.Forms as forms;
ghost use Rattle.brk_model.specs.Forms.{read_word_as_boolean, read_price};
ghost use Rattle.brk_model.specs.Parse.{read_executor, read_order};
ghost use Rattle.brk_money.specs.declared.refusal.Refusal.TheVariants.{BadText};
ghost use Rattle.brk_ref_orders.specs.Records.{abstract_order, texts_of_order_fields};
ghost use Rattle.brk_ref.specs.Records.{abstract_executor};
ghost use Rattle.brk_ref.specs.Fields.{ParsesAs, texts_of_fields};

use brk_money::{Id, OrderType, Planned, Price, Qty, Refusal, TradeType};
use brk_ref::{Executor, Name, Symbol, TaxId, parse_id, parse_price, parse_qty, parse_type};
use std::alloc::{AllocError, Global};

/// A requested order (Trade-Order).
#[derive(Drop)]
pub struct Order {
    pub account: Id,
    pub order_type: OrderType,
    pub symbol: Symbol,
    pub qty: Qty,
    /// True if the order creates a cash trade, false if it creates a margin trade.
    pub is_cash: bool,
    /// True if the trade closes the newest lots first, false if it closes the oldest first.
    pub is_lifo: bool,
    pub executor: Executor,
}

// The bytes of the ten fields of an order, before they are parsed.
#[derive(Clone, Copy)]
struct UnparsedOrder<'a> {
    account: &'a [u8],
    kind: &'a [u8],
    symbol: &'a [u8],
    qty: &'a [u8],
    price: &'a [u8],
    cash: &'a [u8],
    end: &'a [u8],
    first_name: &'a [u8],
    last_name: &'a [u8],
    tax_id: &'a [u8],
}

fn parse_flag(yes: &str, no: &str, bytes: &[u8]) -> Option<bool>
    ensures { ok_or result BadText ≡ read_word_as_boolean yes.now no.now bytes.now }
{
    if bytes == yes.as_bytes() {
        return Some(true);
    }
    if bytes == no.as_bytes() {
        return Some(false);
    }
    None
}

fn parse_executor(
    alloc: Global,
    first_name: &[u8],
    last_name: &[u8],
    tax_id: &[u8],
) -> Result<Option<Executor>, AllocError>
    ensures read { IfOk result (λ executor. ok_or (option_map abstract_executor executor) BadText ≡ read_executor first_name.now last_name.now tax_id.now) }
{
    let Some(first_name) = Name::parse(alloc, first_name)? else {
        return Ok(None);
    };
    let Some(last_name) = Name::parse(alloc, last_name)? else {
        return Ok(None);
    };
    let Some(tax_id) = TaxId::parse(alloc, tax_id)? else {
        return Ok(None);
    };
    Ok(Some(Executor {
        first_name,
        last_name,
        tax_id,
    }))
}

// Refuses a price with `BadPrice`.
fn market_type_without_price(order_type: OrderType, price: &[u8]) -> Result<OrderType, Refusal>
    ensures { result ≡ forms.market_type_if_price_is_empty order_type price.now }
{
    if price.is_empty() {
        Ok(order_type)
    } else {
        Err(Refusal::BadPrice)
    }
}

fn checked_price(price: &[u8]) -> Result<Price, Refusal>
    ensures { result ≡ read_price price.now }
{
    parse_price(price).ok_or(Refusal::BadPrice)
}

// The price is checked first, so that `BadPrice` comes before `BadType`.
fn type_refusal(price: &[u8]) -> Refusal
    ensures { forms.refusal_of_unknown_type_by_price_text price.now ≡ Err result }
{
    if price.is_empty() {
        return Refusal::BadType;
    }
    match checked_price(price) {
        Ok(_) => Refusal::BadType,
        Err(refusal) => refusal,
    }
}

// `kind` is `None` for an unknown type.
fn order_type_with_price(kind: Option<TradeType>, price: &[u8]) -> Result<OrderType, Refusal>
    ensures { result ≡ forms.order_type_with_price kind price.now }
{
    match kind {
        Some(TradeType::MarketBuy) => market_type_without_price(OrderType::MarketBuy, price),
        Some(TradeType::MarketSell) => market_type_without_price(OrderType::MarketSell, price),
        Some(TradeType::StopLoss) => Ok(OrderType::StopLoss(checked_price(price)?)),
        Some(TradeType::LimitSell) => Ok(OrderType::LimitSell(checked_price(price)?)),
        Some(TradeType::LimitBuy) => Ok(OrderType::LimitBuy(checked_price(price)?)),
        None => Err(type_refusal(price)),
    }
}

fn parse_order_fields(alloc: Global, told: UnparsedOrder<'_>) -> Planned<Order, AllocError>
    ensures { IfOk result (λ read. ParsesAs abstract_order read (read_order (texts_of_order_fields told.entry))) }
{
    let Some(account) = parse_id(told.account) else {
        return Ok(Err(Refusal::BadText));
    };
    let Some(symbol) = Symbol::parse(alloc, told.symbol)? else {
        return Ok(Err(Refusal::BadText));
    };
    let Some(is_cash) = parse_flag("cash", "margin", told.cash) else {
        return Ok(Err(Refusal::BadText));
    };
    let Some(is_lifo) = parse_flag("lifo", "fifo", told.end) else {
        return Ok(Err(Refusal::BadText));
    };
    let Some(executor) = parse_executor(alloc, told.first_name, told.last_name, told.tax_id)? else {
        return Ok(Err(Refusal::BadText));
    };
    let Some(qty) = parse_qty(told.qty) else {
        return Ok(Err(Refusal::BadQty));
    };
    let order_type = match order_type_with_price(parse_type(told.kind), told.price) {
        Ok(order_type) => order_type,
        Err(refusal) => return Ok(Err(refusal)),
    };
    Ok(Ok(Order {
        account,
        order_type,
        symbol,
        qty,
        is_cash,
        is_lifo,
        executor,
    }))
}

/// Parses the fields ACCOUNT, TYPE, SYMBOL, QTY, PRICE, CASH, END, FIRST, LAST and TAXID. PRICE
/// must be empty for a market type and a price for the other types.
///
/// Refuses with the first of these that applies: `BadText` (18), `BadQty` (8), `BadPrice` (9), also
/// if PRICE does not fit TYPE, and `BadType` (7).
pub fn parse_trade_order(alloc: Global, fields: &[&[u8]]) -> Planned<Order, AllocError>
    ensures { IfOk result (λ read. ParsesAs abstract_order read (read_order (texts_of_fields fields.now))) }
{
    let [
        account,
        kind,
        symbol,
        qty,
        price,
        cash,
        end,
        first_name,
        last_name,
        tax_id,
    ] = fields
    else {
        return Ok(Err(Refusal::BadText));
    };
    let told = UnparsedOrder {
        account,
        kind,
        symbol,
        qty,
        price,
        cash,
        end,
        first_name,
        last_name,
        tax_id,
    };
    parse_order_fields(alloc, told)
}
