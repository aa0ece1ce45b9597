//! The plan of an order, and its estimate as a reply.

ghost use Rattle.std.specs.Prelude.{◌≡◌, ◌⊎◌, ◌++◌, ◌∷◌, [], ℕ, List, drop, IfOk, IfErr, OnErr, MatchResult, MatchOption, Some, None, false, string_bytes};
ghost use Rattle.brk_lots.specs.declared.lot.Lot.{Lot};
ghost use Rattle.brk_lots.specs.Against.{is_trade_closing_lots};
ghost use Rattle.brk_lots.specs.Sources.{AreLotsOfFaithfulSource};
ghost use Rattle.brk_model.specs.Orders as model;
ghost use Rattle.brk_model.specs.Tests.{first_refusal};
ghost use Rattle.brk_money.specs.Moments as moments;
ghost use Rattle.brk_money.specs.declared.fault.Fault.{Fault};
ghost use Rattle.brk_ref.specs.Records.{abstract_executor};
ghost use Rattle.brk_money.specs.declared.refusal.Limit.TheVariants as limit;
ghost use Rattle.brk_money.specs.declared.refusal.Refusal.TheVariants.{Range};
ghost use Rattle.brk_trade.specs.Estimates.{OrderReadsAtMostOneLotMore, commission_from_terms};
ghost use Rattle.brk_trade.specs.Orders as spec;
ghost use Rattle.brk_trade_plans.specs.Reference.{later_stamp_check};
ghost use Rattle.brk_ref.specs.Rows.{abstract_trade_row};
ghost use Rattle.brk_trade.specs.Orders.{AreOrderChanges, IsOrderPlan, RepliesWithEstimate};
ghost use Rattle.brk_trade.specs.Orders.{IsCheckedPlacement, order_checks, terms_of_order};
ghost use Rattle.brk_trade.specs.Orders.{free_trade_id_check};

use crate::estimate::{Terms, estimate_order};
use brk_lots::LotSource;
use brk_money::{
    Fault, Id, Limit, Planned, Price, Rate, Refusal, Stamp, Status, TaxRate, TaxStatus, TradeType,
    Wide, stamp_after,
};
use brk_ref::{ChargeAmount, Executor, HistoryRow, RequestRow, Symbol, TradeRow};
use brk_ref_orders::Order;
use brk_trade_plans::{Ordered, Plan, Reply};
use brk_trade_rows::{Amount, Change};
use std::alloc::{AllocError, Global};

/// The facts of an order's account that decide on the order.
#[derive(Clone, Copy, PartialEq, Eq)]
pub struct OrderAccount {
    pub broker: Id,
    pub tax_status: TaxStatus,
}

/// The facts in the tables that decide on an order. If a check of the order fails, the facts that
/// are needed only after it may have any value.
#[derive(Clone, Copy, PartialEq, Eq)]
pub struct OrderPlanFacts {
    /// The account, or `None` if it does not exist.
    pub account: Option<OrderAccount>,
    /// The last price of its security in cents, or `None` if the security does not exist.
    pub last_price: Option<Price>,
    /// True if its executor is the account's customer or has a permission of the account.
    pub is_permitted: bool,
    /// The charge of its type and the customer's tier, or `None` if there is none.
    pub charge: Option<ChargeAmount>,
    /// The commission rate of the band of its quantity, in hundredths of a percent, or `None` if
    /// there is none.
    pub rate: Option<Rate>,
    /// The sum of the tax rates that the account's customer pays, in hundred-thousandths.
    pub rates: TaxRate,
    /// The balance of the account plus the market value of its holdings, in cents.
    pub assets: Wide,
    /// The number of shares of its security that the account holds in all, negative if sold short,
    /// or `None` if there is no row (HS_QTY).
    pub summary: Option<i64>,
    /// The greatest id of a trade, which is the number of trades, or `None` if there are no trades.
    pub last_trade: Option<Id>,
}

// The terms of an order that passes its checks, and the broker of its account.
#[derive(Clone, Copy)]
struct Placement {
    terms: Terms,
    broker: Id,
}

// The trade of an order that passes its checks.
#[derive(Clone, Copy)]
struct NewTrade {
    id: Id,
    stamp: Stamp,
    placement: Placement,
}

fn bid_price_of_order(order: &Order, last: Price) -> Price
    ensures { result ≡ spec.requested_or_last_price order.now last }
{
    order.order_type.price().unwrap_or(last)
}

// Returns the terms of an order that passes the checks that an estimate makes too, or their first
// refusal.
fn checked_placement(order: &Order, found: &OrderPlanFacts) -> Result<Placement, Refusal>
    ensures { MatchResult result
        (IsCheckedPlacement order.now found.now)
        (λ refusal. first_refusal (order_checks found.now) ≡ Some refusal) }
{
    let Some(account) = found.account else {
        return Err(Refusal::NoAccount);
    };
    let Some(last) = found.last_price else {
        return Err(Refusal::NoSecurity);
    };
    if !found.is_permitted {
        return Err(Refusal::NotPermitted);
    }
    let Some(charge) = found.charge else {
        return Err(Refusal::NoCharge);
    };
    let Some(rate) = found.rate else {
        return Err(Refusal::NoRate);
    };
    Ok(Placement {
        terms: Terms {
            side: order.order_type.kind().side(),
            qty: order.qty,
            price: bid_price_of_order(order, last),
            tax_status: account.tax_status,
            rates: found.rates,
            rate,
            charge,
            assets: found.assets,
            held: found.summary.unwrap_or(0),
        },
        broker: account.broker,
    })
}

/// Replies with the estimate of an order (`Reply::Estimated`), or refuses it (Trade-Order). `source`
/// returns the lots of its account and symbol in the sequence in which the order closes them. The
/// estimate is specified only if they form a position whose quantities sum to the shares held, and
/// only under the disk assumption.
///
/// Refuses with the first that applies of `NoAccount`, `NoSecurity`, `NotPermitted` (the executor
/// is neither the account's customer nor has a permission of the account), `NoCharge` and `NoRate`,
/// and then reads no lot. Fails only with a fault of the source.
pub fn plan_estimate<L: LotSource>(
    order: &Order,
    found: &OrderPlanFacts,
    source: &mut L,
) -> Planned<Reply>
    ensures leads { L.leads source.old source.new }
    ensures planned { IfOk result (λ planned. MatchResult planned
        (RepliesWithEstimate order.now found.now (AreLotsOfFaithfulSource (L.reads_faithfully source.new) (L.remaining source.old)))
        (λ refusal. first_refusal (order_checks found.now) ≡ Some refusal)) }
    ensures refused { IfOk result (λ planned. OnErr planned (source.new ≡ source.old)) }
    // It reads at most one lot more than the order would close or reduce, also if it fails.
    ensures asked { OrderReadsAtMostOneLotMore (terms_of_order order.now found.now)
        (AreLotsOfFaithfulSource (L.reads_faithfully source.new) (L.remaining source.old)) (L.asked source.old) (L.asked source.new) }
    // It reads no lot if the account holds no shares that the order would close.
    ensures reads_no_lot { is_trade_closing_lots (terms_of_order order.now found.now).side (terms_of_order order.now found.now).held ≡ false
        → source.new ≡ source.old }
    // A fault of the source is never ignored, and is returned unchanged.
    ensures faulted { IfOk result (λ planned. L.faulted source.new ≡ L.faulted source.old) }
    ensures fault { IfErr result (λ fault. (before : L) × L.fails before fault source.new) }
    // Under the disk assumption, the lots that it did not take remain in the source.
    ensures rest { (ls : List Lot) → AreLotsOfFaithfulSource (L.reads_faithfully source.new) (L.remaining source.old) ls
        → (n : ℕ) × L.remaining source.new (drop n ls) }
{
    let placement = match checked_placement(order, found) {
        Ok(placement) => placement,
        Err(refusal) => return Ok(Err(refusal)),
    };
    let estimate = estimate_order(source, &placement.terms)?;
    Ok(Ok(Reply::Estimated(estimate)))
}

fn free_trade_id(last: Option<Id>) -> Option<Id>
    ensures { MatchOption result
        (first_refusal (free_trade_id_check last ∷ []) ≡ Some (Range limit.Trades))
        (λ trade. (first_refusal (free_trade_id_check last ∷ []) ≡ None) × (trade ≡ spec.next_trade_id last)) }
{
    match last {
        Some(last) => Id::new(last.get() + 1),
        None => Id::new(1),
    }
}

// Returns the placement of an order that passes all checks, with the id and the stamp of its trade,
// or the first refusal.
fn checked_trade(
    order: &Order,
    found: &OrderPlanFacts,
    last: Option<Stamp>,
    now: Stamp,
) -> Result<NewTrade, Refusal>
    ensures { MatchResult result
        (λ trade. (first_refusal (order_checks found.now ++ free_trade_id_check found.now.last_trade ∷ later_stamp_check last now ∷ []) ≡ None)
        × IsCheckedPlacement order.now found.now trade.placement × (trade.id ≡ spec.next_trade_id found.now.last_trade)
        × (moments.stamp_after last now ≡ Some trade.stamp))
        (λ refusal. first_refusal (order_checks found.now ++ free_trade_id_check found.now.last_trade ∷ later_stamp_check last now ∷ []) ≡ Some refusal) }
{
    let placement = checked_placement(order, found)?;
    let Some(id) = free_trade_id(found.last_trade) else {
        return Err(Refusal::Range(Limit::Trades));
    };
    let Some(stamp) = stamp_after(last, now) else {
        return Err(Refusal::ClockEnd);
    };
    Ok(NewTrade {
        id,
        stamp,
        placement,
    })
}

fn first_status(kind: TradeType) -> Status
    ensures { result ≡ model.first_status kind }
{
    if kind.is_market() {
        Status::Submitted
    } else {
        Status::Pending
    }
}

fn executor_name(alloc: Global, executor: &Executor) -> Result<String, AllocError>
    ensures { IfOk result (λ name. string_bytes name ≡ model.executor_name (abstract_executor executor.now)) }
{
    let mut name = String::from_str(alloc, executor.first_name.as_str())?;
    name.push_str(" ")?;
    name.push_str(executor.last_name.as_str())?;
    Ok(name)
}

// Takes the two texts of the row as values, so that it cannot fail.
fn row_with_texts(
    order: &Order,
    terms: &Terms,
    commission: Amount,
    trade: Id,
    stamp: Stamp,
    symbol: Symbol,
    executor: String,
) -> TradeRow
    requires { commission ≡ commission_from_terms terms.now }
    ensures { abstract_trade_row result ≡ spec.trade_row_with_texts order.now terms.now trade stamp symbol (string_bytes executor) }
{
    TradeRow {
        id: trade,
        stamp,
        status: first_status(order.order_type.kind()),
        kind: order.order_type.kind(),
        is_cash: order.is_cash,
        symbol,
        qty: order.qty,
        bid: terms.price,
        account: order.account,
        executor,
        price: None,
        charge: terms.charge,
        commission,
        tax: Amount::new(0).unwrap(),
        is_lifo: order.is_lifo,
    }
}

fn new_trade_row(
    alloc: Global,
    order: &Order,
    terms: &Terms,
    commission: Amount,
    trade: Id,
    stamp: Stamp,
) -> Result<TradeRow, AllocError>
    requires { commission ≡ commission_from_terms terms.now }
    ensures { IfOk result (λ row. abstract_trade_row row ≡ spec.trade_row_of_order order.now terms.now trade stamp) }
{
    let symbol = order.symbol.clone()?;
    let executor = executor_name(alloc, &order.executor)?;
    Ok(row_with_texts(order, terms, commission, trade, stamp, symbol, executor))
}

fn new_request_row(
    order: &Order,
    placement: &Placement,
    trade: Id,
) -> Result<Option<RequestRow>, AllocError>
    ensures { IfOk result (λ request. request ≡ spec.request_row_of_order order.now placement.now.terms placement.now.broker trade) }
{
    if order.order_type.kind().is_market() {
        return Ok(None);
    }
    Ok(Some(RequestRow {
        trade,
        kind: order.order_type.kind(),
        symbol: order.symbol.clone()?,
        qty: order.qty,
        bid: placement.terms.price,
        broker: placement.broker,
    }))
}

fn new_trade_changes(
    alloc: Global,
    row: TradeRow,
    request: Option<RequestRow>,
) -> Result<Vec<Change>, AllocError>
    ensures { IfOk result (λ changes. changes.items ≡ spec.row_changes_of_order row request) }
{
    let stamp = row.stamp;
    let history = HistoryRow {
        trade: row.id,
        status: row.status,
        stamp,
    };
    let mut changes = Vec::new(alloc);
    changes.push(Change::AddTrade(row))?;
    changes.push(Change::AddHistory(history))?;
    if let Some(request) = request {
        changes.push(Change::AddRequest(request))?;
    }
    changes.push(Change::SetLastStamp(stamp))?;
    Ok(changes)
}

fn order_changes(
    alloc: Global,
    order: &Order,
    trade: &NewTrade,
    commission: Amount,
) -> Result<Vec<Change>, AllocError>
    requires { commission ≡ commission_from_terms trade.now.placement.terms }
    ensures { IfOk result (λ changes. AreOrderChanges order.now trade.now.placement.terms trade.now.placement.broker trade.now.id trade.now.stamp
        changes.items) }
{
    let placement = &trade.placement;
    let terms = &placement.terms;
    let row = new_trade_row(alloc, order, terms, commission, trade.id, trade.stamp)?;
    let request = new_request_row(order, placement, trade.id)?;
    let changes = new_trade_changes(alloc, row, request)?;
    Ok(changes)
}

/// Plans an order (Trade-Order): the trade in its first status, its history row and, if it is
/// pending, its request. The reply has the estimate, specified as that of `plan_estimate`. `source`
/// returns the lots of its account and symbol in the sequence in which the order closes them,
/// `last` is the stamp of the last accepted command, if any, and `now` the clock reading.
///
/// Refuses with the first that applies of `NoAccount`, `NoSecurity`, `NotPermitted`, `NoCharge`,
/// `NoRate` (each as `plan_estimate` does), `Range(Trades)` (no free id exists) and `ClockEnd` (no
/// stamp later than `last` exists), and then reads no lot. Fails with `Memory` or a fault of the
/// source.
pub fn plan_order<L: LotSource>(
    alloc: Global,
    order: &Order,
    found: &OrderPlanFacts,
    source: &mut L,
    last: Option<Stamp>,
    now: Stamp,
) -> Planned<Plan>
    ensures leads { L.leads source.old source.new }
    ensures planned { IfOk result (λ planned. MatchResult planned
        (IsOrderPlan order.now found.now (AreLotsOfFaithfulSource (L.reads_faithfully source.new) (L.remaining source.old)) last now)
        (λ refusal. first_refusal (order_checks found.now ++ free_trade_id_check found.now.last_trade ∷ later_stamp_check last now ∷ []) ≡ Some refusal)) }
    ensures refused { IfOk result (λ planned. OnErr planned (source.new ≡ source.old)) }
    // It reads at most one lot more than the order would close or reduce, also if it fails.
    ensures asked { OrderReadsAtMostOneLotMore (terms_of_order order.now found.now)
        (AreLotsOfFaithfulSource (L.reads_faithfully source.new) (L.remaining source.old)) (L.asked source.old) (L.asked source.new) }
    // It reads no lot if the account holds no shares that the order would close.
    ensures reads_no_lot { is_trade_closing_lots (terms_of_order order.now found.now).side (terms_of_order order.now found.now).held ≡ false
        → source.new ≡ source.old }
    // A fault of the source is never ignored, and is returned unchanged.
    ensures faulted { IfOk result (λ planned. L.faulted source.new ≡ L.faulted source.old) }
    ensures fault { IfErr result (λ fault. (fault ≡ Fault.Memory) ⊎ ((before : L) × L.fails before fault source.new)) }
    // Under the disk assumption, the lots that it did not take remain in the source.
    ensures rest { (ls : List Lot) → AreLotsOfFaithfulSource (L.reads_faithfully source.new) (L.remaining source.old) ls
        → (n : ℕ) × L.remaining source.new (drop n ls) }
{
    let trade = match checked_trade(order, found, last, now) {
        Ok(trade) => trade,
        Err(refusal) => return Ok(Err(refusal)),
    };
    let estimate = estimate_order(source, &trade.placement.terms)?;
    let changes = order_changes(alloc, order, &trade, estimate.commission)?;
    let reply = Reply::Ordered(Ordered {
        stamp: trade.stamp,
        trade: trade.id,
        status: first_status(order.order_type.kind()),
        estimate,
    });
    Ok(Ok(Plan { changes, reply }))
}
