//! The rows of orders, feeds, cancels and results, as they are stored under idempotency keys.
#![tactic(auto, unfolding(brk_model::specs::Rows::row_fields))]

ghost use Rattle.std.specs.Prelude.{◌≡◌, ◌∷◌, ◌++◌, [], IfOk, OnOk, codes, drop, string_bytes, take};
ghost use Rattle.std.specs.List.{join_with_byte};
ghost use Rattle.std.specs.Option.{option_map_or};
ghost use Rattle.brk_money.specs.OrderTypes.{price_of_order_type};
ghost use Rattle.brk_model.specs.Commands.{CancelTrade, FeedTicks, PlaceOrder};
ghost use Rattle.brk_model.specs.Rows as model;
ghost use Rattle.brk_ref_orders.specs.Records.{abstract_order, completion_command, abstract_tick, abstract_ticks};
ghost use Rattle.brk_desk_commands.specs.Fields.{fields_after_separators};

use brk_money::{Id, OrderType};
use brk_ref::{cash_or_margin_word, lifo_or_fifo_word};
use brk_ref_orders::{Completion, Order, Tick};
use std::alloc::{AllocError, Global};

// Kind, account, type, symbol and quantity, which begin the row of an order.
fn order_row_start(alloc: Global, order: &Order) -> Result<String, AllocError>
    ensures { IfOk result (λ row. string_bytes row ≡ join_with_byte 31 (codes "order" ∷ take 4 (model.order_fields (abstract_order order.now)))) }
{
    format!(in alloc;
        "order\x1f{}\x1f{}\x1f{}\x1f{}",
        order.account.get(),
        order.order_type.kind().code(),
        order.symbol.as_str(),
        order.qty.get()
    )
}

// The field is empty if the type has no price.
fn append_price(row: &mut String, order_type: OrderType) -> Result<(), AllocError>
    ensures { OnOk result (string_bytes row.new
        ≡ string_bytes row.old ++ fields_after_separators 31 (option_map_or model.nonnegative_cents_text (price_of_order_type order_type) [] ∷ [])) }
{
    match order_type.price() {
        Some(price) => write!(row, "\x1f{price}"),
        None => row.push_str("\x1f"),
    }
}

// The fields of the order after its price.
fn append_order_after_price(row: &mut String, order: &Order) -> Result<(), AllocError>
    ensures { OnOk result (string_bytes row.new ≡ string_bytes row.old ++ fields_after_separators 31 (drop 5 (model.order_fields (abstract_order order.now)))) }
{
    write!(
        row,
        "\x1f{}\x1f{}\x1f{}\x1f{}\x1f{}",
        cash_or_margin_word(order.is_cash),
        lifo_or_fifo_word(order.is_lifo),
        order.executor.first_name.as_str(),
        order.executor.last_name.as_str(),
        order.executor.tax_id.as_str()
    )
}

/// Returns the row of an order, whose price is empty if its type has none.
pub fn row_of_order(alloc: Global, order: &Order) -> Result<String, AllocError>
    ensures { IfOk result (λ row. string_bytes row ≡ model.row_text (PlaceOrder (abstract_order order.now))) }
{
    let mut row = order_row_start(alloc, order)?;
    append_price(&mut row, order.order_type)?;
    append_order_after_price(&mut row, order)?;
    Ok(row)
}

fn append_one_tick(row: &mut String, tick: &Tick) -> Result<(), AllocError>
    ensures { OnOk result (string_bytes row.new ≡ string_bytes row.old ++ fields_after_separators 31 (model.tick_fields (abstract_tick tick.now))) }
{
    write!(
        row,
        "\x1f{}\x1f{}\x1f{}",
        tick.symbol.as_str(),
        tick.price,
        tick.qty.get()
    )
}

/// Returns the row of a feed: `feed`, then symbol, price and quantity of each tick, in sequence.
pub fn row_of_feed(alloc: Global, ticks: &[Tick]) -> Result<String, AllocError>
    ensures { IfOk result (λ row. string_bytes row ≡ model.row_text (FeedTicks (abstract_ticks ticks.now))) }
{
    let mut row = String::from_str(alloc, "feed")?;
    for tick in ticks {
        append_one_tick(&mut row, tick)?;
    }
    Ok(row)
}

/// Returns the row that cancels a trade.
pub fn row_of_cancel(alloc: Global, trade: Id) -> Result<String, AllocError>
    ensures { IfOk result (λ row. string_bytes row ≡ model.row_text (CancelTrade trade)) }
{
    format!(in alloc; "cancel\x1f{}", trade.get())
}

/// Returns the row that completes a trade at a price.
pub fn row_of_result(alloc: Global, completion: &Completion) -> Result<String, AllocError>
    ensures { IfOk result (λ row. string_bytes row ≡ model.row_text (completion_command completion.now)) }
{
    format!(in alloc;
        "result\x1f{}\x1f{}",
        completion.trade.get(),
        completion.price
    )
}
