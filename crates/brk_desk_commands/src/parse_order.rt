//! Parsing of orders, feeds, cancels and results.

ghost use Rattle.std.specs.Prelude.{◌≡◌, ◌∷◌, ◌++◌, IfOk};
ghost use Rattle.brk_model.specs.Commands.{CancelTrade, FeedTicks, PlaceOrder};
ghost use Rattle.brk_model.specs.Parse.{order_feed_and_cancel_parsers, parse_by_first_field, read_and_wrap, read_id_of_trade_to_cancel, read_feed};
ghost use Rattle.brk_model.specs.Parse.{read_order, read_complete_trade_command, result_row_parsers, update_row_parsers};
ghost use Rattle.brk_model.specs.Parse.{movement_and_one_day_settlement_row_parsers};
ghost use Rattle.brk_ref.specs.Fields.{ParsesAs, texts_of_fields};
ghost use Rattle.brk_desk_commands.specs.Commands.{abstract_command};

use crate::command::Command;
use crate::parse_update::parse_kinds_from_upname;
use brk_money::{Planned, Refusal};
use brk_ref_orders::{parse_cancel, parse_completion, parse_market_feed, parse_trade_order};
use std::alloc::{AllocError, Global};

fn order_command(alloc: Global, fields: &[&[u8]]) -> Planned<Command, AllocError>
    ensures { IfOk result (λ read. ParsesAs abstract_command read (read_and_wrap PlaceOrder read_order (texts_of_fields fields.now))) }
{
    match parse_trade_order(alloc, fields)? {
        Ok(order) => Ok(Ok(Command::Order(order))),
        Err(refusal) => Ok(Err(refusal)),
    }
}

fn feed_command(alloc: Global, fields: &[&[u8]]) -> Planned<Command, AllocError>
    ensures { IfOk result (λ read. ParsesAs abstract_command read (read_and_wrap FeedTicks read_feed (texts_of_fields fields.now))) }
{
    match parse_market_feed(alloc, fields)? {
        Ok(feed) => Ok(Ok(Command::Feed(feed))),
        Err(refusal) => Ok(Err(refusal)),
    }
}

fn cancel_command(fields: &[&[u8]]) -> Result<Command, Refusal>
    ensures { ParsesAs abstract_command result (read_and_wrap CancelTrade read_id_of_trade_to_cancel (texts_of_fields fields.now)) }
{
    match parse_cancel(fields) {
        Ok(trade) => Ok(Command::Cancel(trade)),
        Err(refusal) => Err(refusal),
    }
}

fn result_command(fields: &[&[u8]]) -> Result<Command, Refusal>
    ensures { ParsesAs abstract_command result (read_complete_trade_command (texts_of_fields fields.now)) }
{
    match parse_completion(fields) {
        Ok(completion) => Ok(Command::Complete(completion)),
        Err(refusal) => Err(refusal),
    }
}

// Parses `order`, `feed`, `cancel` and `result` and, by `parse_kinds_from_upname`, the kinds after
// these.
pub(crate) fn parse_kinds_from_order(
    alloc: Global,
    kind: &[u8],
    fields: &[&[u8]],
) -> Planned<Command, AllocError>
    ensures { IfOk result (λ read. ParsesAs abstract_command read
        (parse_by_first_field (order_feed_and_cancel_parsers ++ result_row_parsers ++ update_row_parsers
        ++ movement_and_one_day_settlement_row_parsers) (kind.now
        ∷ texts_of_fields fields.now))) }
{
    if kind == b"order".as_slice() {
        return order_command(alloc, fields);
    }
    if kind == b"feed".as_slice() {
        return feed_command(alloc, fields);
    }
    if kind == b"cancel".as_slice() {
        return Ok(cancel_command(fields));
    }
    if kind == b"result".as_slice() {
        return Ok(result_command(fields));
    }
    parse_kinds_from_upname(alloc, kind, fields)
}
