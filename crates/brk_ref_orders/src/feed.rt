//! Market feeds, their parser, and which refusal counts if several ticks are malformed.

ghost use Rattle.std.specs.Prelude.{◌≡◌, IfOk, nat_le, if◌then◌else◌};
ghost use Rattle.brk_model.specs.Forms as forms;
ghost use Rattle.brk_model.specs.Forms.{one_to_twenty_elements};
ghost use Rattle.brk_model.specs.Parse.{read_feed, read_ticks};
ghost use Rattle.brk_ref_orders.specs.Reading.{appended_parse_results, abstract_parse_result};
ghost use Rattle.brk_ref_orders.specs.Records.{abstract_tick_as_list, abstract_ticks_of_vector, abstract_ticks};
ghost use Rattle.brk_ref.specs.Fields.{ParsesAs, texts_of_fields};

use crate::tick::{Tick, parse_tick};
use brk_money::{Planned, Refusal};
use std::alloc::{AllocError, Global};
use std::marker::Model;

/// The 1 to 20 ticks of a market feed, in the sequence in which they are applied.
#[derive(Drop)]
pub struct Feed {
    ticks: Vec<Tick>,
}

impl Model for Feed {
    ghost use Rattle.std.specs.Prelude.{List, length, ◌≤◌};
    ghost use Rattle.brk_ref_orders.specs.declared.tick.Tick.{Tick};

    ghost Value = { List Tick };

    ghost view = { λ feed. feed.ticks.items };

    ghost invariant = { λ feed. (1 ≤ length feed.ticks.items) × (length feed.ticks.items ≤ 20) };
}

impl Feed {
    /// The greatest number of ticks of a feed.
    pub const MOST: usize = 20;

    /// Refuses with `BadText` (18) if `ticks` is empty, and with `TooMany` (20) if it has more than
    /// 20.
    pub fn new(ticks: Vec<Tick>) -> Result<Feed, Refusal>
        ensures { ParsesAs abstract_ticks result (one_to_twenty_elements (abstract_ticks ticks.items)) }
    {
        if ticks.is_empty() {
            return Err(Refusal::BadText);
        }
        if ticks.len() > Feed::MOST {
            return Err(Refusal::TooMany);
        }
        Ok(Feed { ticks })
    }

    pub fn ticks(&self) -> &[Tick]
        ensures { result.now ≡ self.now }
    {
        &self.ticks
    }
}

// The refusal of the lowest rank is the one that is returned.
fn refusal_rank(refusal: Refusal) -> u8
    ensures { result ≡ forms.format_refusal_rank refusal }
{
    match refusal {
        Refusal::BadText => 0,
        Refusal::BadQty => 1,
        Refusal::BadPrice => 2,
        Refusal::BadType => 3,
        _ => 4,
    }
}

fn earlier_refusal(one: Refusal, other: Refusal) -> Refusal
    ensures { result ≡ (if nat_le (forms.format_refusal_rank one) (forms.format_refusal_rank other) then one else other) }
{
    if refusal_rank(one) <= refusal_rank(other) {
        one
    } else {
        other
    }
}

// A refusal does not end the ticks: a later one may fail an earlier check.
fn append_tick(
    ticks: Result<Vec<Tick>, Refusal>,
    tick: Result<Tick, Refusal>,
) -> Planned<Vec<Tick>, AllocError>
    ensures read { IfOk result (λ read. abstract_parse_result abstract_ticks_of_vector read
        ≡ appended_parse_results (abstract_parse_result abstract_ticks_of_vector ticks) (abstract_parse_result abstract_tick_as_list tick)) }
{
    match (ticks, tick) {
        (Ok(mut ticks), Ok(tick)) => {
            ticks.push(tick)?;
            Ok(Ok(ticks))
        }
        (Ok(_), Err(refusal)) => Ok(Err(refusal)),
        (Err(refusal), Ok(_)) => Ok(Err(refusal)),
        (Err(one), Err(other)) => Ok(Err(earlier_refusal(one, other))),
    }
}

fn parse_ticks(alloc: Global, fields: &[&[u8]]) -> Planned<Vec<Tick>, AllocError>
    ensures { IfOk result (λ read. ParsesAs abstract_ticks_of_vector read (read_ticks (texts_of_fields fields.now))) }
{
    let mut ticks = Ok(Vec::new(alloc));
    let mut rest = fields;
    while let [symbol, price, qty, after @ ..] = rest {
        let tick = parse_tick(alloc, symbol, price, qty)?;
        ticks = append_tick(ticks, tick)?;
        rest = after;
    }
    if !rest.is_empty() {
        return Ok(Err(Refusal::BadText));
    }
    Ok(ticks)
}

/// Parses the fields SYMBOL, PRICE and QTY of each of 1 to 20 ticks. Refuses with the first of
/// these that applies to any tick: `BadText` (18), `BadQty` (8), `BadPrice` (9); otherwise with
/// `TooMany` (20). Without a tick, it refuses with `BadText`.
pub fn parse_market_feed(alloc: Global, fields: &[&[u8]]) -> Planned<Feed, AllocError>
    ensures read { IfOk result (λ read. ParsesAs abstract_ticks read (read_feed (texts_of_fields fields.now))) }
{
    match parse_ticks(alloc, fields)? {
        Ok(ticks) => Ok(Feed::new(ticks)),
        Err(refusal) => Ok(Err(refusal)),
    }
}
