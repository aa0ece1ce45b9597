//! The commands to the desk.

use brk_money::{Day, Id};
use brk_ref_orders::{Completion, Feed, Movement, Order, Update};
use brk_trade_plans::Reference;

/// A command to the desk, parsed: every field of it is well-formed.
#[derive(Drop)]
pub enum Command {
    /// Adds a record of reference data.
    Add(Reference),
    /// Places an order (Trade-Order).
    Order(Order),
    /// Reports trades on the market (Market-Feed).
    Feed(Feed),
    /// Cancels the trade with this id.
    Cancel(Id),
    /// Completes a submitted trade (Trade-Result).
    Complete(Completion),
    /// Updates a text column of trades (Trade-Update).
    Update(Update),
    /// Deposits or withdraws cash.
    Move(Movement),
    /// Sets the first day of one-day settlement.
    OneDay(Day),
}
