//! The decision on a command, by one function for each kind of command.

ghost use Rattle.brk_desk_commands.specs.Commands.{abstract_command};
ghost use Rattle.brk_trade_theorems.specs.Decisions.{DecidesCommand};
ghost use Rattle.brk_store_transactions.specs.Holds.{ReadPost};

use brk_desk_commands::Command;
use brk_desk_decisions::{
    decide_cancel, decide_feed, decide_movement, decide_oneday, decide_order,
    decide_reference_record, decide_result, decide_update,
};
use brk_money::{CallFault, Planned, Stamp};
use brk_store::Store;
use brk_trade::Plan;
use sqlite::Alter;
use std::alloc::Global;

// Applies no plan.
pub(crate) fn decide<S: Alter>(
    alloc: Global,
    store: &mut Store<S>,
    now: Stamp,
    command: &Command,
) -> Planned<Plan, CallFault>
    ensures { ReadPost S.Store store.old store.new result (DecidesCommand now (abstract_command command.now)) }
{
    match command {
        Command::Add(reference) => decide_reference_record(alloc, store, now, reference),
        Command::Order(order) => decide_order(alloc, store, now, order),
        Command::Feed(feed) => decide_feed(alloc, store, now, feed),
        Command::Cancel(trade) => decide_cancel(alloc, store, now, *trade),
        Command::Complete(completion) => decide_result(alloc, store, now, completion),
        Command::Update(update) => decide_update(alloc, store, now, update),
        Command::Move(movement) => decide_movement(alloc, store, now, movement),
        Command::OneDay(day) => decide_oneday(alloc, store, now, *day),
    }
}
