use crate::planned_reply::expect_planned_reply;
use crate::{Results, run_test};
use brk_money::{Cents, Id, MoveId, Stamp};
use brk_ref::MovedAmount;
use brk_ref_orders::{Direction, Movement};
use brk_trade::{MovementPlanFacts, plan_move};
use std::alloc::Global;
use std::test::Fail;

// Checks the reply to a deposit of 100.00 to an account with a balance, or to none, after as many
// movements as there can be, or `no,` and the refusal.
fn expect_deposit_reply(alloc: Global, balance: Option<Cents>, wanted: &str) -> Result<(), Fail> {
    let deposit = Movement {
        direction: Direction::Deposit,
        account: Id::new(100).unwrap(),
        amount: MovedAmount::new(10_000).unwrap(),
    };
    let found = MovementPlanFacts {
        balance,
        has_all_movements: true,
        next: MoveId::new(4).unwrap(),
    };
    let last = Stamp::new(1_709_251_200_021);
    let now = Stamp::nearest(1_709_251_200_000);
    let planned = plan_move(alloc, &deposit, &found, last, now);
    expect_planned_reply(alloc, planned, wanted)
}

// No desk of the tests has the greatest number of movements. An account that does not exist is
// refused first.
fn movements_have_a_limit(alloc: Global) -> Result<(), Fail> {
    expect_deposit_reply(alloc, Cents::new(840_340), "no,14,moves")?;
    expect_deposit_reply(alloc, None, "no,1")
}

pub fn run_tests(rt: &HostRuntime, results: &mut Results) {
    run_test!(rt, results, movements_have_a_limit(rt.alloc()));
}
