use crate::planned::expect_planned;
use brk_lots::Position;
use brk_money::{Id, Planned, Stamp, Status};
use brk_ref::check_broker;
use brk_ref_orders::{Order, Update, parse_executor_update, parse_trade_order};
use brk_tests_unit::expect::expect;
use brk_tests_unit::planned_reply::{expect_planned_reply, expect_reply};
use brk_tests_unit::plans::{PURCHASE, purchase_facts};
use brk_tests_unit::result_plans::{
    REPLY_TO_RESULT, SUBMITTED_CASH_PURCHASE, plan_of_result, result_facts, trade_row_of_case,
};
use brk_tests_unit::{Results, run_test};
use brk_trade::{
    OrderPlanFacts, Reference, ReferenceFacts, Reply, ResultPlanFacts, TextUpdate, plan_cancel,
    plan_estimate, plan_order, plan_reference, plan_update,
};
use std::alloc::Global;
use std::test::Fail;

// The first millisecond of 2024-03-01 UTC.
fn clock_reading() -> Stamp {
    Stamp::nearest(1_709_251_200_000)
}

// No record has the id of the new record.
const NEW_RECORD: ReferenceFacts = ReferenceFacts {
    same_id: false,
    same_tax_id: false,
    customer: false,
    broker: false,
    accounts: 0,
    account: false,
    overlaps: false,
    rate: None,
    rates: None,
};

fn expect_plan_of_new_record(alloc: Global, record: &Reference) -> Result<(), Fail> {
    let planned = plan_reference(alloc, record, NEW_RECORD, None, clock_reading());
    expect_planned_reply(alloc, planned, "1709251200000")
}

fn expect_reference_plan(alloc: Global) -> Result<(), Fail> {
    let broker = Reference::Broker(expect_planned(check_broker(alloc, &[b"1", b"Bo"]))?);
    expect_plan_of_new_record(alloc, &broker)
}

fn expect_cancel_plan(alloc: Global) -> Result<(), Fail> {
    let trade = Id::new(1).unwrap();
    let last = Stamp::new(1_709_251_200_018);
    let planned = plan_cancel(alloc, trade, Some(Status::Pending), last, clock_reading());
    expect_planned_reply(alloc, planned, "1709251200019,CNCL")
}

fn executor_of_one_trade(alloc: Global) -> Result<TextUpdate, Fail> {
    let trade = trade_row_of_case(alloc, &SUBMITTED_CASH_PURCHASE)?;
    Ok(TextUpdate::Executors(vec![in alloc; trade]?))
}

fn expect_plan_of_update(alloc: Global, update: &Update) -> Result<(), Fail> {
    let found = executor_of_one_trade(alloc)?;
    let last = Stamp::new(1_709_251_200_021);
    let planned = plan_update(alloc, update, Some(found), last, clock_reading());
    expect_planned_reply(alloc, planned, "1709251200022,1")
}

fn expect_update_plan(alloc: Global) -> Result<(), Fail> {
    let update = expect_planned(parse_executor_update(alloc, &[b"1"]))?;
    expect_plan_of_update(alloc, &update)
}

fn expect_estimate(alloc: Global, reply: &Reply) -> Result<(), Fail> {
    expect(matches!(reply, Reply::Estimated(_)), "no estimate")?;
    expect_reply(alloc, reply, "10.00,0.00,0.00,0.00,10.00,5.00,10000.00")
}

fn expect_planned_estimate(alloc: Global, planned: Planned<Reply>) -> Result<(), Fail> {
    expect_estimate(alloc, &expect_planned(planned)?)
}

fn expect_estimate_plan(alloc: Global, order: &Order, found: &OrderPlanFacts) -> Result<(), Fail> {
    let position = Position::new(alloc);
    let mut end = position.from_end(false);
    expect_planned_estimate(alloc, plan_estimate(order, found, &mut end))
}

fn expect_order_plan(alloc: Global, order: &Order, found: &OrderPlanFacts) -> Result<(), Fail> {
    let position = Position::new(alloc);
    let mut end = position.from_end(false);
    let now = Stamp::nearest(1_709_251_200_016);
    let planned = plan_order(alloc, order, found, &mut end, None, now);
    let line = "1709251200016,1,SBMT,10.00,0.00,0.00,0.00,10.00,5.00,10000.00";
    expect_planned_reply(alloc, planned, line)
}

fn expect_plans_of_purchase(alloc: Global, found: &OrderPlanFacts) -> Result<(), Fail> {
    let order = expect_planned(parse_trade_order(alloc, &PURCHASE))?;
    expect_estimate_plan(alloc, &order, found)?;
    expect_order_plan(alloc, &order, found)
}

fn expect_result_plan(alloc: Global, found: &ResultPlanFacts) -> Result<(), Fail> {
    let planned = plan_of_result(alloc, Some(found), Stamp::new(1_709_251_200_016));
    expect_planned_reply(alloc, planned, REPLY_TO_RESULT)
}

fn expect_plans_over_lots(alloc: Global) -> Result<(), Fail> {
    expect_plans_of_purchase(alloc, &purchase_facts(0))?;
    let found = result_facts(alloc, &SUBMITTED_CASH_PURCHASE)?;
    expect_result_plan(alloc, &found)
}

fn expect_plans_without_lots(alloc: Global) -> Result<(), Fail> {
    expect_reference_plan(alloc)?;
    expect_cancel_plan(alloc)?;
    expect_update_plan(alloc)
}

// Checks the public names of brk_trade: the plans, with their row changes and replies.
fn surface_of_brk_trade(alloc: Global) -> Result<(), Fail> {
    expect_plans_over_lots(alloc)?;
    expect_plans_without_lots(alloc)
}

pub fn run_tests(rt: &HostRuntime, results: &mut Results) {
    let alloc = rt.alloc();
    run_test!(rt, results, surface_of_brk_trade(alloc));
}
