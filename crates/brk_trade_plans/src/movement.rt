//! The plan of a deposit or a withdrawal, and the addition to a balance within its limit, which a
//! result needs too.

ghost use Rattle.std.specs.Prelude.{◌≡◌, ◌∷◌, ◌++◌, ◌+ℤ◌, [], true, false, nat_abs, nat_lt, IfOk, OnErr, Err, MatchOption, MatchResult, None, Some};
ghost use Rattle.brk_ref.specs.Rows.{abstract_cash_row};
ghost use Rattle.brk_model.specs.Limits.{greatest_amount};
ghost use Rattle.brk_model.specs.Tests.{first_refusal};
ghost use Rattle.brk_money.specs.declared.fault.Fault.TheVariants.{Memory};
ghost use Rattle.brk_trade_plans.specs.Movement as spec;
ghost use Rattle.brk_trade_plans.specs.Movement.{IsMovementPlan, AppliesMovement, movement_checks};
ghost use Rattle.brk_trade_plans.specs.Reference.{later_stamp_check};

use crate::plan::Plan;
use crate::reply::Reply;
use brk_money::{Cents, Id, Limit, MoveId, Planned, Refusal, Stamp, stamp_after};
use brk_ref::CashRow;
use brk_ref_orders::{Direction, Movement};
use brk_trade_rows::Change;
use std::alloc::{AllocError, Global};

/// The facts in the tables that decide a deposit or a withdrawal.
#[derive(Clone, Copy, PartialEq, Eq)]
pub struct MovementPlanFacts {
    /// The balance of the account in cents, or `None` if the account does not exist (CA_BAL).
    pub balance: Option<Cents>,
    /// True if there are at least `Id::GREATEST` deposits and withdrawals.
    pub has_all_movements: bool,
    /// The number of the next cash row (CM_ID).
    pub next: MoveId,
}

fn signed_amount(movement: &Movement) -> Cents
    ensures { result ≡ spec.signed_amount_of_movement movement.now }
{
    let cents = movement.amount.get() as i64;
    let cents = match movement.direction {
        Direction::Deposit => cents,
        Direction::Withdrawal => -cents,
    };
    Cents::new(cents).unwrap()
}

// Returns the CM_NAME of the cash row.
fn movement_text(direction: Direction) -> &'static str
    ensures { result.now ≡ spec.cash_text_of_direction direction }
{
    match direction {
        Direction::Deposit => "Deposit",
        Direction::Withdrawal => "Withdrawal",
    }
}

/// Returns the sum in cents, or `None` if its absolute value exceeds 10^17 cents, the limit of a
/// balance.
pub fn add_within_balance_limit(balance: Cents, amount: Cents) -> Option<Cents>
    ensures { MatchOption result
        (nat_lt greatest_amount (nat_abs (balance +ℤ amount)) ≡ true)
        (λ after. (after ≡ balance +ℤ amount) × (nat_lt greatest_amount (nat_abs (balance +ℤ amount)) ≡ false)) }
{
    Cents::new(balance.get() + amount.get())
}

// Returns the balance after the movement, or the first refusal of the checks before the clock's.
fn checked_balance(movement: &Movement, found: &MovementPlanFacts) -> Result<Cents, Refusal>
    ensures { MatchResult result
        (λ balance. (first_refusal (movement_checks movement.now found.now) ≡ None) × (balance ≡ spec.balance_after_movement movement.now found.now))
        (λ refusal. first_refusal (movement_checks movement.now found.now) ≡ Some refusal) }
{
    let Some(balance) = found.balance else {
        return Err(Refusal::NoAccount);
    };
    let Some(balance) = add_within_balance_limit(balance, signed_amount(movement)) else {
        return Err(Refusal::Range(Limit::Balance));
    };
    if found.has_all_movements {
        return Err(Refusal::Range(Limit::Moves));
    }
    Ok(balance)
}

fn moved_cash_row(
    alloc: Global,
    movement: &Movement,
    number: MoveId,
    stamp: Stamp,
) -> Result<CashRow, AllocError>
    ensures { IfOk result (λ row. abstract_cash_row row ≡ spec.cash_row_of_movement movement.now number stamp) }
{
    Ok(CashRow {
        id: number,
        account: movement.account,
        trade: None,
        stamp,
        amount: signed_amount(movement),
        name: String::from_str(alloc, movement_text(movement.direction))?,
    })
}

fn movement_changes(
    alloc: Global,
    account: Id,
    row: CashRow,
    balance: Cents,
    stamp: Stamp,
) -> Result<Vec<Change>, AllocError>
    ensures changes { IfOk result (λ changes. changes.items ≡ spec.row_changes_of_movement account row balance stamp) }
{
    let mut changes = Vec::new(alloc);
    changes.push(Change::AddMove(row))?;
    changes.push(Change::SetBalance { account, balance })?;
    changes.push(Change::SetLastStamp(stamp))?;
    Ok(changes)
}

fn movement_plan(
    alloc: Global,
    movement: &Movement,
    number: MoveId,
    balance: Cents,
    stamp: Stamp,
) -> Result<Plan, AllocError>
    ensures moved { IfOk result (λ plan. AppliesMovement movement.now number balance stamp plan) }
{
    let row = moved_cash_row(alloc, movement, number, stamp)?;
    let changes = movement_changes(alloc, movement.account, row, balance, stamp)?;
    Ok(Plan {
        changes,
        reply: Reply::Moved {
            stamp,
            number,
            balance,
        },
    })
}

/// Plans a deposit or a withdrawal: a cash row with the number `found.next`, and the new balance of
/// the account. `last` is the stamp of the last accepted command, if any, and `now` the clock
/// reading.
///
/// Refuses with the first that applies of `NoAccount`, `Range(Balance)` (the absolute value of the
/// balance would exceed 10^17 cents), `Range(Moves)` (there are `Id::GREATEST` movements already)
/// and `ClockEnd` (no stamp later than `last` exists). Fails with `Memory` only.
pub fn plan_move(
    alloc: Global,
    movement: &Movement,
    found: &MovementPlanFacts,
    last: Option<Stamp>,
    now: Stamp,
) -> Planned<Plan>
    ensures planned { IfOk result (λ planned. MatchResult planned
        (IsMovementPlan movement.now found.now last now)
        (λ refusal. first_refusal (movement_checks movement.now found.now ++ later_stamp_check last now ∷ []) ≡ Some refusal)) }
    ensures fault { OnErr result (result ≡ Err Memory) }
{
    let balance = match checked_balance(movement, found) {
        Ok(balance) => balance,
        Err(refusal) => return Ok(Err(refusal)),
    };
    let Some(stamp) = stamp_after(last, now) else {
        return Ok(Err(Refusal::ClockEnd));
    };
    let plan = movement_plan(alloc, movement, found.next, balance, stamp)?;
    Ok(Ok(plan))
}
