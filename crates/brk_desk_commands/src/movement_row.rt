//! The rows of deposits, withdrawals and the first day of one-day settlement, as they are stored
//! under idempotency keys.
#![tactic(auto, unfolding(brk_model::specs::Rows::row_fields))]

ghost use Rattle.std.specs.Prelude.{◌≡◌, ◌∷◌, [], IfOk, codes, string_bytes};
ghost use Rattle.std.specs.List.{join_with_byte};
ghost use Rattle.brk_model.specs.Commands.{DepositCash, SetOneDay, WithdrawCash};
ghost use Rattle.brk_model.specs.Rows as model;
ghost use Rattle.brk_ref_orders.specs.Records.{movement_command};

use crate::line::day_text;
use brk_money::{Day, Id};
use brk_ref::MovedAmount;
use brk_ref_orders::{Direction, Movement};
use std::alloc::{AllocError, Global};

fn row_of_deposit(alloc: Global, account: Id, amount: MovedAmount) -> Result<String, AllocError>
    ensures { IfOk result (λ row. string_bytes row ≡ model.row_text (DepositCash account amount)) }
{
    format!(in alloc; "deposit\x1f{}\x1f{amount}", account.get())
}

fn row_of_withdrawal(alloc: Global, account: Id, amount: MovedAmount) -> Result<String, AllocError>
    ensures { IfOk result (λ row. string_bytes row ≡ model.row_text (WithdrawCash account amount)) }
{
    format!(in alloc; "withdraw\x1f{}\x1f{amount}", account.get())
}

/// Returns the row of a deposit or a withdrawal.
pub fn row_of_movement(alloc: Global, movement: &Movement) -> Result<String, AllocError>
    ensures { IfOk result (λ row. string_bytes row ≡ model.row_text (movement_command movement.now)) }
{
    match movement.direction {
        Direction::Deposit => row_of_deposit(alloc, movement.account, movement.amount),
        Direction::Withdrawal => row_of_withdrawal(alloc, movement.account, movement.amount),
    }
}

// `day` is the text of the day.
fn format_oneday_row(alloc: Global, day: &str) -> Result<String, AllocError>
    ensures { IfOk result (λ row. string_bytes row ≡ join_with_byte 31 (codes "oneday" ∷ day.now ∷ [])) }
{
    format!(in alloc; "oneday\x1f{day}")
}

/// Returns the row that sets `day` as the first day whose completions settle after one day.
pub fn row_of_oneday(alloc: Global, day: Day) -> Result<String, AllocError>
    ensures { IfOk result (λ row. string_bytes row ≡ model.row_text (SetOneDay day)) }
{
    let text = day_text(alloc, day)?;
    format_oneday_row(alloc, text.as_str())
}
