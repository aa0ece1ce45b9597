ghost use Rattle.brk_model.specs.Parse.{read_movement_command};
ghost use Rattle.brk_ref_orders.specs.Records.{movement_command, cash_movement_command};
ghost use Rattle.brk_ref.specs.Fields.{ParsesAs, texts_of_fields};

use brk_money::{Id, Refusal};
use brk_ref::{MovedAmount, parse_id, parse_moved_amount};

/// The direction of a movement of cash.
#[derive(Clone, Copy, Debug, PartialEq, Eq)]
pub enum Direction {
    /// Into the account.
    Deposit,
    /// Out of the account.
    Withdrawal,
}

/// A deposit or a withdrawal: cash that moves into an account or out of it without a trade.
#[derive(Clone, Copy)]
pub struct Movement {
    pub direction: Direction,
    pub account: Id,
    pub amount: MovedAmount,
}

/// Parses the fields ACCOUNT and AMOUNT. Refuses with `BadText` (18).
pub fn parse_cash_movement(direction: Direction, fields: &[&[u8]]) -> Result<Movement, Refusal>
    ensures { ParsesAs movement_command result (read_movement_command (cash_movement_command direction) (texts_of_fields fields.now)) }
{
    let [account, amount] = fields else {
        return Err(Refusal::BadText);
    };
    let Some(account) = parse_id(account) else {
        return Err(Refusal::BadText);
    };
    let Some(amount) = parse_moved_amount(amount) else {
        return Err(Refusal::BadText);
    };
    Ok(Movement {
        direction,
        account,
        amount,
    })
}
