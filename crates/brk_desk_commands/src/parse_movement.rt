//! Parsing of deposits, withdrawals and the first day of one-day settlement.

ghost use Rattle.std.specs.Prelude.{◌≡◌, ◌∷◌};
ghost use Rattle.brk_model.specs.Commands.{SetOneDay};
ghost use Rattle.brk_model.specs.Parse.{movement_and_one_day_settlement_row_parsers, parse_by_first_field};
ghost use Rattle.brk_model.specs.Parse.{read_and_wrap, read_movement_command, read_one_day_settlement_start};
ghost use Rattle.brk_ref_orders.specs.Records.{cash_movement_command};
ghost use Rattle.brk_ref.specs.Fields.{ParsesAs, texts_of_fields};
ghost use Rattle.brk_desk_commands.specs.Commands.{abstract_command};

use crate::command::Command;
use brk_money::Refusal;
use brk_ref_orders::{Direction, parse_cash_movement, parse_one_day};

fn move_command(direction: Direction, fields: &[&[u8]]) -> Result<Command, Refusal>
    ensures { ParsesAs abstract_command result (read_movement_command (cash_movement_command direction) (texts_of_fields fields.now)) }
{
    match parse_cash_movement(direction, fields) {
        Ok(movement) => Ok(Command::Move(movement)),
        Err(refusal) => Err(refusal),
    }
}

fn oneday_command(fields: &[&[u8]]) -> Result<Command, Refusal>
    ensures { ParsesAs abstract_command result (read_and_wrap SetOneDay read_one_day_settlement_start (texts_of_fields fields.now)) }
{
    match parse_one_day(fields) {
        Ok(day) => Ok(Command::OneDay(day)),
        Err(refusal) => Err(refusal),
    }
}

// Parses `deposit`, `withdraw` and `oneday`. Refuses any other kind with `BadText` (18).
pub(crate) fn parse_movement_kinds(kind: &[u8], fields: &[&[u8]]) -> Result<Command, Refusal>
    ensures { ParsesAs abstract_command result (parse_by_first_field movement_and_one_day_settlement_row_parsers (kind.now ∷ texts_of_fields fields.now)) }
{
    if kind == b"deposit".as_slice() {
        return move_command(Direction::Deposit, fields);
    }
    if kind == b"withdraw".as_slice() {
        return move_command(Direction::Withdrawal, fields);
    }
    if kind == b"oneday".as_slice() {
        return oneday_command(fields);
    }
    Err(Refusal::BadText)
}
