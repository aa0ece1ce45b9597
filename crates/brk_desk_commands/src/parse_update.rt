//! Parsing of text updates.

ghost use Rattle.std.specs.Prelude.{◌≡◌, ◌∷◌, ◌++◌, IfOk};
ghost use Rattle.brk_model.specs.Commands.{ChangeExecutors};
ghost use Rattle.brk_model.specs.Forms.{read_distinct_ids};
ghost use Rattle.brk_model.specs.Parse.{movement_and_one_day_settlement_row_parsers, parse_by_first_field, read_and_wrap};
ghost use Rattle.brk_model.specs.Parse.{read_cash_type_update, read_cash_name_update, update_row_parsers};
ghost use Rattle.brk_ref.specs.Fields.{ParsesAs, texts_of_fields};
ghost use Rattle.brk_desk_commands.specs.Commands.{abstract_command};

use crate::command::Command;
use crate::parse_movement::parse_movement_kinds;
use brk_money::{Planned, Refusal};
use brk_ref_orders::{parse_cash_name_update, parse_cash_type_update, parse_executor_update};
use std::alloc::{AllocError, Global};

// The fields are the ids of the trades whose executors are renamed.
fn executor_command(alloc: Global, fields: &[&[u8]]) -> Planned<Command, AllocError>
    ensures { IfOk result (λ read. ParsesAs abstract_command read (read_and_wrap ChangeExecutors read_distinct_ids (texts_of_fields fields.now))) }
{
    match parse_executor_update(alloc, fields)? {
        Ok(update) => Ok(Ok(Command::Update(update))),
        Err(refusal) => Ok(Err(refusal)),
    }
}

// FROM may be later than TO.
fn cash_type_command(fields: &[&[u8]]) -> Result<Command, Refusal>
    ensures { ParsesAs abstract_command result (read_cash_type_update (texts_of_fields fields.now)) }
{
    match parse_cash_type_update(fields) {
        Ok(update) => Ok(Command::Update(update)),
        Err(refusal) => Err(refusal),
    }
}

// FROM may be later than TO.
fn cash_name_command(alloc: Global, fields: &[&[u8]]) -> Planned<Command, AllocError>
    ensures { IfOk result (λ read. ParsesAs abstract_command read (read_cash_name_update (texts_of_fields fields.now))) }
{
    match parse_cash_name_update(alloc, fields)? {
        Ok(update) => Ok(Ok(Command::Update(update))),
        Err(refusal) => Ok(Err(refusal)),
    }
}

// Parses `upname`, `upcash` and `uptext` and, by `parse_movement_kinds`, the kinds after these.
pub(crate) fn parse_kinds_from_upname(
    alloc: Global,
    kind: &[u8],
    fields: &[&[u8]],
) -> Planned<Command, AllocError>
    ensures { IfOk result (λ read. ParsesAs abstract_command read
        (parse_by_first_field (update_row_parsers ++ movement_and_one_day_settlement_row_parsers) (kind.now ∷ texts_of_fields fields.now))) }
{
    if kind == b"upname".as_slice() {
        return executor_command(alloc, fields);
    }
    if kind == b"upcash".as_slice() {
        return Ok(cash_type_command(fields));
    }
    if kind == b"uptext".as_slice() {
        return cash_name_command(alloc, fields);
    }
    Ok(parse_movement_kinds(kind, fields))
}
