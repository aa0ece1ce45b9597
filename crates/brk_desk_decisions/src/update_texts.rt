//! Reads of the texts of a completed trade, in rows that must exist. Each fails with `Store` if its
//! row does not exist.

ghost use Rattle.std.specs.Prelude.{◌≡◌, Some, option_map, string_bytes};
ghost use Rattle.brk_ref.specs.Rows.{cash_type_text};
ghost use Rattle.brk_store_transactions.specs.Holds.{ReadPost};
ghost use Rattle.brk_trade_theorems.specs.Corrections.{cash_row_of_trade, settlement_row_of_trade};

use brk_money::{CallFault, Id};
use brk_store::Store;
use brk_trade::CashType;
use sqlite::Alter;

// Reads SE_CASH_TYPE.
pub(crate) fn cash_type_of<S: Alter>(store: &mut Store<S>, trade: Id) -> Result<CashType, CallFault>
    ensures { ReadPost S.Store store.old store.new result (λ cash_type t. Some (cash_type_text cash_type)
        ≡ option_map (λ s. s.cash_type) (settlement_row_of_trade t trade)) }
{
    match store.settlement(trade)? {
        Some(settlement) => Ok(settlement.cash_type),
        None => Err(CallFault::Store),
    }
}

// Reads CM_NAME.
pub(crate) fn cash_name_of<S: Alter>(store: &mut Store<S>, trade: Id) -> Result<String, CallFault>
    ensures { ReadPost S.Store store.old store.new result (λ name t. Some (string_bytes name) ≡ option_map (λ c. c.name) (cash_row_of_trade t trade)) }
{
    match store.cash_row(trade)? {
        Some(cash) => Ok(cash.name),
        None => Err(CallFault::Store),
    }
}
