//! The completed trades of a holding: of an account in a security.

ghost use Rattle.std.specs.Prelude.{◌≡◌, ◌==◌, ◌&&◌, bytes_eq, filter, map};
ghost use Rattle.brk_model.specs.Joins.{trade_rows_oldest_first};
ghost use Rattle.brk_money.specs.Kinds.{is_same_trade_status};
ghost use Rattle.brk_money.specs.declared.status.Status.TheVariants.{Completed};
ghost use Rattle.brk_tables_schema.specs.Statements.{ReadsDeskTables};

use brk_money::{CallFault, Id, Status};
use brk_ref::Symbol;
use brk_tables_schema::calls::select_rows;
use brk_tables_schema::record::decode_rows;
use brk_tables_schema::values::{id_param, status_param, text_param};
use sqlite::{Alter, Transaction};
use std::alloc::Global;

/// Returns the ids of the completed trades of an account in a security, sorted by the stamp of
/// completion and then by id, both ascending.
pub fn completed_trade_ids<S: Alter>(
    tx: &mut Transaction<'_, S>,
    alloc: Global,
    account: Id,
    symbol: &Symbol,
) -> Result<Vec<Id>, CallFault>
    ensures same_reference { tx.new.conn.ghost_name ≡ tx.old.conn.ghost_name }
    ensures step { ReadsDeskTables S.Store tx.old tx.new result (λ all t.
        all.items
        ≡ map (λ r. r.id) (trade_rows_oldest_first (filter (λ r. (r.account == account)
        && (bytes_eq r.symbol symbol.now && is_same_trade_status r.status Completed)) t.trades))) }
{
    let rows = select_rows(
        tx,
        "SELECT T_ID FROM TRADE WHERE T_CA_ID = ?1 AND T_S_SYMB = ?2 AND T_ST_ID = ?3 ORDER BY T_DTS, T_ID",
        &[
            id_param(account),
            text_param(symbol.as_str()),
            status_param(Status::Completed),
        ],
    )?;
    decode_rows(alloc, &rows)
}
