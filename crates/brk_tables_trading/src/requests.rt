//! The requests of pending trades (TRADE_REQUEST).

ghost use Rattle.std.specs.Prelude.{◌≡◌, bytes_eq};
ghost use Rattle.brk_trade_rows.specs.Changes.{tables_with_request, tables_without_request};
ghost use Rattle.brk_ref.specs.Rows.{abstract_request_row};
ghost use Rattle.brk_tables_schema.specs.Desk.{Requests};
ghost use Rattle.brk_tables_schema.specs.Statements.{ReadsMatchingRows, WritesDeskTables};

use brk_money::{CallFault, Id, StoreFailed};
use brk_ref::{RequestRow, Symbol};
use brk_tables_schema::calls::{execute_statement, select_rows};
use brk_tables_schema::record::decode_rows;
use brk_tables_schema::values::{id_param, price_param, qty_param, text_param, trade_type_param};
use sqlite::{Alter, Transaction};
use std::alloc::Global;

/// Inserts the request of a pending trade (TRADE_REQUEST).
pub fn add_request<S: Alter>(
    tx: &mut Transaction<'_, S>,
    request: &RequestRow,
) -> Result<(), StoreFailed>
    ensures same_reference { tx.new.conn.ghost_name ≡ tx.old.conn.ghost_name }
    ensures step { WritesDeskTables S.Store tx.old tx.new result (tables_with_request (abstract_request_row request.now)) }
{
    execute_statement(
        tx,
        "INSERT INTO TRADE_REQUEST (TR_T_ID, TR_TT_ID, TR_S_SYMB, TR_QTY, TR_BID_PRICE, TR_B_ID) VALUES (?1, ?2, ?3, ?4, ?5, ?6)",
        &[
            id_param(request.trade),
            trade_type_param(request.kind),
            text_param(request.symbol.as_str()),
            qty_param(request.qty),
            price_param(request.bid),
            id_param(request.broker),
        ],
    )
}

pub fn remove_request<S: Alter>(tx: &mut Transaction<'_, S>, trade: Id) -> Result<(), StoreFailed>
    ensures same_reference { tx.new.conn.ghost_name ≡ tx.old.conn.ghost_name }
    ensures step { WritesDeskTables S.Store tx.old tx.new result (tables_without_request trade) }
{
    execute_statement(
        tx,
        "DELETE FROM TRADE_REQUEST WHERE TR_T_ID = ?1",
        &[id_param(trade)],
    )
}

/// Returns the requests of a symbol, sorted by the id of the trade, ascending.
pub fn requests_of_symbol<S: Alter>(
    tx: &mut Transaction<'_, S>,
    alloc: Global,
    symbol: &Symbol,
) -> Result<Vec<RequestRow>, CallFault>
    ensures same_reference { tx.new.conn.ghost_name ≡ tx.old.conn.ghost_name }
    ensures step { ReadsMatchingRows S.Store tx.old tx.new result Requests abstract_request_row (λ r. bytes_eq r.symbol symbol.now) }
{
    let rows = select_rows(
        tx,
        "SELECT TR_T_ID, TR_TT_ID, TR_S_SYMB, TR_QTY, TR_BID_PRICE, TR_B_ID \
         FROM TRADE_REQUEST WHERE TR_S_SYMB = ?1 ORDER BY TR_T_ID",
        &[text_param(symbol.as_str())],
    )?;
    decode_rows(alloc, &rows)
}
