//! Brokers by name, which several brokers may share, all requests, and the accounts of a broker and
//! of all brokers.

ghost use Rattle.std.specs.Prelude.{◌≡◌, ◌==◌, bytes_eq, filter, map};
ghost use Rattle.brk_ref.specs.Records.{abstract_broker_row};
ghost use Rattle.brk_ref.specs.Rows.{abstract_request_row};
ghost use Rattle.brk_tables_schema.specs.Desk.{Brokers};
ghost use Rattle.brk_tables_schema.specs.Statements.{ReadsMatchingRows, ReadsDeskTables};

use brk_money::{CallFault, Id};
use brk_ref::{BrokerRow, Name, RequestRow};
use brk_tables_schema::calls::select_rows;
use brk_tables_schema::record::decode_rows;
use brk_tables_schema::values::{id_param, text_param};
use sqlite::{Alter, Transaction};
use std::alloc::Global;

/// Returns the brokers with the name `name`, sorted by id, ascending.
pub fn brokers_with_name<S: Alter>(
    tx: &mut Transaction<'_, S>,
    alloc: Global,
    name: &Name,
) -> Result<Vec<BrokerRow>, CallFault>
    ensures same_reference { tx.new.conn.ghost_name ≡ tx.old.conn.ghost_name }
    ensures step { ReadsMatchingRows S.Store tx.old tx.new result Brokers abstract_broker_row (λ r. bytes_eq r.name name.now) }
{
    let rows = select_rows(
        tx,
        "SELECT B_ID, B_NAME, B_NUM_TRADES, B_COMM_TOTAL FROM BROKER WHERE B_NAME = ?1 ORDER BY B_ID",
        &[text_param(name.as_str())],
    )?;
    decode_rows(alloc, &rows)
}

/// Returns all requests of pending trades, sorted by the id of the trade, ascending.
pub fn all_requests<S: Alter>(
    tx: &mut Transaction<'_, S>,
    alloc: Global,
) -> Result<Vec<RequestRow>, CallFault>
    ensures same_reference { tx.new.conn.ghost_name ≡ tx.old.conn.ghost_name }
    ensures step { ReadsDeskTables S.Store tx.old tx.new result (λ all t. map abstract_request_row all.items ≡ t.requests) }
{
    let rows = select_rows(
        tx,
        "SELECT TR_T_ID, TR_TT_ID, TR_S_SYMB, TR_QTY, TR_BID_PRICE, TR_B_ID FROM TRADE_REQUEST ORDER BY TR_T_ID",
        &[],
    )?;
    decode_rows(alloc, &rows)
}

/// Returns the ids of the accounts of a broker, ascending.
pub fn account_ids_of_broker<S: Alter>(
    tx: &mut Transaction<'_, S>,
    alloc: Global,
    broker: Id,
) -> Result<Vec<Id>, CallFault>
    ensures same_reference { tx.new.conn.ghost_name ≡ tx.old.conn.ghost_name }
    ensures step { ReadsDeskTables S.Store tx.old tx.new result (λ all t. all.items ≡ map (λ r. r.id) (filter (λ r. r.broker == broker) t.accounts)) }
{
    let rows = select_rows(
        tx,
        "SELECT CA_ID FROM CUSTOMER_ACCOUNT WHERE CA_B_ID = ?1 ORDER BY CA_ID",
        &[id_param(broker)],
    )?;
    decode_rows(alloc, &rows)
}

/// Returns the ids of all accounts, ascending.
pub fn all_account_ids<S: Alter>(
    tx: &mut Transaction<'_, S>,
    alloc: Global,
) -> Result<Vec<Id>, CallFault>
    ensures same_reference { tx.new.conn.ghost_name ≡ tx.old.conn.ghost_name }
    ensures step { ReadsDeskTables S.Store tx.old tx.new result (λ all t. all.items ≡ map (λ r. r.id) t.accounts) }
{
    let rows = select_rows(tx, "SELECT CA_ID FROM CUSTOMER_ACCOUNT ORDER BY CA_ID", &[])?;
    decode_rows(alloc, &rows)
}
