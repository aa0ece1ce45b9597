ghost use Rattle.std.specs.Prelude.{◌≡◌, ◌==◌};
ghost use Rattle.brk_ref.specs.Records.{abstract_broker, abstract_broker_row};
ghost use Rattle.brk_trade_rows.specs.Changes.{tables_with_broker};
ghost use Rattle.brk_tables_schema.specs.Desk.{Brokers};
ghost use Rattle.brk_tables_schema.specs.Statements.{ReadsFirstMatch, WritesDeskTables};

use brk_money::{Id, StoreFailed};
use brk_ref::{Broker, BrokerRow};
use brk_tables_schema::calls::{execute_statement, select_rows};
use brk_tables_schema::record::decode_first_row;
use brk_tables_schema::values::{id_param, text_param};
use sqlite::{Alter, Transaction};

/// Inserts a broker (BROKER), with 0 trades and 0 cents of commissions.
pub fn add_broker<S: Alter>(tx: &mut Transaction<'_, S>, broker: &Broker) -> Result<(), StoreFailed>
    ensures same_reference { tx.new.conn.ghost_name ≡ tx.old.conn.ghost_name }
    ensures step { WritesDeskTables S.Store tx.old tx.new result (tables_with_broker (abstract_broker broker.now)) }
{
    execute_statement(
        tx,
        "INSERT INTO BROKER (B_ID, B_NAME, B_NUM_TRADES, B_COMM_TOTAL) VALUES (?1, ?2, 0, 0)",
        &[id_param(broker.id), text_param(broker.name.as_str())],
    )
}

pub fn broker_by_id<S: Alter>(
    tx: &mut Transaction<'_, S>,
    id: Id,
) -> Result<Option<BrokerRow>, StoreFailed>
    ensures same_reference { tx.new.conn.ghost_name ≡ tx.old.conn.ghost_name }
    ensures step { ReadsFirstMatch S.Store tx.old tx.new result Brokers abstract_broker_row (λ r. r.id == id) }
{
    let rows = select_rows(
        tx,
        "SELECT B_ID, B_NAME, B_NUM_TRADES, B_COMM_TOTAL FROM BROKER WHERE B_ID = ?1 ORDER BY B_ID",
        &[id_param(id)],
    )?;
    decode_first_row(&rows)
}
