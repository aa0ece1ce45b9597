//! Changes of rows, all in one transaction, and the creation of the tables in one.

ghost use Rattle.std.specs.Prelude.{◌≡◌, ◌⊎◌, IfErr, false};
ghost use Rattle.brk_money.specs.declared.fault.Condition.TheVariants.{NotEmpty};
ghost use Rattle.brk_money.specs.declared.fault.Fault.TheVariants as fault;
ghost use Rattle.sqlite.specs.Held.{state};
ghost use Rattle.brk_tables_sql.specs.Desk.{ChangesTablesBy};
ghost use Rattle.brk_tables_sql.specs.Model.{IsTransactionStep};
ghost use Rattle.brk_tables_schema.specs.Desk.{desk_tables};
ghost use Rattle.brk_trade_rows.specs.Changes.{tables_after_change, tables_after_changes};
ghost use Rattle.brk_store_transactions.specs.Holds.{ApplyPost, CreatePost};

use brk_money::{Condition, Fault, StoreFailed};
use brk_tables_schema::Table;
use brk_tables_schema::calls::statement_compiles;
use brk_trade_rows::Change;
use sqlite::{Alter, Connection, Transaction};

// A change of a row that does not exist changes nothing.
fn apply_change<S: Alter>(tx: &mut Transaction<'_, S>, change: &Change) -> Result<(), StoreFailed>
    ensures same_reference { tx.new.conn.ghost_name ≡ tx.old.conn.ghost_name }
    ensures step { IsTransactionStep (state S.Store tx.old.conn.now) (state S.Store tx.new.conn.now) result
        (λ _ a b. ChangesTablesBy desk_tables (tables_after_change change.now) a.now b.now) }
{
    match change {
        Change::AddBroker(broker) => brk_tables_reference::add_broker(tx, broker),
        Change::AddCustomer(customer) => brk_tables_reference::add_customer(tx, customer),
        Change::AddAccount(account) => brk_tables_reference::add_account(tx, account),
        Change::AddPermission(permission) => brk_tables_reference::add_permission(tx, permission),
        Change::AddSecurity(security) => brk_tables_reference::add_security(tx, security),
        Change::AddLastTrade(last_trade) => brk_tables_reference::add_last_trade(tx, last_trade),
        Change::AddCharge(charge) => brk_tables_reference::add_charge(tx, charge),
        Change::AddBand(band) => brk_tables_reference::add_band(tx, band),
        Change::AddTaxRate(tax) => brk_tables_reference::add_tax_rate(tx, tax),
        Change::AddCustomerTax(pays) => brk_tables_reference::add_customer_tax(tx, pays),
        Change::AddTrade(trade) => brk_tables_trading::add_trade(tx, trade),
        Change::SetStatus {
            trade,
            status,
            stamp,
        } => brk_tables_trading::set_trade_status(tx, *trade, *status, *stamp),
        Change::AddHistory(mark) => brk_tables_trading::add_trade_history_row(tx, mark),
        Change::AddRequest(request) => brk_tables_trading::add_request(tx, request),
        Change::RemoveRequest(trade) => brk_tables_trading::remove_request(tx, *trade),
        Change::SetLastTrade(last_trade) => brk_tables_trading::set_last_trade(tx, last_trade),
        Change::CompleteTrade {
            trade,
            stamp,
            price,
            commission,
            tax,
        } => brk_tables_trading::complete_trade(tx, *trade, *stamp, *price, *commission, *tax),
        Change::AddLot(lot) => brk_tables_trading::add_lot(tx, lot),
        Change::SetLot { trade, qty } => brk_tables_trading::set_lot_quantity(tx, *trade, *qty),
        Change::RemoveLot(trade) => brk_tables_trading::remove_lot(tx, *trade),
        Change::AddLotChange(made) => brk_tables_trading::add_lot_change(tx, made),
        Change::AddSummary(summary) => brk_tables_trading::add_holding_summary(tx, summary),
        Change::SetSummary(summary) => brk_tables_trading::set_summary_quantity(tx, summary),
        Change::RemoveSummary { account, symbol } => brk_tables_trading::remove_holding_summary(
            tx, *account, symbol,
        ),
        Change::AddSettlement(settlement) => brk_tables_trading::add_settlement(tx, settlement),
        Change::AddMove(posted) => brk_tables_cash::add_cash_row(tx, posted),
        Change::SetBalance { account, balance } => brk_tables_trading::set_account_balance(
            tx, *account, *balance,
        ),
        Change::SetBrokerTotals {
            broker,
            trades,
            commissions,
        } => brk_tables_trading::set_broker_totals(tx, *broker, *trades, *commissions),
        Change::SetExecutor { trade, executor } => brk_tables_trading::set_executor(
            tx,
            *trade,
            executor.as_str(),
        ),
        Change::SetCashType { trade, cash_type } => brk_tables_trading::set_cash_type(
            tx, *trade, *cash_type,
        ),
        Change::SetCashName { trade, name } => brk_tables_cash::set_cash_row_name(
            tx,
            *trade,
            name.as_str(),
        ),
        Change::SetOneDaySettlementStart(day) => brk_tables_cash::set_one_day_start(tx, *day),
        Change::AddStoredReply(kept) => brk_tables_schema::add_kept_row(tx, kept),
        Change::SetLastStamp(stamp) => brk_tables_schema::set_last_stamp(tx, *stamp),
    }
}

fn apply_each_change<S: Alter>(
    tx: &mut Transaction<'_, S>,
    changes: &[Change],
) -> Result<(), StoreFailed>
    ensures same_reference { tx.new.conn.ghost_name ≡ tx.old.conn.ghost_name }
    ensures step { IsTransactionStep (state S.Store tx.old.conn.now) (state S.Store tx.new.conn.now) result
        (λ _ a b. ChangesTablesBy desk_tables (tables_after_changes changes.now) a.now b.now) }
{
    for change in changes {
        apply_change(tx, change)?;
    }
    Ok(())
}

/// Applies the changes in order in one transaction and commits it. The rows of other tables are
/// unchanged, unless a foreign key of theirs changes or deletes them.
///
/// Fails also if a row to add breaks a constraint of its table or if the `sqlite` crate runs out of
/// memory. A crash after `Ok` exposes the rows with all changes.
pub fn apply_changes<S: Alter>(
    conn: &mut Connection<S>,
    changes: &[Change],
) -> Result<(), StoreFailed>
    requires { conn.old.in_transaction ≡ false }
    ensures mode { conn.new.in_transaction ≡ false }
    ensures applied { ApplyPost S.Store conn.old conn.new result (tables_after_changes changes.now) }
{
    // Called only for its contract, by which an open database outside a transaction is in its
    // committed state.
    let _is_autocommit = conn.is_autocommit();
    let mut tx = conn.transaction();
    // Fails on a closed store, also without changes: only an open one compiles a statement.
    let _exists = statement_compiles(&mut tx, Table::TheDesk.existence_probe_text())?;
    apply_each_change(&mut tx, changes)?;
    match tx.commit() {
        Ok(()) => Ok(()),
        Err(_) => Err(StoreFailed),
    }
}

/// Creates the tables of schema 3 in one transaction and commits it. They have no rows but the one
/// of DESK.
///
/// Fails with `Damaged(NotEmpty)`, only if a table with the name of a desk's table exists, or with
/// `Store`. A crash after `Ok` exposes the tables.
pub fn create_tables_atomically<S: Alter>(conn: &mut Connection<S>) -> Result<(), Fault>
    requires { conn.old.in_transaction ≡ false }
    ensures mode { conn.new.in_transaction ≡ false }
    ensures created { CreatePost S.Store conn.old conn.new result }
    ensures fault { IfErr result (λ f. (f ≡ fault.Store) ⊎ (f ≡ fault.Damaged NotEmpty)) }
{
    // Called only for its contract, by which an open database outside a transaction is in its
    // committed state.
    let _is_autocommit = conn.is_autocommit();
    let mut tx = conn.transaction();
    if brk_tables_scan::has_some_desk_table(&mut tx)? {
        return Err(Fault::Damaged(Condition::NotEmpty));
    }
    brk_tables::create_desk_tables(&mut tx)?;
    match tx.commit() {
        Ok(()) => Ok(()),
        Err(_) => Err(Fault::Store),
    }
}
