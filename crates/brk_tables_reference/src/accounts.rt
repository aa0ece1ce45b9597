ghost use Rattle.std.specs.Prelude.{◌≡◌, ◌==◌, map};
ghost use Rattle.brk_ref.specs.Records.{abstract_account, abstract_account_row};
ghost use Rattle.brk_trade_rows.specs.Changes.{tables_with_account};
ghost use Rattle.brk_tables_schema.specs.Desk.{Accounts};
ghost use Rattle.brk_tables_schema.specs.Statements.{ReadsDeskTables, ReadsFirstMatch, ReadsMatchingRows, WritesDeskTables};

use brk_money::{CallFault, Id, StoreFailed};
use brk_ref::{Account, AccountRow};
use brk_tables_schema::calls::{execute_statement, select_rows};
use brk_tables_schema::record::{decode_first_row, decode_rows};
use brk_tables_schema::values::{cents_param, id_param, tax_status_param, text_param};
use sqlite::{Alter, Transaction};
use std::alloc::Global;

/// Inserts an account (CUSTOMER_ACCOUNT), whose balance is its opening balance.
pub fn add_account<S: Alter>(
    tx: &mut Transaction<'_, S>,
    account: &Account,
) -> Result<(), StoreFailed>
    ensures same_reference { tx.new.conn.ghost_name ≡ tx.old.conn.ghost_name }
    ensures step { WritesDeskTables S.Store tx.old tx.new result (tables_with_account (abstract_account account.now)) }
{
    execute_statement(
        tx,
        "INSERT INTO CUSTOMER_ACCOUNT (CA_ID, CA_C_ID, CA_B_ID, CA_NAME, CA_TAX_ST, CA_OPEN, CA_BAL) VALUES (?1, ?2, ?3, ?4, ?5, ?6, ?6)",
        &[
            id_param(account.id),
            id_param(account.customer),
            id_param(account.broker),
            text_param(account.name.as_str()),
            tax_status_param(account.tax_status),
            cents_param(account.opening),
        ],
    )
}

pub fn account_by_id<S: Alter>(
    tx: &mut Transaction<'_, S>,
    id: Id,
) -> Result<Option<AccountRow>, StoreFailed>
    ensures same_reference { tx.new.conn.ghost_name ≡ tx.old.conn.ghost_name }
    ensures step { ReadsFirstMatch S.Store tx.old tx.new result Accounts abstract_account_row (λ r. r.id == id) }
{
    let rows = select_rows(
        tx,
        "SELECT CA_ID, CA_C_ID, CA_B_ID, CA_NAME, CA_TAX_ST, CA_OPEN, CA_BAL FROM CUSTOMER_ACCOUNT WHERE CA_ID = ?1 ORDER BY CA_ID",
        &[id_param(id)],
    )?;
    decode_first_row(&rows)
}

/// Returns all accounts, sorted by id, ascending.
pub fn all_accounts<S: Alter>(
    tx: &mut Transaction<'_, S>,
    alloc: Global,
) -> Result<Vec<AccountRow>, CallFault>
    ensures same_reference { tx.new.conn.ghost_name ≡ tx.old.conn.ghost_name }
    ensures step { ReadsDeskTables S.Store tx.old tx.new result (λ all t. map abstract_account_row all.items ≡ t.accounts) }
{
    let accounts = select_rows(
        tx,
        "SELECT CA_ID, CA_C_ID, CA_B_ID, CA_NAME, CA_TAX_ST, CA_OPEN, CA_BAL FROM CUSTOMER_ACCOUNT ORDER BY CA_ID",
        &[],
    )?;
    decode_rows(alloc, &accounts)
}

/// Returns the accounts of a customer, sorted by id, ascending.
pub fn accounts_of_customer<S: Alter>(
    tx: &mut Transaction<'_, S>,
    alloc: Global,
    customer: Id,
) -> Result<Vec<AccountRow>, CallFault>
    ensures same_reference { tx.new.conn.ghost_name ≡ tx.old.conn.ghost_name }
    ensures step { ReadsMatchingRows S.Store tx.old tx.new result Accounts abstract_account_row (λ r. r.customer == customer) }
{
    let rows = select_rows(
        tx,
        "SELECT CA_ID, CA_C_ID, CA_B_ID, CA_NAME, CA_TAX_ST, CA_OPEN, CA_BAL FROM CUSTOMER_ACCOUNT WHERE CA_C_ID = ?1 ORDER BY CA_ID",
        &[id_param(customer)],
    )?;
    decode_rows(alloc, &rows)
}
