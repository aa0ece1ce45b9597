//! Tests of the creation of a store: a second time, and next to other tables.

use brk_money::{Condition, Fault};
use brk_tests_desks::desks::{create_store, expect_connection, new_store, open_in_memory};
use brk_tests_unit::expect::expect;
use brk_tests_unit::{Results, run_test};
use sqlite::{Alter, Connection};
use std::alloc::Global;
use std::test::Fail;

// Creates the tables of a store in the database of a connection. Returns `None` if they can be
// created, and otherwise the fault, with true if no transaction is open after it.
fn fault_of_creation<S: Alter + Drop>(conn: Connection<S>) -> Option<(Fault, bool)> {
    match create_store(conn) {
        Ok(_) => None,
        Err((conn, fault)) => Some((fault, conn.is_autocommit())),
    }
}

// Checks that the fault of a creation is `NotEmpty`, and that no transaction is open after it.
fn expect_not_empty(fault: Option<(Fault, bool)>) -> Result<(), Fail> {
    expect(
        matches!(fault, Some((Fault::Damaged(Condition::NotEmpty), true))),
        "another fault, or an open transaction",
    )
}

fn fault_of_second_creation<S: Alter + Drop>(
    conn: Option<Connection<S>>,
) -> Result<Option<(Fault, bool)>, Fail> {
    Ok(fault_of_creation(new_store(conn)?.into_conn()))
}

// Checks that creating a store in a database that has one already fails with `NotEmpty`, and that
// no transaction is open after it.
fn a_second_creation_fails(alloc: Global) -> Result<(), Fail> {
    expect_not_empty(fault_of_second_creation(open_in_memory(alloc))?)
}

fn connection_after_sql<S: Alter + Drop>(
    conn: Option<Connection<S>>,
    sql: &str,
) -> Result<Connection<S>, Fail> {
    let mut conn = expect_connection(conn)?;
    conn.execute_batch(sql)?;
    Ok(conn)
}

// The table FIRST, with one row whose column B is 1, and a view of it.
const OTHER_TABLE: &str =
    "CREATE TABLE FIRST (A TEXT UNIQUE, B INTEGER); INSERT INTO FIRST VALUES ('x', 1); CREATE VIEW SEEN AS SELECT A FROM FIRST";

// Returns the number of rows of `OTHER_TABLE` whose column B is 1, after the creation of a store.
fn other_rows_after_creation<S: Alter + Drop>(conn: Option<Connection<S>>) -> Result<i64, Fail> {
    let conn = connection_after_sql(conn, OTHER_TABLE)?;
    let mut conn = new_store(Some(conn))?.into_conn();
    Ok(
        conn.query_row("SELECT count(*) FROM FIRST WHERE B = 1", &[])?
            .get(0)?,
    )
}

// Checks that, after the creation of a store, another table of the database still has exactly one
// row whose column B is 1, as before.
fn creation_preserves_other_tables(alloc: Global) -> Result<(), Fail> {
    let count = other_rows_after_creation(open_in_memory(alloc))?;
    expect(count == 1, "other rows")
}

// Checks that creating a store fails with `NotEmpty` in a database that has a table whose name
// differs from that of a desk's table only in upper and lower case.
fn creation_fails_beside_a_table_name_in_other_case(alloc: Global) -> Result<(), Fail> {
    let sql = "CREATE TABLE Cash_Transaction (A TEXT)";
    let conn = connection_after_sql(open_in_memory(alloc), sql)?;
    expect_not_empty(fault_of_creation(conn))
}

pub fn run_tests(rt: &HostRuntime, results: &mut Results) {
    let alloc = rt.alloc();
    run_test!(rt, results, a_second_creation_fails(alloc));
    run_test!(rt, results, creation_preserves_other_tables(alloc));
    run_test!(
        rt,
        results,
        creation_fails_beside_a_table_name_in_other_case(alloc)
    );
}
