//! The rows of the tables of a desk as text. A function that returns `None` may have appended a
//! part.

use crate::desks::{Case, expect_lines};
use sqlite::types::ValueRef;
use sqlite::{Alter, Connection, Row};
use std::alloc::Global;
use std::test::Fail;

// The tables that no trade of the tests changes, and the stored requests of the batch `SET`.
const REFERENCE: [&str; 8] = [
    "CUSTOMER",
    "ACCOUNT_PERMISSION",
    "SECURITY",
    "CHARGE",
    "COMMISSION_RATE",
    "TAXRATE",
    "CUSTOMER_TAXRATE",
    "KEPT WHERE K_BATCH = 'SET'",
];

// The tables that trades change, and the stored requests of other batches than `SET`.
const TRADING: [&str; 15] = [
    "DESK",
    "BROKER",
    "CUSTOMER_ACCOUNT",
    "LAST_TRADE",
    "TRADE",
    "TRADE_HISTORY",
    "TRADE_REQUEST",
    "HOLDING",
    "HOLDING_SUMMARY",
    "HOLDING_HISTORY",
    "SETTLEMENT",
    "CASH_TRANSACTION",
    "CASH_MOVE",
    "SETTLE_RULE",
    "KEPT WHERE K_BATCH <> 'SET'",
];

// The rows of the reference tables after the batch `SET`.
const SET_TABLES: &str =
    "CUSTOMER\n10,1,T10,Lee,Ann\nACCOUNT_PERMISSION\nSECURITY\nABC,Acme,NYSE,Tech\nCHARGE\n\
    TLB,1,500\nTLS,1,500\nTMB,1,500\nTMS,1,500\nTSL,1,500\nCOMMISSION_RATE\n\
    1,TLB,NYSE,1,999999,100\n1,TLS,NYSE,1,999999,100\n1,TMB,NYSE,1,999999,100\n\
    1,TMS,NYSE,1,999999,100\n1,TSL,NYSE,1,999999,100\nTAXRATE\n1,State,20000\nCUSTOMER_TAXRATE\n\
    10,1\nKEPT WHERE K_BATCH = 'SET'\nSET,1,broker\x1f1\x1fBo,1709251200000\n\
    SET,2,customer\x1f10\x1f1\x1fT10\x1fLee\x1fAnn,1709251200001\n\
    SET,3,account\x1f100\x1f10\x1f1\x1fMain\x1f1\x1f10000.00,1709251200002\n\
    SET,4,security\x1fABC\x1fAcme\x1fNYSE\x1fTech\x1f10.00,1709251200003\n\
    SET,5,charge\x1fTMB\x1f1\x1f5.00,1709251200004\nSET,6,charge\x1fTMS\x1f1\x1f5.00,1709251200005\n\
    SET,7,charge\x1fTSL\x1f1\x1f5.00,1709251200006\nSET,8,charge\x1fTLS\x1f1\x1f5.00,1709251200007\n\
    SET,9,charge\x1fTLB\x1f1\x1f5.00,1709251200008\n\
    SET,10,band\x1f1\x1fTMB\x1fNYSE\x1f1\x1f999999\x1f100,1709251200009\n\
    SET,11,band\x1f1\x1fTMS\x1fNYSE\x1f1\x1f999999\x1f100,1709251200010\n\
    SET,12,band\x1f1\x1fTSL\x1fNYSE\x1f1\x1f999999\x1f100,1709251200011\n\
    SET,13,band\x1f1\x1fTLS\x1fNYSE\x1f1\x1f999999\x1f100,1709251200012\n\
    SET,14,band\x1f1\x1fTLB\x1fNYSE\x1f1\x1f999999\x1f100,1709251200013\n\
    SET,15,taxrate\x1f1\x1fState\x1f20000,1709251200014\nSET,16,custtax\x1f10\x1f1,1709251200015\n";

// Appends the value of a cell as text; a null is an empty text. Returns `None` for a value that is
// neither a null, nor a whole number, nor UTF-8 text, and if memory runs out.
fn append_cell(lines: &mut String, value: ValueRef<'_>) -> Option<()> {
    match value {
        ValueRef::Null => Some(()),
        ValueRef::Int(number) => write!(lines, "{number}").ok(),
        ValueRef::Text(bytes) => lines.push_str(str::from_utf8(bytes).ok()?).ok(),
        ValueRef::Real(_) | ValueRef::Blob(_) => None,
    }
}

// Appends the values of a row, separated by commas, as a line. Returns `None` if a value cannot be
// read or printed, and if memory runs out.
fn append_row(lines: &mut String, row: &Row) -> Option<()> {
    for at in 0..row.column_count() {
        if at > 0 {
            lines.push_str(",").ok()?;
        }
        append_cell(lines, row.get_ref(at).ok()?)?;
    }
    lines.push_str("\n").ok()
}

// Appends the text `table`, the name of a table and perhaps a `WHERE` condition, as a line, and
// then the rows of the table, or those that satisfy the condition, as lines, sorted by their first
// two columns, ascending. Returns `None` if the rows cannot be read or printed, and if memory runs
// out.
fn append_table<S: Alter>(
    alloc: Global,
    lines: &mut String,
    conn: &mut Connection<S>,
    table: &str,
) -> Option<()> {
    writeln!(lines, "{table}").ok()?;
    let sql = format!(in alloc; "SELECT * FROM {table} ORDER BY 1, 2").ok()?;
    let rows = conn.query_all(sql.as_str(), &[]).ok()?;
    for row in &rows {
        append_row(lines, row)?;
    }
    Some(())
}

// Appends the texts `tables` and the rows of each of them, in order, as lines (`append_table`).
// Returns `None` if the rows cannot be read or printed, and if memory runs out.
fn append_tables<S: Alter>(
    alloc: Global,
    lines: &mut String,
    conn: &mut Connection<S>,
    tables: &[&str],
) -> Option<()> {
    for table in tables {
        append_table(alloc, lines, conn, table)?;
    }
    Some(())
}

/// Returns the names and the rows of all tables of a desk as lines (`append_table`): those of
/// `REFERENCE`, then those of `TRADING`. Returns `None` if the rows cannot be read or printed, and
/// if memory runs out.
pub fn read_all_tables<S: Alter>(alloc: Global, conn: &mut Connection<S>) -> Option<String> {
    let mut lines = String::new(alloc);
    append_tables(alloc, &mut lines, conn, &REFERENCE)?;
    append_tables(alloc, &mut lines, conn, &TRADING)?;
    Some(lines)
}

// Checks that the names and the rows of these tables are exactly the lines `wanted`
// (`append_tables`). Fails as `expect_lines` does, and if the tables cannot be read or printed or
// memory runs out.
fn expect_rows_of_tables<S: Alter>(
    alloc: Global,
    conn: &mut Connection<S>,
    case: Case<'_>,
    tables: &[&str],
    wanted: &str,
) -> Result<(), Fail> {
    let mut told = String::new(alloc);
    match append_tables(alloc, &mut told, conn, tables) {
        Some(()) => expect_lines(case, "tables", told.as_str(), wanted),
        None => Err("tables that cannot be read")?,
    }
}

/// Checks all tables of a desk: the tables of `REFERENCE` equal those after the batch `SET`, and
/// the names and rows of the tables of `TRADING` are exactly the lines `wanted`. The stored
/// requests of `SET` are among the former, all others among the latter. Fails with `case` and the
/// number of the first line that differs, with `case` if no line differs but the texts do, and if
/// the tables cannot be read or printed or memory runs out.
pub fn expect_all_tables<S: Alter>(
    alloc: Global,
    conn: &mut Connection<S>,
    case: Case<'_>,
    wanted: &str,
) -> Result<(), Fail> {
    expect_rows_of_tables(alloc, conn, case, &REFERENCE, SET_TABLES)?;
    expect_rows_of_tables(alloc, conn, case, &TRADING, wanted)
}
