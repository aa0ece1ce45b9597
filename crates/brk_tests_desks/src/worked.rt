//! The batch that sets a desk up, and trades of one account with the lines of their replies.

use std::alloc::{AllocError, Global};
use std::test::Fail;

/// 2024-03-01 00:00 UTC, in milliseconds since 1970-01-01 UTC.
pub const FIRST_MOMENT: i64 = 1_709_251_200_000;

/// A batch that sets a desk up: a broker, a customer, an account, a security, charges, bands and a
/// tax.
pub const SET: &[u8] = b"batch,SET\n\
    broker,1,Bo\n\
    customer,10,1,T10,Lee,Ann\n\
    account,100,10,1,Main,1,10000.00\n\
    security,ABC,Acme,NYSE,Tech,10.00\n\
    charge,TMB,1,5.00\n\
    charge,TMS,1,5.00\n\
    charge,TSL,1,5.00\n\
    charge,TLS,1,5.00\n\
    charge,TLB,1,5.00\n\
    band,1,TMB,NYSE,1,999999,100\n\
    band,1,TMS,NYSE,1,999999,100\n\
    band,1,TSL,NYSE,1,999999,100\n\
    band,1,TLS,NYSE,1,999999,100\n\
    band,1,TLB,NYSE,1,999999,100\n\
    taxrate,1,State,20000\n\
    custtax,10,1\n\
    end,16\n";

/// The lines of the batch `SET` on a new desk.
pub const SET_LINES: &str =
    "1,ok,1709251200000\n2,ok,1709251200001\n3,ok,1709251200002\n4,ok,1709251200003\n\
    5,ok,1709251200004\n6,ok,1709251200005\n7,ok,1709251200006\n8,ok,1709251200007\n\
    9,ok,1709251200008\n10,ok,1709251200009\n11,ok,1709251200010\n12,ok,1709251200011\n\
    13,ok,1709251200012\n14,ok,1709251200013\n15,ok,1709251200014\n16,ok,1709251200015\n\
    end,16,0,0\n";

/// The rows of two purchases, a sale of a part, a sale of more than is held, a purchase of more
/// than is sold short, and a sale of all.
pub const ROWS: [&str; 12] = [
    "order,100,TMB,ABC,100,,cash,fifo,Ann,Lee,T10",
    "result,1,10.10",
    "order,100,TMB,ABC,200,,cash,fifo,Ann,Lee,T10",
    "result,2,12.00",
    "order,100,TMS,ABC,150,,cash,fifo,Ann,Lee,T10",
    "result,3,13.00",
    "order,100,TMS,ABC,400,,cash,fifo,Ann,Lee,T10",
    "result,4,13.00",
    "order,100,TMB,ABC,300,,cash,fifo,Ann,Lee,T10",
    "result,5,11.00",
    "order,100,TMS,ABC,50,,cash,fifo,Ann,Lee,T10",
    "result,6,11.00",
];

/// The replies to `ROWS`, without the row's number and the word `ok`.
pub const LINES: [&str; 12] = [
    "1709251200016,1,SBMT,10.00,0.00,0.00,0.00,10.00,5.00,10000.00",
    "1709251200017,10.10,0.00,-1025.10,2024-03-03,0.00,0.00,8974.90",
    "1709251200018,2,SBMT,10.00,0.00,0.00,0.00,20.00,5.00,9974.90",
    "1709251200019,24.00,0.00,-2429.00,2024-03-03,0.00,0.00,6545.90",
    "1709251200020,3,SBMT,10.00,1610.00,1500.00,0.00,15.00,5.00,9545.90",
    "1709251200021,19.50,68.00,1857.50,2024-03-03,1610.00,1950.00,8403.40",
    "1709251200022,4,SBMT,10.00,1800.00,1500.00,0.00,40.00,5.00,9903.40",
    "1709251200023,52.00,30.00,5113.00,2024-03-03,1800.00,1950.00,13516.40",
    "1709251200024,5,SBMT,10.00,2500.00,3250.00,150.00,30.00,5.00,11016.40",
    "1709251200025,33.00,100.00,-3438.00,2024-03-03,2750.00,3250.00,10078.40",
    "1709251200026,6,SBMT,10.00,550.00,500.00,0.00,5.00,5.00,10578.40",
    "1709251200027,5.50,0.00,539.50,2024-03-03,550.00,550.00,10617.90",
];

/// The rows of three trades: the first two purchases of `ROWS`, and their first sale, which closes
/// the last lot first.
pub const LAST_FIRST_ROWS: [&str; 6] = [
    "order,100,TMB,ABC,100,,cash,fifo,Ann,Lee,T10",
    "result,1,10.10",
    "order,100,TMB,ABC,200,,cash,fifo,Ann,Lee,T10",
    "result,2,12.00",
    "order,100,TMS,ABC,150,,cash,lifo,Ann,Lee,T10",
    "result,3,13.00",
];

/// The replies to `LAST_FIRST_ROWS`, without the row's number and the word `ok`.
pub const LAST_FIRST_LINES: [&str; 6] = [
    "1709251200016,1,SBMT,10.00,0.00,0.00,0.00,10.00,5.00,10000.00",
    "1709251200017,10.10,0.00,-1025.10,2024-03-03,0.00,0.00,8974.90",
    "1709251200018,2,SBMT,10.00,0.00,0.00,0.00,20.00,5.00,9974.90",
    "1709251200019,24.00,0.00,-2429.00,2024-03-03,0.00,0.00,6545.90",
    "1709251200020,3,SBMT,10.00,1800.00,1500.00,0.00,15.00,5.00,9545.90",
    "1709251200021,19.50,30.00,1895.50,2024-03-03,1800.00,1950.00,8441.40",
];

/// Appends two rows, each with a line feed: a market order for cash to buy `shares` shares of ABC
/// for the account with the id `account`, and the result at 10.00 of the trade with the id `trade`.
pub fn append_purchase(
    batch: &mut String,
    account: u64,
    shares: u64,
    trade: u64,
) -> Result<(), Fail> {
    writeln!(
        batch,
        "order,{account},TMB,ABC,{shares},,cash,fifo,Ann,Lee,T10\nresult,{trade},10.00"
    )?;
    Ok(())
}

/// Appends the end record of a batch of `rows` rows, with a line feed.
pub fn append_end_record(batch: &mut String, rows: u64) -> Result<(), Fail> {
    writeln!(batch, "end,{rows}")?;
    Ok(())
}

// Appends purchases of one share (`append_purchase`), with the trade ids from `first` on.
fn append_purchases(
    batch: &mut String,
    account: u64,
    first: u64,
    purchases: u64,
) -> Result<(), Fail> {
    for n in 0..purchases {
        append_purchase(batch, account, 1, first.saturating_add(n))?;
    }
    Ok(())
}

/// Returns the text of a batch that adds an account, and buys one share of ABC at 10.00 for it
/// `purchases` times, with the trade ids from `first` on.
pub(crate) fn format_purchases(
    alloc: Global,
    account: u64,
    first: u64,
    purchases: u64,
) -> Result<String, Fail> {
    let rows = purchases.saturating_mul(2).saturating_add(1);
    let mut batch = format!(in alloc;
        "batch,P{account}\naccount,{account},10,1,Side,1,10000.00\n"
    )?;
    append_purchases(&mut batch, account, first, purchases)?;
    append_end_record(&mut batch, rows)?;
    Ok(batch)
}

/// Returns the text of a batch with the name T and these rows.
pub fn format_batch(alloc: Global, rows: &[&str]) -> Result<String, Fail> {
    let mut batch = String::from_str(alloc, "batch,T\n")?;
    for row in rows {
        batch.push_str(row)?;
        batch.push_str("\n")?;
    }
    append_end_record(&mut batch, rows.len() as u64)?;
    Ok(batch)
}

fn append_reply_line(
    told: &mut String,
    number: u64,
    word: &str,
    line: &str,
) -> Result<(), AllocError> {
    writeln!(told, "{number},{word},{line}")
}

// Appends a line for each reply in `lines`, in the form in which a batch writes it: the number of
// its row, counted from `first`, the word `word`, and the reply.
fn append_reply_lines(
    told: &mut String,
    first: u64,
    word: &str,
    lines: &[&str],
) -> Result<(), AllocError> {
    let mut number = first;
    for line in lines {
        append_reply_line(told, number, word, line)?;
        number = number.saturating_add(1);
    }
    Ok(())
}

/// Returns all lines that a batch writes on a desk that has accepted its first `booked` rows
/// before, or all of its rows if it has fewer: the stored replies to these rows, the other rows
/// accepted, and the end line. `lines` are the replies to all rows, without the row's number and
/// the word `ok`.
pub fn lines_of_retry(alloc: Global, lines: &[&str], booked: usize) -> Result<String, Fail> {
    let (again, rest) = lines.split_at(booked.min(lines.len()));
    let mut told = String::new(alloc);
    append_reply_lines(&mut told, 1, "again", again)?;
    append_reply_lines(
        &mut told,
        (again.len() as u64).saturating_add(1),
        "ok",
        rest,
    )?;
    writeln!(told, "end,{},{},0", rest.len(), again.len())?;
    Ok(told)
}
