//! A batch for tests that interrupt it, and its lines, also those of its retry.

use crate::worked::lines_of_retry;
use std::alloc::Global;
use std::test::Fail;

/// A purchase and its result, a pending order, a tick that triggers it, its result, and a text
/// update that would restore the old text if it were executed twice.
pub const ROWS: [&str; 6] = [
    "order,100,TMB,ABC,100,,cash,fifo,Ann,Lee,T10",
    "result,1,10.10",
    "order,100,TSL,ABC,50,9.50,cash,fifo,Ann,Lee,T10",
    "feed,ABC,9.50,100",
    "result,2,12.10",
    "upname,1",
];

// The replies to `ROWS`, without the row's number and the word `ok`.
const LINES: [&str; 6] = [
    "1709251200016,1,SBMT,10.00,0.00,0.00,0.00,10.00,5.00,10000.00",
    "1709251200017,10.10,0.00,-1025.10,2024-03-03,0.00,0.00,8974.90",
    "1709251200018,2,PNDG,9.50,505.00,475.00,0.00,4.75,5.00,9974.90",
    "1709251200019,2",
    "1709251200020,6.05,20.00,573.95,2024-03-03,505.00,605.00,9548.85",
    "1709251200021,1",
];

/// Returns all lines of the batch of `ROWS` on a desk that has accepted its first `booked` rows, or
/// all six if `booked` is greater, after the batch `SET`: the stored replies to these rows, the
/// other rows accepted, and the end line.
pub fn all_lines_of_retry(alloc: Global, booked: usize) -> Result<String, Fail> {
    lines_of_retry(alloc, &LINES, booked)
}
