//! Tests of batches that are cut: readers and writers that fail at each byte.

use brk_desk::Desk;
use brk_import::{BatchFault, Counts, FaultKind};
use brk_tests_desks::desks::{
    Case, Step, connection_of_desk, desk_with_reference_data, expect_batch_result, open_in_memory,
    run_batch_of_reader,
};
use brk_tests_desks::faulty::{Cut, Failing, Narrow};
use brk_tests_desks::retried::{ROWS, all_lines_of_retry};
use brk_tests_desks::tables::expect_all_tables;
use brk_tests_desks::worked::format_batch;
use brk_tests_unit::expect::expect;
use brk_tests_unit::{Results, run_test};
use sqlite::{Alter, Connection};
use std::alloc::Global;
use std::io::ErrorKind;
use std::test::Fail;

// The rows of the tables after the batch, without the reference tables.
const TABLES: &str = "DESK\n1,3,1709251200021\n\
    BROKER\n1,Bo,2,1615\n\
    CUSTOMER_ACCOUNT\n100,10,1,Main,1,1000000,954885\n\
    LAST_TRADE\nABC,1709251200019,950,100\n\
    TRADE\n\
    1,1709251200017,CMPT,TMB,1,ABC,100,1000,100,Ann X Lee,1010,500,1010,0,0\n\
    2,1709251200020,CMPT,TSL,1,ABC,50,950,100,Ann Lee,1210,500,605,2000,0\n\
    TRADE_HISTORY\n1,CMPT,1709251200017\n1,SBMT,1709251200016\n\
    2,CMPT,1709251200020\n2,PNDG,1709251200018\n2,SBMT,1709251200019\n\
    TRADE_REQUEST\n\
    HOLDING\n1,100,ABC,1709251200017,1010,50\n\
    HOLDING_SUMMARY\n100,ABC,50\n\
    HOLDING_HISTORY\n1,1,0,100\n1,2,100,50\n\
    SETTLEMENT\n1,Cash Account,19785,-102510\n2,Cash Account,19785,57395\n\
    CASH_TRANSACTION\nCASH_MOVE\n\
    1,100,1,1709251200017,-102510,Market-Buy 100 shares of Acme\n\
    2,100,2,1709251200020,57395,Stop-Loss 50 shares of Acme\n\
    SETTLE_RULE\n\
    KEPT WHERE K_BATCH <> 'SET'\n\
    T,1,order\x1f100\x1fTMB\x1fABC\x1f100\x1f\x1fcash\x1ffifo\x1fAnn\x1fLee\x1fT10,\
    1709251200016,1,SBMT,10.00,0.00,0.00,0.00,10.00,5.00,10000.00\n\
    T,2,result\x1f1\x1f10.10,1709251200017,10.10,0.00,-1025.10,2024-03-03,0.00,0.00,8974.90\n\
    T,3,order\x1f100\x1fTSL\x1fABC\x1f50\x1f9.50\x1fcash\x1ffifo\x1fAnn\x1fLee\x1fT10,\
    1709251200018,2,PNDG,9.50,505.00,475.00,0.00,4.75,5.00,9974.90\n\
    T,4,feed\x1fABC\x1f9.50\x1f100,1709251200019,2\n\
    T,5,result\x1f2\x1f12.10,1709251200020,6.05,20.00,573.95,2024-03-03,505.00,605.00,9548.85\n\
    T,6,upname\x1f1,1709251200021,1\n";

// For each row of `ROWS`, the number of bytes of the batch up to the end of the record after it, with
// which the row is decided, and of the lines up to the end of its line.
const ENDS: [(usize, usize); 6] = [
    (68, 67),
    (116, 135),
    (134, 203),
    (149, 224),
    (158, 294),
    (164, 315),
];

// The batch of `ROWS`, and all its lines on a desk after the batch `SET`.
#[derive(Clone, Copy)]
struct Whole<'a> {
    batch: &'a str,
    lines: &'a str,
}

// Executes the batch on a desk, with a reader or a writer that fails once, as `cut` says, after
// `at` bytes. Returns the bytes that the batch wrote, and the counts of its rows or the fault.
fn run_cut_batch<S: Alter>(
    alloc: Global,
    desk: &mut Desk<S>,
    batch: &[u8],
    cut: Cut,
    at: usize,
) -> (Vec<u8>, Result<Counts, BatchFault>) {
    match cut {
        Cut::Reader(kind) => {
            let mut told = Vec::new(alloc);
            let reader = Failing::reader_failing_once(batch, at, kind);
            let ended = run_batch_of_reader(alloc, reader, &mut told, desk);
            (told, ended)
        }
        Cut::Writer(kind) => {
            let mut writer = Narrow::new(alloc, at, kind);
            let ended = run_batch_of_reader(alloc, batch, &mut writer, desk);
            (writer.taken, ended)
        }
    }
}

// Returns the number of the rows that are decided if `cut` fails the batch after `at` bytes, the kind
// of the fault, and the number of bytes that are written. A row is executed before its line is
// written.
fn fault_of_cut(cut: Cut, at: usize) -> (usize, FaultKind, usize) {
    let (whole, written) = cut.whole_outputs(&ENDS, at);
    match cut {
        Cut::Reader(_) => (whole, FaultKind::Read, written),
        Cut::Writer(_) => (whole.saturating_add(1).min(6), FaultKind::Write, written),
    }
}

// Executes the batch, cut after `at` bytes, on a desk after the batch `SET`. Checks that it fails
// with the fault of the cut (`fault_of_cut`) after exactly the lines before. Returns the number of
// the rows that are decided.
fn expect_fault_of_cut<S: Alter>(
    alloc: Global,
    desk: &mut Desk<S>,
    whole: Whole<'_>,
    cut: Cut,
    at: usize,
) -> Result<usize, Fail> {
    let (decided, kind, written) = fault_of_cut(cut, at);
    let rows = decided as u64;
    let (told, ended) = run_cut_batch(alloc, desk, whole.batch.as_bytes(), cut, at);
    expect(
        ended == Err(BatchFault { rows, kind })
            && whole.lines.as_bytes().get(..written) == Some(told.as_slice()),
        format_args!("{}: the fault, or the lines", cut.case_at(at)),
    )?;
    Ok(decided)
}

// Executes the whole batch on a desk that has accepted its first `booked` rows before. Checks that
// the batch completes, and that these rows have their stored replies and the others are accepted
// (`all_lines_of_retry`).
fn expect_lines_of_retry<S: Alter>(
    alloc: Global,
    desk: &mut Desk<S>,
    case: Case<'_>,
    batch: &[u8],
    booked: usize,
) -> Result<(), Fail> {
    let lines = all_lines_of_retry(alloc, booked)?;
    let step = Step {
        batch,
        lines: lines.as_str(),
    };
    expect_batch_result(alloc, desk, case, step)
}

// Executes the batch, cut after `at` bytes, on a new desk in the database of a connection, after
// the batch `SET`, and retries it. Checks the fault, that the retry completes with the stored
// replies to the decided rows, and that the tables are those after one execution.
fn expect_retry_after_cut<S: Alter + Drop>(
    alloc: Global,
    conn: Option<Connection<S>>,
    whole: Whole<'_>,
    cut: Cut,
    at: usize,
) -> Result<(), Fail> {
    let case = cut.case_at(at);
    let mut desk = desk_with_reference_data(alloc, conn)?;
    let rows = expect_fault_of_cut(alloc, &mut desk, whole, cut, at)?;
    expect_lines_of_retry(alloc, &mut desk, case, whole.batch.as_bytes(), rows)?;
    expect_all_tables(alloc, &mut connection_of_desk(desk), case, TABLES)
}

// Checks `expect_retry_after_cut` for each number of bytes below `places` and each of `cuts`, each
// time on a new desk in memory.
fn expect_retries(
    alloc: Global,
    whole: Whole<'_>,
    cuts: &[Cut],
    places: usize,
) -> Result<(), Fail> {
    for at in 0..places {
        for cut in cuts {
            expect_retry_after_cut(alloc, open_in_memory(alloc), whole, *cut, at)?;
        }
    }
    Ok(())
}

// Checks, for each byte of a batch before which the reader fails or is interrupted, that the batch
// fails with `Read` after exactly the lines of the decided rows, and that its retry completes.
fn a_batch_can_be_retried_after_a_read_fault(alloc: Global) -> Result<(), Fail> {
    let cuts = [
        Cut::Reader(ErrorKind::Other),
        Cut::Reader(ErrorKind::Interrupted),
    ];
    let (batch, lines) = (format_batch(alloc, &ROWS)?, all_lines_of_retry(alloc, 0)?);
    let whole = Whole {
        batch: batch.as_str(),
        lines: lines.as_str(),
    };
    expect_retries(alloc, whole, &cuts, batch.len())
}

// Checks, for each byte of the lines of a batch at which the writer fails, is interrupted or
// accepts no byte, that the batch fails with `Write`, that exactly the bytes before are written,
// and that its retry completes: a row whose line was not written remains committed.
fn a_batch_can_be_retried_after_a_write_fault(alloc: Global) -> Result<(), Fail> {
    let cuts = [
        Cut::Writer(None),
        Cut::Writer(Some(ErrorKind::Other)),
        Cut::Writer(Some(ErrorKind::Interrupted)),
    ];
    let (batch, lines) = (format_batch(alloc, &ROWS)?, all_lines_of_retry(alloc, 0)?);
    let whole = Whole {
        batch: batch.as_str(),
        lines: lines.as_str(),
    };
    expect_retries(alloc, whole, &cuts, lines.len())
}

pub fn run_tests(rt: &HostRuntime, results: &mut Results) {
    let alloc = rt.alloc();
    run_test!(
        rt,
        results,
        a_batch_can_be_retried_after_a_read_fault(alloc)
    );
    run_test!(
        rt,
        results,
        a_batch_can_be_retried_after_a_write_fault(alloc)
    );
}
