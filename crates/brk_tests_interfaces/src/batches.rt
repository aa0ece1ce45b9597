ghost use Rattle.std.specs.Prelude.{◌≡◌, ◌==◌, ℕ, Ok, Err, codes, length, if◌then◌else◌};
ghost use Rattle.brk_money.specs.declared.refusal.Limit.TheVariants as limits;
ghost use Rattle.brk_money.specs.declared.refusal.Refusal.TheVariants as refusals;
ghost use Rattle.brk_model.specs.Commands.{Again, Booked, Done, Refused};
ghost use Rattle.brk_tests_interfaces.specs.declared.batches.Asked.{Asked};
ghost use Rattle.brk_tests_interfaces.specs.declared.batches.Asked.TheVariants as asks;

use brk_import_engine::{
    BatchFault, Clock, Counts, FaultKind, MAXIMUM_INPUT_BYTES, Rows, execute_batch_on_desk,
};
use brk_money::{Fault, Limit, Planned, Refusal, Stamp};
use brk_ref::{Answer, Key};
use brk_tests_unit::expect::{expect, expect_equal};
use brk_tests_unit::{Results, run_test};
use std::alloc::{AllocError, Global};
use std::io;
use std::io::{Read, Write};
use std::test::Fail;

// A clock that always returns one timestamp.
#[derive(Drop)]
struct Fixed {
    at: Stamp,
}

impl Clock for Fixed {
    ghost gives = { λ old moment new. (moment ≡ old.at) × (new ≡ old) };

    // Returns the fixed timestamp.
    fn now(&mut self) -> Stamp {
        self.at
    }
}

// A command of the test desk below, which determines the answer to it.
#[derive(Clone, Copy, Debug, PartialEq, Eq)]
enum Asked {
    // It is accepted, and the desk stores its timestamp.
    Put,
    // It has the stored reply `5,CNCL`.
    Repeat,
    // It is refused with `Range` (14), `accounts`.
    Refuse,
    // It fails with `Store`.
    Break,
}

// A desk for tests of batches, which stores the timestamp of its last accepted command. The number
// of fields of a row determines its command.
#[derive(Drop)]
struct Last {
    moment: u64,
}

impl Rows for Last {
    type Desk = Last;

    type Command = Asked;

    type Reply = u64;

    ghost Base = { ℕ };

    ghost Asked = { Asked };

    ghost meets_disk_assumption = { λ _. Unit {0} };

    ghost represents = { λ desk base. base ≡ desk.moment };

    ghost crash_exposes_only = { λ _ _ _. Unit {0} };

    ghost acts = { λ _ _ _ _ _. Unit {0} };

    ghost asked = { λ command. command };

    ghost told = { λ moment. Booked moment };

    ghost form = { λ fields.
        if length fields == 3 then Ok asks.Put
        else if length fields == 4 then Ok asks.Repeat
        else if length fields == 5 then Ok asks.Refuse
        else if length fields == 6 then Ok asks.Break
        else if length fields == 7 then Err refusals.BadQty
        else Err refusals.BadText };

    ghost step = { λ base now asked key. elim asked [
      | asks.Put ↦ (Done (Booked now), now)
      | asks.Repeat ↦ (Again (codes "5,CNCL"), base)
      | asks.Refuse ↦ (Refused (refusals.Range limits.Accounts), base)
      | asks.Break ↦ (Again (codes ""), base)
    ] };

    // Returns the command `Put`, `Repeat`, `Refuse` or `Break` for a row of 3, 4, 5 or 6 fields.
    // Refuses 7 fields with `BadQty` (8), fails at 9 fields with `Memory`, and refuses any other
    // number with `BadText` (18).
    fn parse(_alloc: Global, row: &[&[u8]]) -> Planned<Asked> {
        match row.len() {
            3 => Ok(Ok(Asked::Put)),
            4 => Ok(Ok(Asked::Repeat)),
            5 => Ok(Ok(Asked::Refuse)),
            6 => Ok(Ok(Asked::Break)),
            7 => Ok(Err(Refusal::BadQty)),
            9 => Err(Fault::Memory),
            _ => Ok(Err(Refusal::BadText)),
        }
    }

    // Executes the command: stores the timestamp `now` and returns it as the reply (`Put`), returns
    // the stored reply `5,CNCL` (`Repeat`), or refuses with `Range` (14), `accounts` (`Refuse`).
    // Only `Put` changes the desk. Fails with `Store` for `Break`, and with `Memory` if memory runs
    // out.
    fn call(
        desk: &mut Last,
        alloc: Global,
        now: Stamp,
        command: &Asked,
        _key: &Key,
    ) -> Result<Answer<u64>, Fault> {
        match *command {
            Asked::Put => {
                desk.moment = now.get() as u64;
                Ok(Answer::Done(desk.moment))
            }
            Asked::Repeat => {
                let line = String::from_str(alloc, "5,CNCL")?;
                Ok(Answer::Again(line))
            }
            Asked::Refuse => Ok(Answer::Refused(Refusal::Range(Limit::Accounts))),
            Asked::Break => Err(Fault::Store),
        }
    }

    // Returns the timestamp of an accepted command in decimal digits.
    #[tactic(auto, unfolding(brk_model::specs::Rows::reply_fields))]
    fn reply_line(alloc: Global, reply: &u64) -> Result<String, AllocError> {
        format!(in alloc; "{reply}")
    }
}

// A reader that returns its text byte by byte, and fails once, with an error of the kind `kind`,
// before the byte at the position `cut`.
#[derive(Drop)]
struct Flaky<'a> {
    text: &'a [u8],
    at: usize,
    cut: usize,
    kind: io::ErrorKind,
}

impl<'a> Read for Flaky<'a> {
    // Copies the next byte of the text to the buffer and returns 1, or returns 0 if the text has no
    // more bytes or the buffer is empty. Fails once, with an error of the kind `kind`, at the
    // position `cut`.
    fn read(&mut self, buf: &mut [u8]) -> io::Result<usize> {
        if self.cut == self.at {
            self.cut = usize::MAX;
            return Err(io::Error::from(self.kind));
        }
        match (self.text.get(self.at), buf.first_mut()) {
            (Some(byte), Some(place)) => {
                *place = *byte;
                self.at = self.at.saturating_add(1);
                Ok(1)
            }
            _ => Ok(0),
        }
    }
}

// A reader of a header, and then of empty lines up to the limit of an input, which ends with
// `tail`. A read beyond the limit fails.
#[derive(Drop)]
struct Long {
    at: u64,
    tail: &'static [u8],
}

impl Long {
    // Returns the byte at the position `at` of the input: a byte of the header or of the tail, and
    // a line feed at any other position.
    fn byte_at_position(&self, at: u64) -> u8 {
        let header = b"batch,A\n";
        if at < 8 {
            return header[at as usize];
        }
        let left = MAXIMUM_INPUT_BYTES.saturating_sub(at) as usize;
        if left > self.tail.len() {
            return b'\n';
        }
        match self.tail.get(self.tail.len() - left) {
            Some(byte) => *byte,
            None => b'\n',
        }
    }
}

impl Read for Long {
    // Copies the next bytes to the buffer, up to its length and the limit of an input, fills the
    // rest of the buffer with line feeds, and returns the number of the bytes. Fails if all bytes
    // up to the limit were read before.
    fn read(&mut self, buf: &mut [u8]) -> io::Result<usize> {
        if self.at >= MAXIMUM_INPUT_BYTES {
            return Err(io::Error::from(io::ErrorKind::Other));
        }
        let mut at = self.at;
        for place in buf.iter_mut() {
            *place = self.byte_at_position(at);
            at = at.saturating_add(1);
        }
        let n = buf
            .len()
            .min(MAXIMUM_INPUT_BYTES.saturating_sub(self.at) as usize);
        self.at = self.at.saturating_add(n as u64);
        Ok(n)
    }
}

// A writer that accepts at most three bytes at a call, and `most` in total. Each later call fails
// with `error`, or accepts no byte if `error` is `None`.
#[derive(Drop)]
struct Choppy {
    got: Vec<u8>,
    most: usize,
    error: Option<io::ErrorKind>,
}

impl Write for Choppy {
    // Appends at most three bytes to `got`, up to `most` bytes in total, and returns their number.
    // If `got` has `most` bytes, fails with `error`, or returns 0 if `error` is `None`.
    fn write(&mut self, buf: &[u8]) -> io::Result<usize> {
        let room = self.most.saturating_sub(self.got.len());
        if room == 0 {
            return match self.error {
                Some(kind) => Err(io::Error::from(kind)),
                None => Ok(0),
            };
        }
        let n = buf.len().min(3).min(room);
        self.got.extend_from_slice(&buf[..n])?;
        Ok(n)
    }

    // Does nothing.
    fn flush(&mut self) -> io::Result<()> {
        Ok(())
    }
}

// Executes the batch that `reader` returns on a new test desk, at the timestamp 7, and writes its
// lines to `out`. Returns the counts of its rows, or the fault.
fn run_batch_on_new_desk<R: Read + Drop, W: Write>(
    alloc: Global,
    reader: R,
    out: &mut W,
) -> Result<Counts, BatchFault> {
    let mut clock = Fixed {
        at: Stamp::nearest(7),
    };
    let mut desk = Last { moment: 0 };
    execute_batch_on_desk::<R, W, Fixed, Last>(alloc, reader, out, &mut clock, &mut desk)
}

// Checks that the batch that `reader` returns has the result `wanted` on a new test desk, at the
// timestamp 7, and that it writes exactly the bytes `lines`. Fails with both results or with both
// texts if not.
fn expect_batch_result<R: Read + Drop>(
    alloc: Global,
    reader: R,
    wanted: Result<Counts, BatchFault>,
    lines: &[u8],
) -> Result<(), Fail> {
    let mut out = Vec::new(alloc);
    let done = run_batch_on_new_desk(alloc, reader, &mut out);
    expect_equal(done, wanted)?;
    expect_equal(out.as_slice(), lines)
}

// Returns the result of a completed batch with these numbers of accepted, repeated and refused
// rows.
fn batch_counts(ok: u64, again: u64, no: u64) -> Result<Counts, BatchFault> {
    Ok(Counts { ok, again, no })
}

// Returns the result of a batch that failed with the fault `kind` after `rows` decided rows.
fn batch_fault_result(rows: u64, kind: FaultKind) -> Result<Counts, BatchFault> {
    Err(BatchFault { rows, kind })
}

// A batch with rows of 3, 4, 5, 1 and 7 fields: an accepted one, a repeated one and three refused
// ones. The record after the end record is not executed.
const WHOLE: &[u8] =
    b"\xef\xbb\xbfbatch,A\r\nput,1,\"a, b\"\r\n\r\nput,1,2,3\nrefuse,,,,\n\"\"\r\nqty,,,,,,\nend,5\r\nput,2,c\n";

// The lines of the batch `WHOLE`.
const LINES: &[u8] = b"1,ok,7\n2,again,5,CNCL\n3,no,14,accounts\n4,no,18\n5,no,8\nend,1,1,3\n";

// Checks that each row of the batch `WHOLE`, which has an accepted, a repeated and three refused
// rows, has its line, followed by the end line of the counts, both if the batch is read whole and
// if it is read byte by byte.
fn each_row_of_a_batch_gets_a_line(alloc: Global) -> Result<(), Fail> {
    expect_batch_result(alloc, WHOLE, batch_counts(1, 1, 3), LINES)?;
    let slow = Flaky {
        text: WHOLE,
        at: 0,
        cut: usize::MAX,
        kind: io::ErrorKind::Other,
    };
    expect_batch_result(alloc, slow, batch_counts(1, 1, 3), LINES)
}

// Checks that a batch without rows writes only its end line.
fn an_empty_batch_gets_an_end_line(alloc: Global) -> Result<(), Fail> {
    expect_batch_result(
        alloc,
        b"batch,Z\nend,0".as_slice(),
        batch_counts(0, 0, 0),
        b"end,0,0,0\n",
    )
}

// Inputs without an end record, each with the number of their rows and the lines of these.
const CUT_INPUTS: [(&[u8], u64, &[u8]); 2] = [
    (
        b"batch,C\nbroker,2,Cy\nbroker,3\nbroker,4,D",
        3,
        b"1,ok,7\n2,no,18\n3,no,18\n",
    ),
    (b"batch,C\n", 0, b""),
];

// Checks, for the two inputs of `CUT_INPUTS`, that a row without a record after it is refused with
// `BadText` (18), and that the batch fails with `NoEnd` after the lines of its rows, if it has any.
fn the_last_row_of_a_cut_input_is_refused(alloc: Global) -> Result<(), Fail> {
    for (text, rows, lines) in &CUT_INPUTS {
        let wanted = batch_fault_result(*rows, FaultKind::NoEnd);
        expect_batch_result(alloc, *text, wanted, lines)?;
    }
    Ok(())
}

// Batches whose header is missing or malformed.
const WRONG_HEADERS: [&[u8]; 13] = [
    b"",
    b"\n\r\n",
    b"\x00\xff\xfe no csv at all",
    b"broker,2,Cy\nend,1\n",
    b"batch\nend,0\n",
    b"batch,\nend,0\n",
    b"batch,A,B\nend,0\n",
    b"batch,A,\nend,0\n",
    b"batch,A B\nend,0\n",
    b"batch,A/B\nend,0\n",
    b"batch,\xc3\x84\nend,0\n",
    b"Batch,A\nend,0\n",
    b"batch,12345678901234567890123456789012345678901\nend,0\n",
];

// Batches without rows that have a header.
const HEADERS: [&[u8]; 2] = [
    b"batch,aZ09.-_\nend,0\n",
    b"batch,1234567890123456789012345678901234567890\nend,0\n",
];

// Checks that each batch of `WRONG_HEADERS`, whose header is missing or malformed, fails with
// `BadHeader` and writes nothing, and that the two correct headers of `HEADERS` are accepted.
fn a_wrong_header_is_a_fault(alloc: Global) -> Result<(), Fail> {
    for text in &WRONG_HEADERS {
        let wanted = batch_fault_result(0, FaultKind::BadHeader);
        expect_batch_result(alloc, *text, wanted, b"")?;
    }
    for text in &HEADERS {
        expect_batch_result(alloc, *text, batch_counts(0, 0, 0), b"end,0,0,0\n")?;
    }
    Ok(())
}

// Batches of one row whose end record is malformed or has a wrong count.
const WRONG_ENDS: [&[u8]; 5] = [
    b"batch,A\nput,1,2\nend,01\n",
    b"batch,A\nput,1,2\nend,1,\n",
    b"batch,A\nput,1,2\nend\n",
    b"batch,A\nput,1,2\nend,2\n",
    b"batch,A\nput,1,2\nend,",
];

// Checks that each batch of `WRONG_ENDS`, whose end record is malformed or has a wrong count, fails
// with `BadEnd` after the line of its row.
fn a_wrong_end_record_is_a_fault(alloc: Global) -> Result<(), Fail> {
    for text in &WRONG_ENDS {
        let wanted = batch_fault_result(1, FaultKind::BadEnd);
        expect_batch_result(alloc, *text, wanted, b"1,ok,7\n")?;
    }
    Ok(())
}

// A batch of two rows.
const READ: &[u8] = b"batch,A\nput,1,2\nput,3,4\nend,2\n";

// Positions at which a reader of `READ` fails once, each with the number of decided rows, their
// lines, and the kind of the error.
const FAILED_READS: [(usize, u64, &[u8], io::ErrorKind); 5] = [
    (0, 0, b"", io::ErrorKind::Other),
    (5, 0, b"", io::ErrorKind::Interrupted),
    (15, 0, b"", io::ErrorKind::Interrupted),
    (24, 1, b"1,ok,7\n", io::ErrorKind::Interrupted),
    (29, 1, b"1,ok,7\n", io::ErrorKind::Other),
];

// Checks, for each of five positions at which a reader fails once, that the batch fails with `Read`
// and the number of decided rows, and that exactly the lines of these rows are written.
fn a_failed_read_ends_the_batch(alloc: Global) -> Result<(), Fail> {
    for (cut, rows, lines, kind) in &FAILED_READS {
        let reader = Flaky {
            text: READ,
            at: 0,
            cut: *cut,
            kind: *kind,
        };
        let wanted = batch_fault_result(*rows, FaultKind::Read);
        expect_batch_result(alloc, reader, wanted, lines)?;
    }
    Ok(())
}

// Numbers of bytes after which a writer of the lines of `WHOLE` fails, each with the number of
// decided rows, and with the kind of the error or none.
const FAILED_WRITES: [(usize, u64, Option<io::ErrorKind>); 6] = [
    (0, 1, None),
    (3, 1, Some(io::ErrorKind::Interrupted)),
    (7, 2, None),
    (30, 3, Some(io::ErrorKind::BrokenPipe)),
    (50, 5, Some(io::ErrorKind::Other)),
    (61, 5, None),
];

// Checks that the batch `WHOLE` fails with `Write` after `rows` decided rows if its writer accepts
// `most` bytes and then fails with `error`, or accepts no byte if `error` is `None`, and that
// exactly the first `most` bytes of its lines are written. Fails with both results or with `most`
// if not.
fn expect_batch_write_fault(
    alloc: Global,
    most: usize,
    rows: u64,
    error: Option<io::ErrorKind>,
) -> Result<(), Fail> {
    let mut out = Choppy {
        got: Vec::new(alloc),
        most,
        error,
    };
    let done = run_batch_on_new_desk(alloc, WHOLE, &mut out);
    expect_equal(done, batch_fault_result(rows, FaultKind::Write))?;
    expect(
        Some(out.got.as_slice()) == LINES.get(..most),
        format_args!("other bytes than the first {most}"),
    )
}

// Checks, for each of six numbers of bytes after which a writer fails, that the batch fails with
// `Write` and the number of decided rows, and that exactly this number of bytes of its lines is
// written.
fn a_failed_write_ends_the_batch(alloc: Global) -> Result<(), Fail> {
    for (most, rows, error) in &FAILED_WRITES {
        expect_batch_write_fault(alloc, *most, *rows, *error)?;
    }
    Ok(())
}

// Batches whose second row meets a fault of the desk, with the fault.
const DESK_FAULTS: [(&[u8], Fault); 2] = [
    (
        b"batch,A\nput,1,2\nbreak,,,,,\nput,3,4\nend,3\n",
        Fault::Store,
    ),
    (b"batch,A\nput,1,2\nparse,,,,,,,,\nend,2\n", Fault::Memory),
];

// Checks that the fault `Store` of a call of the desk and the fault `Memory` of the parsing of a
// row each end the batch after the line of the row before.
fn a_fault_of_the_desk_ends_the_batch(alloc: Global) -> Result<(), Fail> {
    for (text, fault) in &DESK_FAULTS {
        let wanted = batch_fault_result(1, FaultKind::Desk(*fault));
        expect_batch_result(alloc, *text, wanted, b"1,ok,7\n")?;
    }
    Ok(())
}

// Checks that a batch whose end record ends at the limit of an input completes, and that no byte
// beyond the limit is read.
fn input_beyond_the_limit_is_not_read(alloc: Global) -> Result<(), Fail> {
    let whole = Long {
        at: 0,
        tail: b"put,1,2\nend,1",
    };
    expect_batch_result(alloc, whole, batch_counts(1, 0, 0), b"1,ok,7\nend,1,0,0\n")
}

// Checks that the batch `WHOLE` completes over a reader that fails at the first byte after the line
// of the end record: nothing is read there.
fn input_after_the_end_record_is_not_read(alloc: Global) -> Result<(), Fail> {
    let after = b"put,2,c\n".len();
    let reader = Flaky {
        text: WHOLE,
        at: 0,
        cut: WHOLE.len().saturating_sub(after),
        kind: io::ErrorKind::Other,
    };
    expect_batch_result(alloc, reader, batch_counts(1, 1, 3), LINES)
}

pub fn run_tests(rt: &HostRuntime, results: &mut Results) {
    let alloc = rt.alloc();
    run_test!(rt, results, each_row_of_a_batch_gets_a_line(alloc));
    run_test!(rt, results, an_empty_batch_gets_an_end_line(alloc));
    run_test!(rt, results, the_last_row_of_a_cut_input_is_refused(alloc));
    run_test!(rt, results, a_wrong_header_is_a_fault(alloc));
    run_test!(rt, results, a_wrong_end_record_is_a_fault(alloc));
    run_test!(rt, results, a_failed_read_ends_the_batch(alloc));
    run_test!(rt, results, a_failed_write_ends_the_batch(alloc));
    run_test!(rt, results, a_fault_of_the_desk_ends_the_batch(alloc));
    run_test!(rt, results, input_beyond_the_limit_is_not_read(alloc));
    run_test!(rt, results, input_after_the_end_record_is_not_read(alloc));
}
