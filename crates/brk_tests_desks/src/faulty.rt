//! Readers that return their bytes in pieces, and readers and writers that fail once.

use crate::desks::Case;
use std::alloc::Global;
use std::io;
use std::io::{Error, ErrorKind, Read, Write};

/// A reader that returns the first bytes, then fails once, and after that returns the other bytes,
/// at most `size` bytes at a call. If `fault` is `None`, it does not fail.
#[derive(Drop)]
pub struct Failing<'a> {
    before: &'a [u8],
    fault: Option<ErrorKind>,
    after: &'a [u8],
    size: usize,
}

impl<'a> Failing<'a> {
    /// Returns a reader of `bytes` that fails once, with an error of the kind `fault`, after the
    /// first `count` bytes, or after all of them if there are fewer.
    pub fn reader_failing_once(bytes: &'a [u8], count: usize, fault: ErrorKind) -> Failing<'a> {
        let (before, after) = bytes.split_at(count.min(bytes.len()));
        Failing {
            before,
            fault: Some(fault),
            after,
            size: usize::MAX,
        }
    }

    /// Returns a reader of `bytes` that returns at most `size` bytes at a call, and does not fail.
    pub fn reader_in_pieces(bytes: &'a [u8], size: usize) -> Failing<'a> {
        Failing {
            before: bytes,
            fault: None,
            after: &[],
            size,
        }
    }
}

impl Read for Failing<'_> {
    /// Copies the next bytes to the buffer: at most `size`, at most as many as the buffer can hold,
    /// and never from `before` and `after` in one call. Returns their number: 0 at the end, and if
    /// `size` is 0 or the buffer is empty. After the bytes of `before`, fails once, with an error
    /// of the kind `fault`, unless `fault` is `None`.
    fn read(&mut self, buf: &mut [u8]) -> io::Result<usize> {
        if self.before.is_empty() {
            if let Some(kind) = self.fault.take() {
                return Err(Error::from(kind));
            }
            self.before = self.after;
            self.after = &[];
        }
        let count = self.size.min(buf.len()).min(self.before.len());
        let (front, rest) = self.before.split_at(count);
        buf[..count].copy_from_slice(front);
        self.before = rest;
        Ok(count)
    }
}

/// A writer that accepts at most seven bytes at a call, and `room` in total. The call after that
/// fails with `error`, or accepts no byte if `error` is `None`; all later calls succeed.
#[derive(Drop)]
pub struct Narrow {
    pub taken: Vec<u8>,
    room: usize,
    error: Option<ErrorKind>,
}

impl Narrow {
    /// Returns a writer with room for `room` bytes, which then fails once with `error`, or once
    /// accepts no byte if `error` is `None`.
    pub fn new(alloc: Global, room: usize, error: Option<ErrorKind>) -> Narrow {
        Narrow {
            taken: Vec::new(alloc),
            room,
            error,
        }
    }
}

impl Write for Narrow {
    /// Appends the first bytes of `buf` to `taken`, at most seven and at most as many as there is
    /// room for, and returns their number. At the first call without room, fails with `error`, or
    /// returns 0 if `error` is `None`; after it there is room for all bytes.
    fn write(&mut self, buf: &[u8]) -> io::Result<usize> {
        let left = self.room.saturating_sub(self.taken.len());
        if left == 0 {
            self.room = usize::MAX;
            return match self.error {
                Some(kind) => Err(Error::from(kind)),
                None => Ok(0),
            };
        }
        let size = buf.len().min(7).min(left);
        self.taken.extend_from_slice(&buf[..size])?;
        Ok(size)
    }

    /// Does nothing.
    fn flush(&mut self) -> io::Result<()> {
        Ok(())
    }
}

/// What fails once at a place of a batch or a stream.
#[derive(Clone, Copy)]
pub enum Cut {
    /// The reader, with an error of this kind.
    Reader(ErrorKind),
    /// The writer, with an error of this kind, or because it accepts no byte (`None`).
    Writer(Option<ErrorKind>),
}

impl Cut {
    /// Returns the case of a failure after the first `at` bytes.
    pub fn case_at(self, at: usize) -> Case<'static> {
        let what = match self {
            Cut::Reader(_) => "the reader fails after",
            Cut::Writer(_) => "the writer fails after",
        };
        Case { what, at }
    }

    /// Returns the number of those inputs whose outputs are whole if this fails after `at` bytes,
    /// and the number of bytes that are written: those of the outputs of all inputs that were read
    /// whole, or `at` bytes if the writer fails. `ends` has, for each input in order, the number of
    /// bytes up to its end, and of those of the outputs up to the end of its own.
    pub fn whole_outputs(self, ends: &[(usize, usize)], at: usize) -> (usize, usize) {
        let (mut count, mut written) = (0usize, 0usize);
        for (input, output) in ends {
            let end = match self {
                Cut::Reader(_) => *input,
                Cut::Writer(_) => *output,
            };
            if end <= at {
                count = count.saturating_add(1);
                written = *output;
            }
        }
        match self {
            Cut::Reader(_) => (count, written),
            Cut::Writer(_) => (count, at),
        }
    }
}
