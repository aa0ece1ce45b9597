//! Reads of a request's head and body from a reader into a buffer. After a fault, no clause states
//! what the buffer and the reader contain.
ghost use Rattle.std.specs.Prelude.{◌≡◌, ℕ, ◌+◌, ◌<◌, ◌≤◌, ◌++◌, List, length, true, false, Ok, IfOk, OnOk, IfSome};
ghost use Rattle.std.specs.Io.KnownBytes.{IsAtEnd};
ghost use Rattle.brk_model_http.specs.Heads as spec;
ghost use Rattle.brk_http_reader.specs.Moves.{ReadsIntoBuffer, HeadEndIsWithin};

use brk_model_http::HeadEnd;
use std::alloc::{AllocError, Global};
use std::io::Read;

/// The greatest length of a head in bytes, including the empty line after it.
const MAXIMUM_HEAD_BYTES: usize = 16384;

/// A failure to read from the input into the buffer.
#[derive(Clone, Copy, Debug, PartialEq, Eq)]
pub enum InputFault {
    /// The reader failed.
    Read,
    /// Out of memory.
    Memory,
}

impl From<AllocError> for InputFault {
    ghost use Rattle.brk_http_reader.specs.declared.input.InputFault.TheVariants.{Memory};

    ghost from_gives = { λ _ e. e ≡ Memory };

    fn from(_error: AllocError) -> InputFault {
        InputFault::Memory
    }
}

fn leading_line_end(bytes: &[u8]) -> Option<usize>
    ensures { result ≡ spec.leading_line_end_length bytes.now }
{
    match bytes {
        [b'\n', ..] => Some(1),
        [b'\r', b'\n', ..] => Some(2),
        _ => None,
    }
}

// LF and a line end after it form an empty line.
fn line_end_length_after_line_feed(byte: u8, rest: &[u8]) -> Option<usize>
    ensures { result ≡ spec.line_end_length_after_line_feed byte rest.now }
{
    if byte == b'\n' {
        leading_line_end(rest)
    } else {
        None
    }
}

/// Returns the number of bytes up to and including the first empty line, which ends a head, or
/// `None` if there is no empty line.
pub fn length_of_head(bytes: &[u8]) -> Option<usize>
    ensures value { result ≡ spec.head_length bytes.now }
    ensures within { IfSome result (λ n. n ≤ length bytes.now) }
{
    for (i, byte) in bytes.iter().enumerate() {
        match line_end_length_after_line_feed(*byte, &bytes[i + 1..]) {
            Some(n) => return Some(i + 1 + n),
            None => {}
        }
    }
    None
}

/// Appends at most 1,024 bytes, by one read. Returns false at the end of the input.
pub fn fill_buffer<R: Read>(reader: &mut R, buffer: &mut Vec<u8>) -> Result<bool, InputFault>
    ensures moves { OnOk result (ReadsIntoBuffer (R.remaining reader.old) (R.remaining reader.new) buffer.old.items buffer.new.items) }
    ensures more { result ≡ Ok true → length buffer.old.items < length buffer.new.items }
    ensures end { result ≡ Ok false → IsAtEnd (R.remaining reader.new) × (buffer.new.items ≡ buffer.old.items) }
{
    let mut chunk = [0u8; 1024];
    let Ok(count) = reader.read(&mut chunk) else {
        return Err(InputFault::Read);
    };
    buffer.extend_from_slice(&chunk[..count])?;
    Ok(count > 0)
}

/// Reads until the buffer begins with a whole head, and returns where it ends (`At`). Returns
/// `TooLong` if the first 16,384 bytes do not contain its end, `Cut` if the input ends before it,
/// and `Nothing` if no byte is left.
pub fn read_head<R: Read>(reader: &mut R, buffer: &mut Vec<u8>) -> Result<HeadEnd, InputFault>
    ensures moves { OnOk result (ReadsIntoBuffer (R.remaining reader.old) (R.remaining reader.new) buffer.old.items buffer.new.items) }
    ensures within { IfOk result (λ end. HeadEndIsWithin end (length buffer.new.items)) }
    ensures value { IfOk result (λ end. IfSome (R.remaining reader.old) (λ xs. end ≡ spec.head_end (buffer.old.items ++ xs))) }
{
    'filling: loop {
        let len = buffer.len();
        let seen = len.min(MAXIMUM_HEAD_BYTES);
        match length_of_head(&buffer[..seen]) {
            Some(n) => return Ok(HeadEnd::At(n)),
            None => {}
        }
        if len >= MAXIMUM_HEAD_BYTES {
            return Ok(HeadEnd::TooLong);
        }
        if !fill_buffer(reader, buffer)? {
            if len == 0 {
                return Ok(HeadEnd::Nothing);
            }
            return Ok(HeadEnd::Cut);
        }
    }
}

/// Reads until the buffer has at least `len` bytes; returns false if the input ends before.
pub fn read_to_length<R: Read>(
    reader: &mut R,
    buffer: &mut Vec<u8>,
    len: usize,
) -> Result<bool, InputFault>
    ensures moves { OnOk result (ReadsIntoBuffer (R.remaining reader.old) (R.remaining reader.new) buffer.old.items buffer.new.items) }
    ensures whole { result ≡ Ok true → len ≤ length buffer.new.items }
    ensures short { result ≡ Ok false → (length buffer.new.items < len) × IsAtEnd (R.remaining reader.new) }
{
    'filling: loop {
        if buffer.len() >= len {
            return Ok(true);
        }
        if !fill_buffer(reader, buffer)? {
            return Ok(false);
        }
    }
}
