//! The input and output lines of transcripts, and their escapes. A function that fails may have
//! appended a part of its lines.

use std::alloc::{AllocError, Global};

/// An input line of a transcript, without its escapes.
#[derive(Drop)]
pub struct Piece {
    /// The bytes of the line.
    pub bytes: Vec<u8>,
    /// True if a line feed follows the bytes.
    pub has_feed: bool,
}

// The part of an escape that was read so far.
#[derive(Clone, Copy)]
enum Escape {
    // No escape was begun.
    Nothing,
    // A backslash.
    Backslash,
    // A backslash and `x`.
    Hex,
    // A backslash, `x`, and a hexadecimal digit with this value.
    Digit(u8),
}

// Returns the value of a hexadecimal digit, or 0 for any other byte.
fn value_of_hex_digit(byte: u8) -> u8 {
    match byte {
        b'0'..=b'9' => byte - b'0',
        b'a'..=b'f' => byte - b'a' + 10,
        b'A'..=b'F' => byte - b'A' + 10,
        _ => 0,
    }
}

// Unescapes the byte `byte` of an input line (`unescape_input_line`); `read` is the part of an
// escape that was read before it. Appends the unescaped byte that `byte` completes, if any, and
// returns the part of an escape that is read after it. After `\x`, a byte that is no hexadecimal
// digit has the value 0.
fn unescape_byte(bytes: &mut Vec<u8>, read: Escape, byte: u8) -> Result<Escape, AllocError> {
    match (read, byte) {
        (Escape::Nothing, b'\\') => return Ok(Escape::Backslash),
        (Escape::Backslash, b'x') => return Ok(Escape::Hex),
        (Escape::Backslash, b'r') => bytes.push(b'\r')?,
        (Escape::Hex, _) => return Ok(Escape::Digit(value_of_hex_digit(byte))),
        (Escape::Digit(high), _) => bytes.push((high << 4) | value_of_hex_digit(byte))?,
        (Escape::Nothing | Escape::Backslash, _) => bytes.push(byte)?,
    }
    Ok(Escape::Nothing)
}

/// Returns the bytes of an input line without its escapes: `\r` is a carriage return, `\x` with two
/// hexadecimal digits the byte with this value, and a backslash before any other byte only this
/// byte. In the place of a hexadecimal digit, a byte that is none counts as 0. Returns also whether
/// a line feed follows: a single backslash at the end of the line means that none does. An escape
/// `\x` without both digits at the end of the line is dropped.
pub fn unescape_input_line(alloc: Global, text: &str) -> Result<Piece, AllocError> {
    let mut bytes = Vec::new(alloc);
    let mut read = Escape::Nothing;
    for byte in text.as_bytes() {
        read = unescape_byte(&mut bytes, read, *byte)?;
    }
    Ok(Piece {
        bytes,
        has_feed: !matches!(read, Escape::Backslash),
    })
}

// Appends a character with the escapes of an output line: a backslash as `\\`, a carriage return as
// `\r`, and each other character below 20 (hexadecimal), the character 7f, and a bar if `in_record`
// is true, as `\x` with two lower-case hexadecimal digits.
fn append_escaped_char(out: &mut String, c: char, in_record: bool) -> Result<(), AllocError> {
    match c {
        '\\' => out.push_str("\\\\"),
        '\r' => out.push_str("\\r"),
        '|' if in_record => out.push_str("\\x7c"),
        _ if c.is_ascii_control() => write!(out, "\\x{:02x}", u32::from(c)),
        _ => out.push(c),
    }
}

// Appends each character of a text (`append_escaped_char`).
fn append_escaped_text(out: &mut String, text: &str, in_record: bool) -> Result<(), AllocError> {
    for c in text.chars() {
        append_escaped_char(out, c, in_record)?;
    }
    Ok(())
}

/// Appends bytes with the escapes of an output line: a backslash as `\\`, a carriage return as
/// `\r`, and each other byte below 20 (hexadecimal), the byte 7f, each byte that is no part of a
/// UTF-8 character, and a bar if `in_record` is true, as `\x` with two lower-case hexadecimal
/// digits.
pub fn append_escaped_bytes(
    out: &mut String,
    bytes: &[u8],
    in_record: bool,
) -> Result<(), AllocError> {
    for chunk in bytes.utf8_chunks() {
        append_escaped_text(out, chunk.valid(), in_record)?;
        for byte in chunk.invalid() {
            write!(out, "\\x{byte:02x}")?;
        }
    }
    Ok(())
}

// Appends a written line as an output line with escapes after the mark `mark`. A line without a
// line feed ends in a single backslash.
fn append_escaped_line(out: &mut String, mark: &str, written: &[u8]) -> Result<(), AllocError> {
    let (line, end) = match written.strip_suffix(b"\n") {
        Some(line) => (line, "\n"),
        None => (written, "\\\n"),
    };
    out.push_str(mark)?;
    append_escaped_bytes(out, line, false)?;
    out.push_str(end)
}

/// Appends written bytes as output lines with escapes, each after the mark `mark`. The bytes are
/// cut after each line feed, and each piece becomes one line; a last piece without a line feed
/// becomes a line that ends in a single backslash. Without bytes, appends nothing.
pub fn append_escaped_lines_with_prefix(
    out: &mut String,
    mark: &str,
    bytes: &[u8],
) -> Result<(), AllocError> {
    for line in bytes.split_inclusive(|byte| *byte == b'\n') {
        append_escaped_line(out, mark, line)?;
    }
    Ok(())
}

/// Appends written bytes as output lines with escapes, as `append_escaped_lines_with_prefix` does
/// after `>` and a space.
pub fn append_escaped_output_lines(out: &mut String, bytes: &[u8]) -> Result<(), AllocError> {
    append_escaped_lines_with_prefix(out, "> ", bytes)
}

/// Appends the text `line`, without escapes, as an output line: after `>` and a space, and before a
/// line feed.
pub fn append_output_line(out: &mut String, line: &str) -> Result<(), AllocError> {
    writeln!(out, "> {line}")
}
