//! The error of the decoding of a row, and its conversions to faults.

ghost use Rattle.std.specs.Prelude.{◌≡◌, ◌≢◌};
ghost use Rattle.sqlite.specs.declared.error.Error as Error;
ghost use Rattle.sqlite.specs.declared.error.ErrorCode as ErrorCode;

use brk_money::{CallFault, StoreFailed};
use sqlite::{Error, ErrorCode};
use std::alloc::{AllocError, AllocFailed};

/// The reason why a row could not be decoded.
#[derive(Clone, Copy)]
pub enum DecodeError {
    /// A column is malformed, or the number of columns or of rows is wrong.
    Form,
    /// Out of memory.
    Memory,
}

impl From<AllocError> for DecodeError {
    ghost use Rattle.std.specs.Prelude.{◌≡◌};
    ghost use Rattle.brk_tables_schema.specs.declared.decode_error.DecodeError.TheVariants.{Memory as Refused};

    ghost from_gives = { λ _ decode_error. decode_error ≡ Refused };

    fn from(_: AllocError) -> DecodeError {
        DecodeError::Memory
    }
}

impl<T: Drop> From<AllocFailed<T>> for DecodeError {
    ghost use Rattle.std.specs.Prelude.{◌≡◌};
    ghost use Rattle.brk_tables_schema.specs.declared.decode_error.DecodeError.TheVariants.{Memory as Refused};

    ghost from_gives = { λ _ decode_error. decode_error ≡ Refused };

    /// Drops the value that could not be stored.
    fn from(_: AllocFailed<T>) -> DecodeError {
        DecodeError::Memory
    }
}

/// The conversion at a read of one row. A consistent store has no malformed row.
impl From<DecodeError> for StoreFailed {
    /// Converts `Memory` too.
    fn from(_: DecodeError) -> StoreFailed {
        StoreFailed
    }
}

/// The conversion at a read of several rows.
impl From<DecodeError> for CallFault {
    fn from(error: DecodeError) -> CallFault {
        match error {
            DecodeError::Form => CallFault::Store,
            DecodeError::Memory => CallFault::Memory,
        }
    }
}

/// Every error but out of memory becomes `Form`; the clause says only that out of memory does not.
pub(crate) fn decode_error_of(error: Error) -> DecodeError
    ensures { result ≡ DecodeError.Form → error ≢ Error.SqliteFailure ErrorCode.OutOfMemory }
{
    match error {
        Error::SqliteFailure(ErrorCode::OutOfMemory) => DecodeError::Memory,
        _ => DecodeError::Form,
    }
}
