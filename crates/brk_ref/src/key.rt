use crate::batch_name::BatchName;
use crate::row_number::RowNumber;

/// The idempotency key of a command: the name of a batch and the number of a row in it. A command
/// is accepted under a key at most once.
#[derive(Clone, Drop)]
pub struct Key {
    pub batch: BatchName,
    pub n: RowNumber,
}

/// An accepted row (a row of KEPT): its key, its canonical text and the stored reply line.
#[derive(Drop)]
pub struct Kept {
    pub key: Key,
    pub row_text: String,
    pub line: String,
}
