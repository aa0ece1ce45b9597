use std::alloc::{AllocError, AllocFailed};

/// An index that could not be kept: the memory was refused, or two rows have one key. The index is
/// then not specified.
#[derive(Drop)]
pub struct IndexLost;

impl From<AllocError> for IndexLost {
    fn from(_: AllocError) -> IndexLost {
        IndexLost
    }
}

impl<T: Drop> From<AllocFailed<T>> for IndexLost {
    fn from(_: AllocFailed<T>) -> IndexLost {
        IndexLost
    }
}
