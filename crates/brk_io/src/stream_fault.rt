/// The cause of a fault that ended a stream early.
#[derive(Clone, Copy, Debug, PartialEq, Eq)]
pub enum FaultKind {
    /// The reader failed; an interrupted read is a failure too.
    Read,
    /// The writer failed, or accepted no byte.
    Write,
    /// Out of memory.
    Memory,
}

/// A fault that ended a stream early, with the number of replies before it.
#[derive(Clone, Copy, Debug, PartialEq, Eq)]
pub struct ServeFault {
    /// The number of requests that were answered before the fault.
    pub done: u64,
    /// The cause of the fault.
    pub kind: FaultKind,
}
