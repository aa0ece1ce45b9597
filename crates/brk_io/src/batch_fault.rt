use brk_money::Fault;

/// The reason why a batch ended early.
#[derive(Clone, Copy, Debug, PartialEq, Eq)]
pub enum FaultKind {
    /// The input has no record, or its first record is no header.
    BadHeader,
    /// The input ends without an end record.
    NoEnd,
    /// The end record does not hold the number of rows before it.
    BadEnd,
    /// The reader failed; an interrupted read is a failure too.
    Read,
    /// The writer failed, or accepted no byte.
    Write,
    /// The desk failed, or memory ran out.
    Desk(Fault),
}

/// The error of a batch that ended early. The changes of its accepted rows remain.
#[derive(Clone, Copy, Debug, PartialEq, Eq)]
pub struct BatchFault {
    /// The number of rows whose outcome was decided, including rows that were refused as malformed.
    pub rows: u64,
    /// The reason why the batch ended early.
    pub kind: FaultKind,
}
