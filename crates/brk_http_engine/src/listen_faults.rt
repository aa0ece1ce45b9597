use brk_io::ServeFault;

/// The reason why a listener returned no stream.
#[derive(Clone, Copy, Debug, PartialEq, Eq)]
pub enum AcceptFault {
    /// The peer broke its stream off before it was accepted.
    Aborted,
    /// The accept failed for another reason.
    Failed,
}

/// The cause that ended the serving of a listener early.
#[derive(Clone, Copy, Debug, PartialEq, Eq)]
pub enum ListenFault {
    /// A stream ended with this fault, because memory ran out.
    Stream(ServeFault),
    /// An accept failed with `AcceptFault::Failed`.
    Net,
}
