use std::alloc::AllocError;

/// The reason why the arguments request no job.
#[derive(Drop)]
pub enum UsageFault {
    /// The arguments are wrong; the text is the error text, which may be empty.
    Words(String),
    /// Help or the version was requested; the text is what is printed.
    Help(String),
    /// An argument that must be a day is not a day.
    Day,
    /// Out of memory.
    Memory,
}

impl From<AllocError> for UsageFault {
    fn from(_error: AllocError) -> UsageFault {
        UsageFault::Memory
    }
}
