use brk_money::Refusal;

/// The answer to a command, with a reply of type `R`.
#[derive(Debug, Drop)]
pub enum Answer<R> {
    /// The command was accepted and committed, with this reply.
    Done(R),
    /// The command was accepted before under its key, with this stored reply.
    Again(String),
    /// The command was refused with this refusal, and nothing was changed.
    Refused(Refusal),
}
