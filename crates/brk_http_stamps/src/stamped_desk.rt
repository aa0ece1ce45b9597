use brk_desk::Desk;
use brk_money::Stamp;
use sqlite::Alter;

/// A desk with the stamp of its last reply, which is known without a read, also once a fault has
/// closed the desk.
pub struct StampedDesk<S: Alter> {
    pub desk: Desk<S>,
    /// The stamp of the last accepted command, or `None` before the first. If it is the last stamp
    /// of the desk's store at first, it is so after each reply.
    pub stamp: Option<Stamp>,
}
