use crate::reply::Reply;
use brk_trade_rows::Change;

/// The effect of an accepted command: its row changes, in the order in which they are applied, and
/// its reply.
#[derive(Drop)]
pub struct Plan {
    pub changes: Vec<Change>,
    pub reply: Reply,
}
