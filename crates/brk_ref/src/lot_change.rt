use brk_money::Id;

/// The change of a lot by a trade: the lot's quantity before and after, below 0 if its shares were
/// sold short (a row of HOLDING_HISTORY).
#[derive(Clone, Copy)]
pub struct LotChange {
    /// The trade that opened the lot.
    pub lot: Id,
    pub trade: Id,
    pub before: i64,
    pub after: i64,
}
