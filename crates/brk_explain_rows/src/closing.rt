use brk_money::{Id, Price, Stamp};

/// A lot of which a trade closed shares, with its quantity before and after the closing, below 0 if
/// it was sold short.
#[derive(Clone, Copy)]
pub struct Closing {
    /// The trade that opened the lot.
    pub lot: Id,
    /// The stamp at which the lot was opened.
    pub stamp: Stamp,
    /// The price of the trade that opened the lot.
    pub price: Price,
    pub before: i64,
    pub after: i64,
}
